//! The fragment at a place, judged by the bytes from there on.

ghost use Rattle.std.specs.Prelude.{◌≡◌, ℕ, ◌+◌, ◌<◌, ◌≤◌, ◌⊎◌, ◌∷◌, List, Option, is_some, length, drop};
ghost use Rattle.bl_code.specs.Crc.{crc32c, mask_of};
ghost use Rattle.bl_log.specs.Log.{room, step_at, part_of, at_end as end_of};
ghost use Rattle.bl_log.specs.Judge.{IsWithin, step_of, joined_as, read_as, filler_before as filler_of};

use crate::cause::EndCause;
use crate::writer::{BLOCK, HEAD};
use bl_code::{Crc, mask};

/// What stands at a fragment's place: reading ends, or a fragment with a payload of this size, which may be
/// the last of its record.
#[derive(Clone, Copy, Drop)]
pub(crate) enum Judged {
    Ends(EndCause),
    Fragment(bool, usize),
}

// The bytes from a place to the end of its block.
fn room_at(place: u64) -> usize
    ensures { result ≡ room place }
{
    BLOCK - (place % BLOCK as u64) as usize
}

/// The filler at a place of which so many bytes are held, where it is among them.
pub(crate) fn filler_before(place: u64, held: usize) -> usize
    ensures { result ≡ filler_of place held }
{
    let room = room_at(place);
    if room < HEAD && room <= held { room } else { 0 }
}

// The checksum of a fragment as it is stored.
fn sum_of(kind: u8, payload: &[u8]) -> u32
    ensures { result ≡ mask_of (crc32c (kind ∷ payload.now)) }
{
    let mut crc = Crc::start();
    crc.extend(&[kind]);
    crc.extend(payload);
    mask(crc.value())
}

// No byte follows.
fn at_end(begun: bool) -> EndCause
    ensures { (half : Option (List ℕ)) → is_some half ≡ begun → result ≡ end_of half }
{
    if begun {
        EndCause::Cut
    } else {
        EndCause::Finished
    }
}

// Whether a fragment of this type is the last of its record; None where it doesn't fit what is half read.
fn is_last(kind: u8, begun: bool) -> Option<bool>
    requires { (0 < kind) × (kind < 5) }
    ensures { (half : Option (List ℕ)) (payload : List ℕ) (size : ℕ) → is_some half ≡ begun → joined_as (part_of kind) half payload size ≡ read_as result half payload size }
{
    match (kind, begun) {
        (1, false) | (4, true) => Some(true),
        (2, false) | (3, true) => Some(false),
        _ => None,
    }
}

/// Judges the fragment at a place behind the filler, by the bytes held from there on.
pub(crate) fn judge(place: u64, begun: bool, held: &[u8]) -> Judged
    requires { (7 ≤ room place) ⊎ (length held.now < room place) }
    ensures stands { (half : Option (List ℕ)) → is_some half ≡ begun → step_at place half held.now ≡ step_of result half held.now }
    ensures within { IsWithin result (length held.now) }
{
    let room = room_at(place);
    if room < HEAD || held.is_empty() {
        return Judged::Ends(at_end(begun));
    }
    if held.len() < HEAD {
        return Judged::Ends(EndCause::Cut);
    }
    let size = usize::from(u16::from_le_bytes([held[4], held[5]]));
    if room < HEAD + size {
        return Judged::Ends(EndCause::Length);
    }
    let kind = held[6];
    if kind == 0 || kind > 4 {
        return Judged::Ends(EndCause::Kind);
    }
    if held.len() < HEAD + size {
        return Judged::Ends(EndCause::Cut);
    }
    let sum = u32::from_le_bytes([held[0], held[1], held[2], held[3]]);
    if sum != sum_of(kind, &held[HEAD..HEAD + size]) {
        return Judged::Ends(EndCause::Crc);
    }
    match is_last(kind, begun) {
        Some(last) => Judged::Fragment(last, size),
        None => Judged::Ends(EndCause::Order),
    }
}
