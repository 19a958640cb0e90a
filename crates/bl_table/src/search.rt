//! The restart at which a search in a block begins.

ghost use Rattle.std.specs.Prelude.{◌≡◌, ℕ, ◌+◌, ◌*◌, ◌^◌, ◌<◌, ◌≤◌, [], length, take, Some, None, IsSomeAnd};
ghost use Rattle.bl_code.specs.Reading.{Input};
ghost use Rattle.bl_table.specs.Blocks.{Cell, cell_at, contents, first_from, next_after};
ghost use Rattle.bl_table.specs.Searching.{at_place, Begins, BeginsAt};

use crate::check::{is_before, number_at};
use crate::entry::take_lengths;
use bl_code::Taker;

/// A taker that stands at a place.
pub(crate) fn taker_at(bytes: &[u8], place: usize) -> Taker<'_>
    requires { place ≤ length bytes.now }
    ensures { result ≡ at_place place bytes.now }
{
    let mut taker = Taker::over(bytes);
    let _passed = taker.take_bytes(place as u64);
    taker
}

// The key of an entry at a place that shares nothing.
fn restart_key(bytes: &[u8], place: usize) -> Option<&[u8]>
    requires { place ≤ length bytes.now }
    ensures { (c : Cell) (behind : Input) → cell_at [] (at_place place bytes.now) ≡ Some (c, behind) → IsSomeAnd result (λ key. key.now ≡ c.key) }
{
    let mut taker = taker_at(bytes, place);
    let Some(lengths) = take_lengths(&mut taker) else {
        return None;
    };
    taker.take_bytes(u64::from(lengths.unshared))
}

/// Where the first entry at or behind a key is sought, in a block whose restarts begin at a limit: at the last
/// restart whose key stands before it, or at the beginning.
pub(crate) fn restart_for_key(bytes: &[u8], limit: usize, count: usize, from: &[u8]) -> usize
    requires some { 0 < count }
    requires within { limit + 4 * count ≤ length bytes.now }
    requires key { 9 ≤ length from.now }
    requires good { (offset : ℕ) × ((contents offset bytes.now limit count).fault ≡ None) }
    ensures { BeginsAt (first_from from.now) bytes.now limit count result }
{
    let (entries, _) = bytes.split_at(limit);
    let mut low = 0;
    let mut high = count - 1;
    let mut place = 0;
    'restarts: while low < high {
        let middle = high - (high - low) / 2;
        let restart = number_at(bytes, limit + 4 * middle) as usize;
        let is_less = match restart_key(entries, restart) {
            Some(key) => is_before(key, from),
            None => false,
        };
        if is_less {
            low = middle;
            place = restart;
        } else {
            high = middle - 1;
        }
    }
    place
}

/// Where the entry behind the one at a place is sought: at the last restart up to it, or at the beginning.
pub(crate) fn restart_for_place(bytes: &[u8], limit: usize, count: usize, at: u64) -> usize
    requires some { 0 < count }
    requires within { limit + 4 * count ≤ length bytes.now }
    ensures { (offset : ℕ) → (contents offset bytes.now limit count).fault ≡ None → Begins (next_after (offset + at)) offset (take limit bytes.now) result }
{
    let mut low = 0;
    let mut high = count - 1;
    let mut place = 0;
    'restarts: while low < high {
        let middle = high - (high - low) / 2;
        let restart = number_at(bytes, limit + 4 * middle);
        if u64::from(restart) <= at {
            low = middle;
            place = restart as usize;
        } else {
            high = middle - 1;
        }
    }
    place
}
