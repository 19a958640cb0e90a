//! The next record among the bytes held.

ghost use Rattle.std.specs.Prelude.{◌≡◌, ◌<◌, ◌≤◌, [], false, true, length, take, IfOk, OnErr};
ghost use Rattle.bl_log.specs.Judge.{Seeks, Steps};

use crate::cause::EndCause;
use crate::judge::{Judged, filler_before, judge};
use crate::writer::{HEAD, LogErr};

/// How far the bytes held are read: up to this index, which has this place in the log, modulo 2^64, and
/// whether a record is half read there.
#[derive(Clone, Copy, Drop)]
pub(crate) struct Cursor {
    pub read: usize,
    pub place: u64,
    pub begun: bool,
}

/// What a search comes to: a record, or the place where and why the bytes held have none.
#[derive(Clone, Copy, Drop)]
pub(crate) enum Sought {
    Record,
    Stands(u64, EndCause),
}

// Reads one fragment. Its payload joins what is half read.
fn step(held: &[u8], at: &mut Cursor, half: &mut Vec<u8>) -> Result<Option<Sought>, LogErr>
    requires within { at.old.read ≤ length held.now }
    requires fresh { at.old.begun ≡ false → half.old.items ≡ [] }
    ensures ok { IfOk result (λ s. Steps s held.now at.old half.old.items at.new half.new.items) }
    ensures within { at.new.read ≤ length held.now }
    ensures further { IfOk result (λ s. s ≡ None → at.old.read < at.new.read) }
    ensures front { (length half.old.items ≤ length half.new.items) × (take (length half.old.items) half.new.items ≡ half.old.items) }
{
    let rest = &held[at.read..];
    let filler = filler_before(at.place, rest.len());
    let here = at.place.wrapping_add(filler as u64);
    let bytes = &rest[filler..];
    match judge(here, at.begun, bytes) {
        Judged::Ends(cause) => Ok(Some(Sought::Stands(here, cause))),
        Judged::Fragment(last, size) => {
            half.extend_from_slice(&bytes[HEAD..HEAD + size])?;
            at.read += filler + HEAD + size;
            at.place = here.wrapping_add((HEAD + size) as u64);
            at.begun = !last;
            Ok(if last { Some(Sought::Record) } else { None })
        }
    }
}

/// Reads fragments up to the end of a record, which is then what was half read.
pub(crate) fn seek(held: &[u8], at: &mut Cursor, half: &mut Vec<u8>) -> Result<Sought, LogErr>
    requires within { at.old.read ≤ length held.now }
    requires fresh { at.old.begun ≡ false → half.old.items ≡ [] }
    ensures ok { IfOk result (λ s. Seeks s held.now at.old half.old.items at.new half.new.items) }
    ensures within { at.new.read ≤ length held.now }
    ensures front { take (length half.old.items) half.new.items ≡ half.old.items }
{
    // A place that is read is known to be below 2^64.
    let _place = at.place;
    'fragments: loop {
        if let Some(sought) = step(held, at, half)? {
            return Ok(sought);
        }
    }
}
