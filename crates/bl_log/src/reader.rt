//! Reading a log.

ghost use Rattle.std.specs.Prelude.{◌≡◌, ◌≤◌, length, ℕ, List, [], ◌++◌, false, true, map, Some, Ok, ◌↔◌, IsTrue, IfOk, IfSome, OnOk, OnErr};
ghost use Rattle.bl_log.specs.Log.{records, placed_records, ending};
ghost use Rattle.bl_log.specs.Reading.{Reading, HasRead};
ghost use Rattle.bl_log.specs.Answers.{Answers};
ghost use Rattle.bl_log.specs.Judge.{IsOpen};

use crate::cause::EndCause;
use crate::seek::{Cursor, Sought, seek};
use crate::writer::LogErr;
use bl_code::Octets;
use std::alloc::Global;
use std::marker::Model;
use std::mem;

/// What a reader answers next.
#[derive(Drop)]
pub enum LogNext {
    /// The next record.
    Found(Octets),
    /// The bytes fed don't decide what stands behind the last record.
    NeedMore,
    /// Reading ends at this place, modulo 2^64, for this cause. Each later call answers the same.
    End(u64, EndCause),
}

/// Reads a log that is fed in pieces, cut anywhere. It keeps the bytes of the piece that are not yet read,
/// and of a record what is half read.
#[derive(Drop)]
pub struct LogReader {
    alloc: Global,
    held: Vec<u8>,
    half: Vec<u8>,
    at: Cursor,
    closed: bool,
    ended: Option<(u64, EndCause)>,
}

impl Model for LogReader {
    ghost use Rattle.std.specs.Prelude.{◌≡◌, ◌≤◌, [], length, drop, false};
    ghost use Rattle.bl_log.specs.Reading.{Reading};
    ghost use Rattle.bl_log.specs.Judge.{half_of};

    ghost Value = { Reading };

    ghost view = { λ r. record { place = r.at.place; half = half_of r.at.begun r.half.items; held = drop r.at.read r.held.items; closed = r.closed; ended = r.ended } };

    ghost invariant = { λ r. (r.at.read ≤ length r.held.items) × (r.at.begun ≡ false → r.half.items ≡ []) };
}

// More bytes may change it.
fn is_open(cause: EndCause) -> bool
    ensures { IsTrue result ↔ IsOpen cause }
{
    match cause {
        EndCause::Finished | EndCause::Cut => true,
        _ => false,
    }
}

impl LogReader {
    /// A reader at the beginning of a log of which nothing is fed.
    pub fn start(alloc: Global) -> LogReader
        ensures reads { HasRead [] [] result }
        ensures open { (result.closed ≡ false) }
    {
        LogReader {
            alloc,
            held: Vec::new(alloc),
            half: Vec::new(alloc),
            at: Cursor {
                read: 0,
                place: 0,
                begun: false,
            },
            closed: false,
            ended: None,
        }
    }

    /// More bytes of the log follow those fed so far. The reader is not closed.
    ///
    /// Errors: `OutOfMemory` alone, after which the reader is as it was.
    pub fn feed(&mut self, bytes: &[u8]) -> Result<(), LogErr>
        requires { self.old.closed ≡ false }
        ensures reads { OnOk result ((fed : List ℕ) (found : List (List ℕ × ℕ)) → HasRead fed found self.old → HasRead (fed ++ bytes.now) found self.new) }
        ensures rest { (self.new.closed ≡ false) × (self.new.ended ≡ self.old.ended) × (self.new.place ≡ self.old.place) }
        ensures err { OnErr result (self.new ≡ self.old) }
    {
        let kept = self.held.len() - self.at.read;
        if kept <= self.at.read {
            self.held.copy_within(self.at.read.., 0);
            self.held.truncate(kept);
            self.at.read = 0;
        }
        self.held.extend_from_slice(bytes)?;
        Ok(())
    }

    /// No bytes follow: `next` answers no `NeedMore` from now on.
    pub fn close(&mut self)
        ensures reads { (fed : List ℕ) (found : List (List ℕ × ℕ)) → HasRead fed found self.old → HasRead fed found self.new }
        ensures closed { self.new ≡ record self.old { closed = true } }
    {
        self.closed = true;
    }

    /// The next record; `NeedMore` exactly where the reader is not closed and the bytes fed don't decide the
    /// fragment behind the last record; or where and why reading ends.
    ///
    /// Errors: `OutOfMemory` alone, after which the reader is as it was.
    pub fn next(&mut self) -> Result<LogNext, LogErr>
        ensures answers { IfOk result (λ n. (fed : List ℕ) (found : List (List ℕ × ℕ)) → HasRead fed found self.old → Answers n fed found self.new) }
        ensures closed { self.new.closed ≡ self.old.closed }
        ensures open { result ≡ Ok LogNext.NeedMore → self.old.closed ≡ false }
        ensures ends { (place : ℕ) (cause : EndCause) → result ≡ Ok (LogNext.End place cause) → self.new.ended ≡ Some (place, cause) }
        ensures again { IfSome self.old.ended (λ end. (result ≡ Ok (LogNext.End end.0 end.1)) × (self.new ≡ self.old)) }
        ensures err { OnErr result (self.new ≡ self.old) }
    {
        if let Some((place, cause)) = self.ended {
            return Ok(LogNext::End(place, cause));
        }
        let kept = self.half.len();
        let mut at = self.at;
        match seek(self.held.as_slice(), &mut at, &mut self.half) {
            Err(error) => {
                self.half.truncate(kept);
                Err(error)
            }
            Ok(Sought::Record) => {
                self.at = at;
                let found = mem::replace(&mut self.half, Vec::new(self.alloc));
                Ok(LogNext::Found(Octets::from_vec(found)))
            }
            Ok(Sought::Stands(place, cause)) => {
                self.at = at;
                if !self.closed && is_open(cause) {
                    return Ok(LogNext::NeedMore);
                }
                self.ended = Some((place, cause));
                Ok(LogNext::End(place, cause))
            }
        }
    }

    /// The place behind the last fragment that was read, modulo 2^64, before filler is skipped.
    pub fn place(&self) -> u64
        ensures { result ≡ self.now.place }
    {
        self.at.place
    }
}

/// The records of a log are those that have a place.
pub fn placed_records_are_records()
    ensures { (bytes : List ℕ) → map (λ found. found.0) (placed_records bytes) ≡ records bytes }
{}

/// What a reader has found are the first records of the log, whatever follows the bytes fed.
pub fn found_records_are_first()
    ensures { (fed : List ℕ) (found : List (List ℕ × ℕ)) (reader : Reading) → HasRead fed found reader → (more : List ℕ) → (rest : List (List ℕ × ℕ)) × (placed_records (fed ++ more) ≡ found ++ rest) }
{}

/// Reading ends within the bytes read.
pub fn reading_ends_within()
    ensures { (bytes : List ℕ) → (ending bytes).0 ≤ length bytes }
{}
