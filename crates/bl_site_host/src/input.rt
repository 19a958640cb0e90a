//! A reader, as standard input, as a source. It shows no content.
ghost use Rattle.std.specs.Prelude.{◌≡◌, ◌≤◌, ◌<◌, ◌+◌, ◌-◌, ◌^◌, [], min, length, take, IfOk, IsSome, MatchResult, OnErr};
ghost use Rattle.std.specs.Io.KnownBytes.{Consumes, IsAtEnd, Keeps};
ghost use Rattle.bl_site.specs.Causes.{Rose};

use crate::moving::read_some;
use bl_site::{Source, SourceErr};
use std::io::{self, Read};

/// Standard input as a source. It shows no content.
#[derive(Drop)]
pub struct HostSource<R: Read + Drop> {
    reader: R,
    taken: u64,
    faults: u64,
    last: Option<io::Error>,
}

impl<R: Read + Drop> HostSource<R> {
    /// A source over this reader, of which nothing was taken yet: its counts are 0.
    pub fn start(reader: R) -> HostSource<R>
        ensures taken { ⟦<HostSource<R> as Source>⟧.taken result ≡ 0 }
        ensures faults { ⟦<HostSource<R> as Source>⟧.faults result ≡ 0 }
        ensures reader { result.reader ≡ reader }
    {
        HostSource {
            reader,
            taken: 0,
            faults: 0,
            last: None,
        }
    }

    /// Why the last read that failed did, if one has.
    pub fn last_failure(&self) -> Option<io::Error>
        ensures { result ≡ self.now.last }
    {
        self.last
    }
}

impl<R: Read + Drop> Source for HostSource<R> {
    ghost shows = { ⊥ };

    ghost left = { λ _. [] };

    ghost taken = { λ s. s.taken };

    ghost faults = { λ s. s.faults };

    fn read(&mut self, into: &mut [u8]) -> Result<usize, SourceErr>
        ensures last { MatchResult result (λ _. self.new.last ≡ self.old.last) (λ _. IsSome self.new.last) }
        ensures bound { IfOk result (λ count. count ≤ length into.new) }
        ensures read { IfOk result (λ count. Consumes (R.remaining self.old.reader) (R.remaining self.new.reader) (take count into.new)) }
        ensures read_all { IfOk result (λ count. count ≡ 0 → 0 < length into.new → IsAtEnd (R.remaining self.new.reader)) }
        ensures read_none { OnErr result (Keeps (R.remaining self.old.reader) (R.remaining self.new.reader)) }
        ensures taken { IfOk result (λ count. self.new.taken ≡ min (self.old.taken + count) (2 ^ 64 - 1)) }
        ensures later { self.old.faults ≤ self.new.faults }
        ensures failed { OnErr result (Rose self.old.faults self.new.faults) }
        ensures taken_stays { OnErr result (self.new.taken ≡ self.old.taken) }
    {
        match read_some(&mut self.reader, into) {
            Ok(count) => {
                self.taken = self.taken.saturating_add(count as u64);
                Ok(count)
            }
            Err(error) => {
                self.last = Some(error);
                self.faults = self.faults.saturating_add(1);
                Err(SourceErr::Failed)
            }
        }
    }
}
