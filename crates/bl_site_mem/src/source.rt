// A source over bytes in memory.
ghost use Rattle.std.specs.Prelude.{◌≡◌, ◌<◌, ◌≤◌, ◌+◌, ◌-◌, ◌^◌, ◌++◌, ℕ, [], length, take, min, true, false, IfOk, OnErr, IsErrOf, MatchResult};
ghost use Rattle.bl_site.specs.Causes.{Rose};
ghost use Rattle.bl_site.specs.declared.site.SiteErr.TheVariants.{OutOfMemory};
ghost use Rattle.bl_site_mem.specs.Supply.{supply_of, fails_now, portion, after_handing, after_failing};

use crate::memory::copy_front;
use bl_site::{SiteErr, Source, SourceErr};
use std::alloc::Global;
use std::marker::Model;

/// Bytes in memory as a source. A call hands out at most a piece of them, and chosen calls fail and take nothing.
#[derive(Drop)]
pub struct MemSource {
    bytes: Vec<u8>,
    at: usize,
    piece: usize,
    failing: Vec<u64>,
    calls: u64,
    taken: u64,
    faults: u64,
}

impl Model for MemSource {
    ghost use Rattle.std.specs.Prelude.{◌<◌, ◌≤◌, length, drop};
    ghost use Rattle.bl_site_mem.specs.Supply.{Supply};

    ghost Value = { Supply };

    ghost view = { λ s. record {
      left = drop s.at s.bytes.items;
      piece = s.piece;
      failing = s.failing.items;
      calls = s.calls;
      taken = s.taken;
      faults = s.faults;
    } };

    ghost invariant = { λ s. (0 < s.piece) × (s.at ≤ length s.bytes.items) };
}

impl MemSource {
    /// Hands out at most `piece` bytes a call, which must be above 0. The calls of the numbers in `failing`, counted from 1,
    /// fail and take nothing.
    ///
    /// Errors: `OutOfMemory` alone.
    pub fn over(
        alloc: Global,
        bytes: &[u8],
        piece: usize,
        failing: &[u64],
    ) -> Result<MemSource, SiteErr>
        requires { 0 < piece }
        ensures fresh { IfOk result (λ source. source ≡ supply_of bytes.now piece failing.now) }
        ensures only_memory { OnErr result (IsErrOf result OutOfMemory) }
    {
        Ok(MemSource {
            bytes: Vec::from_slice(alloc, bytes)?,
            at: 0,
            piece,
            failing: Vec::from_slice(alloc, failing)?,
            calls: 0,
            taken: 0,
            faults: 0,
        })
    }
}

impl Source for MemSource {
    ghost shows = { Unit {0} };

    ghost left = { λ s. s.left };

    ghost taken = { λ s. s.taken };

    ghost faults = { λ s. s.faults };

    // The trait's clauses, and which calls fail, how many bytes are handed out, and what is there after each call.
    fn read(&mut self, into: &mut [u8]) -> Result<usize, SourceErr>
        ensures fails { MatchResult result (λ _. fails_now self.old ≡ false) (λ _. fails_now self.old ≡ true) }
        ensures count { IfOk result (λ count. count ≡ portion (length into.new) self.old) }
        ensures handed { IfOk result (λ count. self.new ≡ after_handing count self.old) }
        ensures not_handed { OnErr result (self.new ≡ after_failing self.old) }
        ensures bound { IfOk result (λ count. count ≤ length into.new) }
        ensures bytes { IfOk result (λ count. self.old.left ≡ take count into.new ++ self.new.left) }
        ensures end { IfOk result (λ count. 0 < length into.new → count ≡ 0 → self.old.left ≡ []) }
        ensures taken { IfOk result (λ count. self.new.taken ≡ min (self.old.taken + count) (2 ^ 64 - 1)) }
        ensures later { self.old.faults ≤ self.new.faults }
        ensures failed { OnErr result (Rose self.old.faults self.new.faults) }
        ensures stays { OnErr result (self.new.left ≡ self.old.left) }
        ensures taken_stays { OnErr result (self.new.taken ≡ self.old.taken) }
    {
        self.calls = self.calls.saturating_add(1);
        let number = self.calls;
        if self.failing.contains(&number) {
            self.faults = self.faults.saturating_add(1);
            return Err(SourceErr::Failed);
        }
        let rest = &self.bytes[self.at..];
        let most = self.piece.min(rest.len());
        let count = copy_front(&rest[..most], into);
        self.at += count;
        self.taken = self.taken.saturating_add(count as u64);
        Ok(count)
    }
}
