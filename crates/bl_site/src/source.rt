// A source of bytes, as standard input.
ghost use Rattle.std.specs.Prelude.{◌≡◌, ◌≤◌, ◌+◌, ◌-◌, ◌^◌, ◌<◌, min, ℕ, List, [], ◌++◌, length, take, IfOk, OnErr};
ghost use Rattle.bl_site.specs.Causes.{Rose};

/// Why a call of a [`Source`] gave nothing.
#[derive(Clone, Copy, Debug, PartialEq, Eq)]
pub enum SourceErr {
    /// The source failed. It comes only where `faults` rose in this call.
    Failed,
}

/// Bytes that are read from first to last.
pub trait Source {
    /// Whether the bytes are shown. The clauses on contents hold where they are.
    ghost shows: { Type 0 };

    /// The bytes that are left.
    ghost left: { Self → List ℕ };

    /// How many bytes were given. It stops at 2 ^ 64 - 1, where it is taken to have risen by any number.
    ghost taken: { Self → ℕ };

    /// How often the source has failed. It never falls, and stops at 2 ^ 64 - 1, where it is taken to have risen.
    ghost faults: { Self → ℕ };

    /// Fills a front of `into` with the next bytes, and answers their number. For an `into` that is not empty, 0 means that
    /// no bytes are left.
    ///
    /// Errors: `Failed`, after which the bytes left and `taken` are as before.
    fn read(&mut self, into: &mut [u8]) -> Result<usize, SourceErr>
        ensures bound { IfOk result (λ count. count ≤ length into.new) }
        ensures bytes { IfOk result (λ count. shows → left self.old ≡ take count into.new ++ left self.new) }
        ensures end { IfOk result (λ count. shows → 0 < length into.new → count ≡ 0 → left self.old ≡ []) }
        ensures taken { IfOk result (λ count. taken self.new ≡ min (taken self.old + count) (2 ^ 64 - 1)) }
        ensures later { faults self.old ≤ faults self.new }
        ensures failed { OnErr result (Rose (faults self.old) (faults self.new)) }
        ensures stays { OnErr result (shows → left self.new ≡ left self.old) }
        ensures taken_stays { OnErr result (taken self.new ≡ taken self.old) };
}
