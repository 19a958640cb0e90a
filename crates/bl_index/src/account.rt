//! What is counted of one blob file.

ghost use Rattle.std.specs.Prelude.{◌≡◌, ◌+◌, ◌-◌, ◌*◌, ◌^◌, ◌<◌, ◌≤◌, MatchOption};

// The bytes of a record's head.
pub(crate) const HEAD: u64 = 32;

// How many references, and their bytes.
#[derive(Clone, Copy, Debug)]
pub(crate) struct Sum {
    pub(crate) count: u64,
    pub(crate) bytes: u64,
}

// The references that went in, and those that came out.
#[derive(Clone, Copy, Debug)]
pub(crate) struct Account {
    pub(crate) ins: Sum,
    pub(crate) outs: Sum,
}

impl Sum {
    pub(crate) const ZERO: Sum = Sum { count: 0, bytes: 0 };

    // One reference more; None where the bytes would reach 2^64.
    pub(crate) fn with(self, key_length: u64, size: u64) -> Option<Sum>
        requires { 32 * self.count ≤ self.bytes }
        ensures { MatchOption result (2 ^ 64 ≤ self.bytes + (32 + key_length + size))
            (λ more. (more.count ≡ self.count + 1)
            × (more.bytes ≡ self.bytes + (32 + key_length + size)) × (more.bytes < 2 ^ 64)) }
    {
        let reference = HEAD.checked_add(key_length)?.checked_add(size)?;
        let bytes = self.bytes.checked_add(reference)?;
        Some(Sum {
            count: self.count + 1,
            bytes,
        })
    }
}

impl Account {
    pub(crate) const EMPTY: Account = Account {
        ins: Sum::ZERO,
        outs: Sum::ZERO,
    };

    // What went in and did not come out.
    pub(crate) fn garbage(&self) -> (u64, u64)
        requires count { self.now.outs.count ≤ self.now.ins.count }
        requires bytes { self.now.outs.bytes ≤ self.now.ins.bytes }
        ensures { result ≡ (self.now.ins.count - self.now.outs.count, self.now.ins.bytes - self.now.outs.bytes) }
    {
        (
            self.ins.count - self.outs.count,
            self.ins.bytes - self.outs.bytes,
        )
    }
}
