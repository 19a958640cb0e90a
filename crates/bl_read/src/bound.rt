//! Where pairs are told from.

ghost use Rattle.std.specs.Prelude.{◌≡◌, ◌≤◌, IfOk, IfErr, length};
ghost use Rattle.bl_read.specs.Scanning.{IsBefore, IsStartOf, is_reached, is_told_at};

use crate::put::copied;
use bl_code::{MAX_KEY, Octets};
use bl_entry::{Entry, InternalKey, Kind, RunErr};
use std::alloc::Global;

// The user key that no other stands before.
const LEAST: [u8; 1] = [0];

// The greatest sequence.
const MAX_SEQ: u64 = (1 << 56) - 1;

/// Where pairs are told from. The key may be any bytes.
#[derive(Drop)]
pub enum Bound {
    /// From the first key on.
    First,
    /// From this key on.
    From(Octets),
    /// From the first key behind this one on.
    After(Octets),
}

impl Bound {
    /// Whether a user key is at the bound or behind it.
    pub(crate) fn reaches(&self, key: &[u8]) -> bool
        ensures { result ≡ is_reached self.now key.now }
    {
        match self {
            Bound::First => true,
            Bound::From(from) => from.as_slice().cmp(key).is_le(),
            Bound::After(from) => from.as_slice().cmp(key).is_lt(),
        }
    }

    /// Whether an entry is of such a key and has a sequence up to `seq`.
    pub(crate) fn tells(&self, entry: &Entry, seq: u64) -> bool
        ensures { result ≡ is_told_at self.now seq entry.now }
    {
        self.reaches(entry.key.user.as_slice()) && entry.key.seq <= seq
    }

    // The user key of the bound or, where no key is like it, the least one.
    fn user(&self) -> &[u8]
        ensures before { IsBefore self.now result.now }
        ensures some { 1 ≤ length result.now }
        ensures no_longer { length result.now ≤ 65535 }
    {
        let user = match self {
            Bound::First => &LEAST,
            Bound::From(from) => from.as_slice(),
            Bound::After(from) => from.as_slice(),
        };
        if user.is_empty() || user.len() > MAX_KEY {
            &LEAST
        } else {
            user
        }
    }

    /// A key that no key at the bound or behind it stands before.
    ///
    /// Errors: `OutOfMemory` alone.
    pub(crate) fn start(&self, alloc: Global) -> Result<InternalKey, RunErr>
        ensures start { IfOk result (IsStartOf self.now) }
        ensures memory { IfErr result (λ e. e ≡ RunErr.OutOfMemory) }
    {
        let user = copied(alloc, self.user())?;
        Ok(InternalKey {
            user,
            seq: MAX_SEQ,
            kind: Kind::BlobRef,
        })
    }

    /// The same bound once more.
    ///
    /// Errors: `OutOfMemory` alone.
    pub(crate) fn copy(&self, alloc: Global) -> Result<Bound, RunErr>
        ensures copy { IfOk result (λ copy. copy ≡ self.now) }
        ensures memory { IfErr result (λ e. e ≡ RunErr.OutOfMemory) }
    {
        match self {
            Bound::First => Ok(Bound::First),
            Bound::From(from) => Ok(Bound::From(copied(alloc, from.as_slice())?)),
            Bound::After(from) => Ok(Bound::After(copied(alloc, from.as_slice())?)),
        }
    }
}
