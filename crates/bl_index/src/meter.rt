//! The meter of a job: which bytes of which blob files its outputs no longer reference.

ghost use Rattle.std.specs.Prelude.{◌≡◌, ℕ, ◌+◌, ◌^◌, ◌≤◌, ◌↔◌, [], ◌∷◌, ◌++◌, List, sum, OnOk, OnErr, IfErr, IsErrOf};
ghost use Rattle.bl_index.specs.Metering.{Flow, In, Out, Meters, ins, garbage, HasRoom, MayComeOut, Accounts, reference_bytes, IsRefusal};

use crate::account::{Account, HEAD, Sum};
use crate::error::IndexErr;
use crate::index::BlobIndex;
use std::alloc::Global;
use std::collections::BTreeMap;
use std::marker::Model;

/// Counts, for each blob file, the references that a job reads (its in-flow) and those that it writes
/// again (its out-flow), as RocksDB's BlobGarbageMeter does. A reference counts 1, and the bytes of
/// its record: 32 for the head, the key's and the value's.
#[derive(Debug, Drop)]
pub struct Meter {
    files: BTreeMap<u64, Account>,
}

impl Model for Meter {
    ghost use Rattle.std.specs.Prelude.{List, ℕ};
    ghost use Rattle.bl_index.specs.declared.account.Account.{Account};

    ghost Value = { List (ℕ × Account) };

    ghost use Rattle.bl_index.specs.Metering.{AreFair};

    ghost view = { λ m. m.files.entries };

    ghost invariant = { λ m. AreFair m.files.entries };
}

impl Meter {
    /// Nothing went in or came out.
    pub fn start(alloc: Global) -> Meter
        ensures { Meters [] result }
    {
        Meter {
            files: BTreeMap::new(alloc),
        }
    }

    /// The job read this reference, under a key of so many bytes.
    ///
    /// `Overflow` with the file's number exactly where the bytes that went in for the file would reach 2^64,
    /// and `OutOfMemory` where memory runs out; then the meter is as it was.
    pub fn in_flow(&mut self, key_length: u64, index: &BlobIndex) -> Result<(), IndexErr>
        ensures ok { OnOk result ((flows : List Flow) → Meters flows self.old
            → Meters (flows ++ In index.now.file (reference_bytes key_length index.now) ∷ []) self.new) }
        ensures overflow { (flows : List Flow) → Meters flows self.old
            → IsErrOf result (IndexErr.Overflow index.now.file)
            ↔ (2 ^ 64 ≤ sum (ins index.now.file flows) + reference_bytes key_length index.now) }
        ensures only { IfErr result (λ e. IsRefusal index.now.file e) }
        ensures err { OnErr result (self.new ≡ self.old) }
    {
        let account = self
            .files
            .get(&index.file)
            .copied()
            .unwrap_or(Account::EMPTY);
        let Some(ins) = account.ins.with(key_length, index.size) else {
            return Err(IndexErr::Overflow(index.file));
        };
        self.files.insert(index.file, Account { ins, ..account })?;
        Ok(())
    }

    /// The job wrote this reference again, under a key of so many bytes. Of a file that no in-flow named
    /// nothing is counted.
    ///
    /// With it no more came out of the file than went in, in count and in bytes; `flows_give_room` shows it
    /// of the flows. `OutOfMemory` where memory runs out; then the meter is as it was.
    pub fn out_flow(&mut self, key_length: u64, index: &BlobIndex) -> Result<(), IndexErr>
        requires { HasRoom self.old index.now.file (reference_bytes key_length index.now) }
        ensures ok { OnOk result ((flows : List Flow) → Meters flows self.old
            → Meters (flows ++ Out index.now.file (reference_bytes key_length index.now) ∷ []) self.new) }
        ensures only { IfErr result (λ e. e ≡ IndexErr.OutOfMemory) }
        ensures err { OnErr result (self.new ≡ self.old) }
    {
        let Some(account) = self.files.get(&index.file).copied() else {
            return Ok(());
        };
        let outs = Sum {
            count: account.outs.count + 1,
            bytes: account.outs.bytes + HEAD + key_length + index.size,
        };
        self.files.insert(index.file, Account { outs, ..account })?;
        Ok(())
    }

    /// How many references into the file went in and did not come out, and their bytes; (0, 0) for a
    /// file that no in-flow named.
    pub fn garbage(&self, file: u64) -> (u64, u64)
        ensures { (flows : List Flow) → Meters flows self.now → result ≡ garbage flows file }
    {
        match self.files.get(&file) {
            Some(account) => account.garbage(),
            None => (0, 0),
        }
    }
}

/// A reference has room to come out where, by the flows that the meter stands for, no more comes out
/// than went in.
pub fn flows_give_room()
    ensures { (flows : List Flow) (meter : Accounts) (file bytes : ℕ)
        → Meters flows meter → MayComeOut flows file bytes → HasRoom meter file bytes }
{}
