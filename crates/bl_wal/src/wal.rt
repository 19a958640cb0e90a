//! A log that is written.

ghost use Rattle.std.specs.Prelude.{◌≡◌, ℕ, ◌+◌, ◌≤◌, ◌^◌, ◌↔◌, [], true, false, length, IsTrue, IsSome, IfOk, IfErr, OnOk, OnErr, IsErrOf};
ghost use Rattle.bl_site.specs.Disk.{Disk, MayLeave};
ghost use Rattle.bl_site.specs.Calls.{Creates, Appends, AppendsAny, Syncs, Frays, DoneOrNot, MayDuring, InDoubt, KeepsDisk, StandsStill, Elapses};
ghost use Rattle.bl_site.specs.Causes.{one_more};
ghost use Rattle.bl_site.specs.Quiet.{TellsNothing, HasCauses, TouchesFile};
ghost use Rattle.bl_names.specs.Names.{IsNumber};
ghost use Rattle.bl_records.specs.Causes.{IsCause};
ghost use Rattle.bl_wal.specs.Causes.{ChangesOnce};
ghost use Rattle.bl_wal.specs.LogFile.{log_name, new_log, record_bytes, behind};
ghost use Rattle.bl_wal.specs.Held.{Batches, IsReadBack, HoldsBatches, HoldsOneMore, HoldsAllSynced};

use crate::error::WalErr;
use bl_entry::{Batch, encode_batch};
use bl_names::{FileName, print_name};
use bl_records::RecordWriter;
use bl_site::Site;
use std::alloc::Global;
use std::marker::Model;

/// A log that is written: its number, and where its next record stands. A contract sees also whether a call of it has failed.
#[derive(Drop)]
pub struct Wal {
    number: u64,
    records: RecordWriter,
}

impl Model for Wal {
    ghost use Rattle.std.specs.Prelude.{◌≡◌};
    ghost use Rattle.bl_names.specs.Names.{IsNumber};
    ghost use Rattle.bl_wal.specs.LogFile.{LogFile, log_name};

    ghost Value = { LogFile };

    ghost view = { λ w. record { number = w.number; place = w.records.place; failed = w.records.failed } };

    ghost invariant = { λ w. IsNumber w.number × (w.records.name ≡ log_name w.number) };
}

impl Wal {
    /// Makes the log of this number, from 1 to 10^15 - 1. It is empty.
    ///
    /// Errors: `Disk` and `OutOfMemory`. After `Disk` the log may be there or not.
    pub fn create<S: Site>(alloc: Global, site: &mut S, number: u64) -> Result<Wal, WalErr>
        requires { IsNumber number }
        ensures made { IfOk result (λ wal. wal ≡ new_log number) }
        ensures created { S.shows → OnOk result (Creates (log_name number) (S.disk site.old) (S.disk site.new)) }
        ensures certain { S.shows → OnOk result (S.certain site.new) }
        ensures failed { S.shows → IsErrOf result WalErr.Disk → DoneOrNot (Creates (log_name number)) (S.disk site.old) (S.disk site.new) }
        ensures keeps { S.shows → IsErrOf result WalErr.OutOfMemory → KeepsDisk S.disk S.may_be S.certain site.old site.new }

        // It holds no batch.
        ensures holds { S.shows → OnOk result (HoldsBatches (S.disk site.new) (new_log number) [] 0) }

        // What a cut during it, or after it, may leave.
        ensures doubt { S.shows → InDoubt (Creates (log_name number)) (S.may_be site.old) (S.may_be site.new) }
        ensures time { S.shows → Elapses (S.clock site.old) (S.clock site.new) (S.left_since site.old) (S.left_since site.new)
            (MayLeave (MayDuring (Creates (log_name number)) (S.may_be site.old)) (S.told site.old)) }
        ensures still { S.shows → IsErrOf result WalErr.OutOfMemory → StandsStill S.clock S.left_since site.old site.new }

        ensures tells_nothing { TellsNothing S.Site site.old site.new }
        ensures errors { IfErr result (IsCause WalErr.Disk WalErr.OutOfMemory) }
        ensures causes { HasCauses S.Site WalErr.Disk WalErr.OutOfMemory result site.old site.new }
        ensures changes { ChangesOnce result (S.changes site.old) (S.changes site.new) }
    {
        let name = print_name(alloc, &FileName::Log(number))?;
        let records = RecordWriter::create(alloc, site, name)?;
        Ok(Wal { number, records })
    }

    /// Appends a batch as one record. Its operations have the sequences from `first` on, all below 2^56. The log is in the folder,
    /// and no call of it has failed.
    ///
    /// Errors: `Disk`, after which some bytes may follow in the file, at most as many as the record has; `OutOfMemory`, after
    /// which none do. After `OutOfMemory` before the folder was asked nothing has changed.
    pub fn append<S: Site>(
        &mut self,
        alloc: Global,
        site: &mut S,
        first: u64,
        batch: &Batch,
    ) -> Result<(), WalErr>
        requires usable { self.old.failed ≡ false }
        requires room { first + length batch.now ≤ 2 ^ 56 }
        requires there { S.shows → IsSome (S.disk site.old (log_name self.old.number)) }
        ensures appended { S.shows → OnOk result (Appends (log_name self.old.number) (record_bytes self.old.place first batch.now) (record_bytes self.old.place first batch.now) (S.disk site.old) (S.disk site.new)) }
        ensures moved { OnOk result (self.new ≡ behind self.old (record_bytes self.old.place first batch.now)) }
        ensures torn { S.shows → IsErrOf result WalErr.Disk → AppendsAny (log_name self.old.number) (record_bytes self.old.place first batch.now) (S.disk site.old) (S.disk site.new) }

        // It holds one batch more, also where the folder failed: then any bytes may read in its place, at most as many.
        ensures holds { S.shows → (batches : Batches) (synced : ℕ) → HoldsBatches (S.disk site.old) self.old batches synced
            → HoldsOneMore result (S.disk site.new) self.new batches (record { first = first; operations = batch.now }) synced }

        // The record is read as this batch.
        ensures reads { OnOk result (IsReadBack (record { first = first; operations = batch.now })) }
        ensures reads_torn { IsErrOf result WalErr.Disk → IsReadBack (record { first = first; operations = batch.now }) }

        // It has failed exactly after `Disk`, and after `OutOfMemory` once the folder was asked; else nothing has changed.
        ensures disk_fails { IsErrOf result WalErr.Disk → self.new.failed ≡ true }
        ensures asked_fails { self.new.failed ≡ true → S.changes site.new ≡ one_more (S.changes site.old) }
        ensures stays { OnErr result (self.new.failed ≡ false → (self.new ≡ self.old) × (site.new ≡ site.old)) }
        ensures asked { OnOk result (S.changes site.new ≡ one_more (S.changes site.old)) }
        ensures number { self.new.number ≡ self.old.number }

        // What a cut during it, or after it, may leave.
        ensures touches { TouchesFile S.Site (log_name self.old.number) WalErr.OutOfMemory result site.old site.new }
        ensures tells_nothing { TellsNothing S.Site site.old site.new }
        ensures errors { IfErr result (IsCause WalErr.Disk WalErr.OutOfMemory) }
        ensures causes { HasCauses S.Site WalErr.Disk WalErr.OutOfMemory result site.old site.new }
    {
        let payload = encode_batch(alloc, first, batch)?;
        self.records.append(site, payload.as_slice())?;
        Ok(())
    }

    /// Syncs the log: where no name call is in doubt, every cut from now on keeps all that was appended. The log is in the folder, and no
    /// call of it has failed. It takes no memory of its own.
    ///
    /// Errors: `Disk`, after which the bytes since the last sync may read as any others, at most as many, and a cut may leave what
    /// it might have left before; `OutOfMemory`, after which the folder is as it was. After both the log has failed.
    pub fn sync<S: Site>(&mut self, site: &mut S) -> Result<(), WalErr>
        requires usable { self.old.failed ≡ false }
        requires there { S.shows → IsSome (S.disk site.old (log_name self.old.number)) }
        ensures synced { S.shows → OnOk result (Syncs (log_name self.old.number) (S.disk site.old) (S.disk site.new)) }
        ensures frayed { S.shows → IsErrOf result WalErr.Disk → Frays (log_name self.old.number) (S.disk site.old) (S.disk site.new) }
        ensures stays { OnOk result (self.new ≡ self.old) }
        ensures fails { OnErr result (self.new ≡ record self.old { failed = true }) }

        // All its batches are on the disk.
        ensures holds { S.shows → (batches : Batches) (synced : ℕ) → HoldsBatches (S.disk site.old) self.old batches synced
            → HoldsAllSynced result (S.disk site.new) self.new batches synced }

        // What a cut during it, or after it, may leave.
        ensures touches { TouchesFile S.Site (log_name self.old.number) WalErr.OutOfMemory result site.old site.new }
        ensures tells_nothing { TellsNothing S.Site site.old site.new }
        ensures errors { IfErr result (IsCause WalErr.Disk WalErr.OutOfMemory) }
        ensures causes { HasCauses S.Site WalErr.Disk WalErr.OutOfMemory result site.old site.new }
        ensures changes { S.changes site.new ≡ one_more (S.changes site.old) }
    {
        self.records.sync(site)?;
        Ok(())
    }

    /// Whether a call of it has failed: it answered `Disk`, or `OutOfMemory` once the folder was asked. No other call may follow.
    pub fn failed(&self) -> bool
        ensures { result ≡ self.now.failed }
    {
        self.records.failed()
    }
}
