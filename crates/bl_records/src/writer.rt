//! Writing a file record by record.

ghost use Rattle.std.specs.Prelude.{◌≡◌, ◌≤◌, ℕ, List, [], true, false, IsSome, IfOk, OnOk, OnErr, IsErrOf, string_bytes, vec_capacity};
ghost use Rattle.bl_site.specs.Disk.{MayLeave};
ghost use Rattle.bl_site.specs.Calls.{Creates, Appends, AppendsAny, Syncs, Frays, DoneOrNot, MayDuring, InDoubt, KeepsDisk, StandsStill, Elapses};
ghost use Rattle.bl_site.specs.Causes.{Rose, one_more};
ghost use Rattle.bl_site.specs.Quiet.{TellsNothing, HasCauses, TouchesFile};
ghost use Rattle.bl_log.specs.Layout.{layout};
ghost use Rattle.bl_records.specs.WrittenFile.{new_file, behind};
ghost use Rattle.bl_records.specs.Causes.{FailsOnceAsked};
ghost use Rattle.bl_records.specs.Held.{HoldsRecords, HoldsOneMore, HoldsOneMoreSynced, HoldsAllSynced};
ghost use Rattle.bl_records.specs.Writing.{AppendsSynced, AppendsAndSyncs, Tears};

use crate::error::RecordErr;
use bl_log::LogWriter;
use bl_site::Site;
use std::alloc::Global;
use std::marker::Model;

// A buffer of more bytes is given back once its record is written.
const KEPT: usize = 1_048_576;

/// Writes the records of one file of a folder, one after another. It holds the file's name, and between two calls a buffer of at most
/// 1 MiB. A contract sees the name, the place in its block at which the next record stands, and whether a call of it has failed.
#[derive(Drop)]
pub struct RecordWriter {
    name: String,
    writer: LogWriter,
    buffer: Vec<u8>,
    failed: bool,
}

impl Model for RecordWriter {
    ghost use Rattle.std.specs.Prelude.{◌≤◌, string_bytes, vec_capacity};
    ghost use Rattle.bl_records.specs.WrittenFile.{WrittenFile};

    ghost Value = { WrittenFile };

    ghost view = { λ w. record { name = string_bytes w.name; place = w.writer; failed = w.failed } };

    ghost invariant = { λ w. vec_capacity w.buffer ≤ 1048576 };
}

// The memory of a large record is given back.
fn release(buffer: &mut Vec<u8>)
    ensures { vec_capacity buffer.new ≤ 1048576 }
{
    if buffer.capacity() > KEPT {
        buffer.clear();
        buffer.shrink_to(0);
    }
}

impl RecordWriter {
    /// Makes the file of this name. It is empty.
    ///
    /// Errors: `Disk`, after which the file may be there or not; `OutOfMemory`, after which the folder is as it was.
    pub fn create<S: Site>(
        alloc: Global,
        site: &mut S,
        name: String,
    ) -> Result<RecordWriter, RecordErr>
        ensures made { IfOk result (λ writer. writer ≡ new_file (string_bytes name)) }
        ensures created { S.shows → OnOk result (Creates (string_bytes name) (S.disk site.old) (S.disk site.new)) }
        ensures certain { S.shows → OnOk result (S.certain site.new) }
        ensures failed { S.shows → IsErrOf result RecordErr.Disk → DoneOrNot (Creates (string_bytes name)) (S.disk site.old) (S.disk site.new) }
        ensures keeps { S.shows → IsErrOf result RecordErr.OutOfMemory → KeepsDisk S.disk S.may_be S.certain site.old site.new }

        // It holds no record.
        ensures holds { S.shows → OnOk result (HoldsRecords (S.disk site.new) (new_file (string_bytes name)) [] 0) }

        // What a cut during it, or after it, may leave.
        ensures doubt { S.shows → InDoubt (Creates (string_bytes name)) (S.may_be site.old) (S.may_be site.new) }
        ensures time { S.shows → Elapses (S.clock site.old) (S.clock site.new) (S.left_since site.old) (S.left_since site.new)
            (MayLeave (MayDuring (Creates (string_bytes name)) (S.may_be site.old)) (S.told site.old)) }
        ensures still { S.shows → IsErrOf result RecordErr.OutOfMemory → StandsStill S.clock S.left_since site.old site.new }

        ensures tells_nothing { TellsNothing S.Site site.old site.new }
        ensures causes { HasCauses S.Site RecordErr.Disk RecordErr.OutOfMemory result site.old site.new }
        ensures changes { S.changes site.new ≡ one_more (S.changes site.old) }
    {
        site.create(name.as_str())?;
        Ok(RecordWriter {
            name,
            writer: LogWriter::start(),
            buffer: Vec::new(alloc),
            failed: false,
        })
    }

    /// Appends a record. The file is in the folder, and no call of it has failed.
    ///
    /// Errors: `Disk`, after which some bytes may follow in the file, at most as many as the record has; `OutOfMemory`, after which
    /// none do. After `OutOfMemory` before the folder was asked nothing has changed.
    pub fn append<S: Site>(&mut self, site: &mut S, payload: &[u8]) -> Result<(), RecordErr>
        requires usable { self.old.failed ≡ false }
        requires there { S.shows → IsSome (S.disk site.old self.old.name) }
        ensures appended { S.shows → OnOk result (Appends self.old.name (layout self.old.place payload.now) (layout self.old.place payload.now) (S.disk site.old) (S.disk site.new)) }
        ensures moved { OnOk result (self.new ≡ behind self.old (layout self.old.place payload.now)) }
        ensures torn { S.shows → IsErrOf result RecordErr.Disk → AppendsAny self.old.name (layout self.old.place payload.now) (S.disk site.old) (S.disk site.new) }

        // It holds one record more, also where the folder failed: then any bytes may read in its place, at most as many.
        ensures holds { S.shows → (payloads : List (List ℕ)) (synced : ℕ) → HoldsRecords (S.disk site.old) self.old payloads synced
            → HoldsOneMore result (S.disk site.new) self.new payloads payload.now synced }

        // It has failed exactly after `Disk`, and after `OutOfMemory` once the folder was asked; else nothing has changed.
        ensures disk_fails { IsErrOf result RecordErr.Disk → self.new.failed ≡ true }
        ensures asked_fails { self.new.failed ≡ true → S.changes site.new ≡ one_more (S.changes site.old) }
        ensures stays { OnErr result (self.new.failed ≡ false → (self.new ≡ self.old) × (site.new ≡ site.old)) }
        ensures asked { OnOk result (S.changes site.new ≡ one_more (S.changes site.old)) }
        ensures name { self.new.name ≡ self.old.name }

        // What a cut during it, or after it, may leave.
        ensures touches { TouchesFile S.Site self.old.name RecordErr.OutOfMemory result site.old site.new }
        ensures tells_nothing { TellsNothing S.Site site.old site.new }
        ensures causes { HasCauses S.Site RecordErr.Disk RecordErr.OutOfMemory result site.old site.new }
    {
        let framed = self.writer.frame_into(&mut self.buffer, payload);
        if framed.is_err() {
            release(&mut self.buffer);
            return Err(RecordErr::OutOfMemory);
        }
        let appended = site.append(self.name.as_str(), self.buffer.as_slice());
        release(&mut self.buffer);
        self.failed = appended.is_err();
        appended?;
        Ok(())
    }

    /// Syncs the file: where no name call is in doubt, every cut from now on keeps all that was appended. The file is in the folder, and
    /// no call of it has failed. It takes no memory of its own.
    ///
    /// Errors: `Disk`, after which the bytes since the last sync may read as any others, at most as many, and a cut may leave what
    /// it might have left before; `OutOfMemory`, after which the folder is as it was. After both the writer has failed.
    pub fn sync<S: Site>(&mut self, site: &mut S) -> Result<(), RecordErr>
        requires usable { self.old.failed ≡ false }
        requires there { S.shows → IsSome (S.disk site.old self.old.name) }
        ensures synced { S.shows → OnOk result (Syncs self.old.name (S.disk site.old) (S.disk site.new)) }
        ensures frayed { S.shows → IsErrOf result RecordErr.Disk → Frays self.old.name (S.disk site.old) (S.disk site.new) }
        ensures stays { OnOk result (self.new ≡ self.old) }
        ensures fails { OnErr result (self.new ≡ record self.old { failed = true }) }

        // All its records are on the disk.
        ensures holds { S.shows → (payloads : List (List ℕ)) (synced : ℕ) → HoldsRecords (S.disk site.old) self.old payloads synced
            → HoldsAllSynced result (S.disk site.new) self.new payloads synced }

        // What a cut during it, or after it, may leave.
        ensures touches { TouchesFile S.Site self.old.name RecordErr.OutOfMemory result site.old site.new }
        ensures tells_nothing { TellsNothing S.Site site.old site.new }
        ensures causes { HasCauses S.Site RecordErr.Disk RecordErr.OutOfMemory result site.old site.new }
        ensures changes { S.changes site.new ≡ one_more (S.changes site.old) }
    {
        let synced = site.sync(self.name.as_str());
        self.failed = synced.is_err();
        synced?;
        Ok(())
    }

    /// Appends a record and then syncs the file: at Ok, where no name call is in doubt, every cut from now on keeps the record. The file
    /// is in the folder, and no call of it has failed.
    ///
    /// Errors: `Disk`, after which the record may be there or not, and what reads behind the synced bytes are any bytes, at most as
    /// many as were handed over; `OutOfMemory`, after which the record was appended or not. After `OutOfMemory` before the folder was
    /// asked nothing has changed, and after every other failure the writer has failed.
    pub fn append_synced<S: Site>(&mut self, site: &mut S, payload: &[u8]) -> Result<(), RecordErr>
        requires usable { self.old.failed ≡ false }
        requires there { S.shows → IsSome (S.disk site.old self.old.name) }
        ensures appended { S.shows → OnOk result (AppendsSynced self.old.name (layout self.old.place payload.now) (S.disk site.old) (S.disk site.new)) }
        ensures moved { OnOk result (self.new ≡ behind self.old (layout self.old.place payload.now)) }
        ensures torn { S.shows → IsErrOf result RecordErr.Disk → Tears self.old.name (layout self.old.place payload.now) (S.disk site.old) (S.disk site.new) }
        ensures memory { S.shows → IsErrOf result RecordErr.OutOfMemory
            → DoneOrNot (Appends self.old.name (layout self.old.place payload.now) (layout self.old.place payload.now)) (S.disk site.old) (S.disk site.new) }

        // It holds one record more, also where the folder failed: then some of its bytes may be lost.
        ensures holds { S.shows → (payloads : List (List ℕ)) (synced : ℕ) → HoldsRecords (S.disk site.old) self.old payloads synced
            → HoldsOneMoreSynced result (S.disk site.new) self.new payloads payload.now synced }

        // It has failed exactly after `Disk`, and after `OutOfMemory` once the folder was asked; else nothing has changed.
        ensures fails { FailsOnceAsked S.Site 2 RecordErr.Disk result self.new.failed self.old self.new site.old site.new }
        ensures name { self.new.name ≡ self.old.name }

        // What a cut during it, or after it, may leave: where no name call is in doubt, and in every case.
        ensures touches { AppendsAndSyncs S.Site self.old.name (layout self.old.place payload.now) site.old site.new }
        ensures tells_nothing { TellsNothing S.Site site.old site.new }
        ensures disk { IsErrOf result RecordErr.Disk → Rose (S.disk_faults site.old) (S.disk_faults site.new) }
    {
        self.append(site, payload)?;
        self.sync(site)
    }

    /// Whether a call of it has failed: it answered `Disk`, or `OutOfMemory` once the folder was asked. No other call may follow.
    pub fn failed(&self) -> bool
        ensures { result ≡ self.now.failed }
    {
        self.failed
    }
}
