//! A manifest that is written.

ghost use Rattle.std.specs.Prelude.{◌≡◌, ◌⊎◌, ℕ, ◌+◌, ◌≤◌, [], ◌∷◌, ◌++◌, true, false, IsSome, IfOk, IfErr, OnOk, OnErr, IsErrOf};
ghost use Rattle.bl_site.specs.Disk.{Cut, MayLeave};
ghost use Rattle.bl_site.specs.Calls.{Appends, DoneOrNot, MayDuring, InDoubt, Elapses};
ghost use Rattle.bl_site.specs.Causes.{Rose};
ghost use Rattle.bl_site.specs.Quiet.{TellsNothing};
ghost use Rattle.bl_names.specs.Names.{IsNumber, manifest_name};
ghost use Rattle.bl_edit.specs.Bounds.{IsEdit};
ghost use Rattle.bl_records.specs.Causes.{IsCause, AsksUpTo, more, FailsOnceAsked};
ghost use Rattle.bl_manifest.specs.ManifestFile.{new_manifest, record_bytes, behind};
ghost use Rattle.bl_records.specs.Writing.{MakesSynced, MakesPartly, AppendsSynced, AppendsAndSyncs, Tears};
ghost use Rattle.bl_manifest.specs.Held.{Edits, AreReadBack, HoldsEdits, HoldsOneMore, ReadsEdits};

use crate::error::ManifestErr;
use crate::laws::synced_manifests_are_left;
use bl_edit::{Edit, encode_edit};
use bl_names::{FileName, print_name};
use bl_records::RecordWriter;
use bl_site::Site;
use std::alloc::Global;
use std::marker::Model;

/// A manifest that is written: its number, and where its next record stands. A contract sees also whether a call of it has failed.
#[derive(Drop)]
pub struct Manifest {
    number: u64,
    records: RecordWriter,
}

impl Model for Manifest {
    ghost use Rattle.std.specs.Prelude.{◌≡◌};
    ghost use Rattle.bl_names.specs.Names.{IsNumber, manifest_name};
    ghost use Rattle.bl_manifest.specs.ManifestFile.{ManifestFile};

    ghost Value = { ManifestFile };

    ghost view = { λ m. record { number = m.number; place = m.records.place; failed = m.records.failed } };

    ghost invariant = { λ m. IsNumber m.number × (m.records.name ≡ manifest_name m.number) };
}

impl Manifest {
    /// Makes the manifest of this number, from 1 to 10^15 - 1, with one edit, which is in the bounds of the format, and syncs it.
    ///
    /// Errors: `Disk` and `OutOfMemory`. After both the folder is as it was, or the file is new and reads as any bytes, at most as
    /// many as the edit's record has. After `OutOfMemory` before the folder was asked nothing has changed.
    pub fn create<S: Site>(
        alloc: Global,
        site: &mut S,
        number: u64,
        first: &Edit,
    ) -> Result<Manifest, ManifestErr>
        requires number { IsNumber number }
        requires bounds { IsEdit first.now }
        ensures made { IfOk result (λ manifest. manifest ≡ behind (new_manifest number) (record_bytes 0 first.now)) }
        ensures created { S.shows → OnOk result (MakesSynced (manifest_name number) (record_bytes 0 first.now) (S.disk site.old) (S.disk site.new)) }
        ensures left { S.shows → OnErr result (DoneOrNot (MakesPartly (manifest_name number) (record_bytes 0 first.now)) (S.disk site.old) (S.disk site.new)) }
        ensures certain { S.shows → OnOk result (S.certain site.new) }

        // It holds this edit, which is synced.
        ensures holds { S.shows → OnOk result (HoldsEdits (S.disk site.new) (behind (new_manifest number) (record_bytes 0 first.now)) (first.now ∷ []) 1) }

        // What a cut during it, or after it, may leave.
        ensures doubt { S.shows → InDoubt (MakesPartly (manifest_name number) (record_bytes 0 first.now)) (S.may_be site.old) (S.may_be site.new) }
        ensures time { S.shows → Elapses (S.clock site.old) (S.clock site.new) (S.left_since site.old) (S.left_since site.new)
            (MayLeave (MayDuring (MakesPartly (manifest_name number) (record_bytes 0 first.now)) (S.may_be site.old)) (S.told site.old)) }

        ensures tells_nothing { TellsNothing S.Site site.old site.new }
        ensures errors { IfErr result (IsCause ManifestErr.Disk ManifestErr.OutOfMemory) }
        ensures disk { IsErrOf result ManifestErr.Disk → Rose (S.disk_faults site.old) (S.disk_faults site.new) }
        ensures changes { OnOk result (S.changes site.new ≡ more 3 (S.changes site.old)) }
        ensures asked { IsErrOf result ManifestErr.Disk → AsksUpTo 3 (S.changes site.old) (S.changes site.new) }
        ensures memory { IsErrOf result ManifestErr.OutOfMemory → (site.new ≡ site.old) ⊎ AsksUpTo 3 (S.changes site.old) (S.changes site.new) }
    {
        let name = print_name(alloc, &FileName::Manifest(number))?;
        let payload = encode_edit(alloc, first)?;
        let mut records = RecordWriter::create(alloc, site, name)?;
        records.append_synced(site, payload.as_slice())?;
        Ok(Manifest { number, records })
    }

    /// Appends an edit, which is in the bounds of the format, as one record, and then syncs the file: at Ok, where no name call is in
    /// doubt, every cut reads the edit. The manifest is in the folder, and no call of it has failed.
    ///
    /// Errors: `Disk`, after which the edit may be there or not, and what reads behind the synced bytes are any bytes, at most as
    /// many as were handed over; `OutOfMemory`, after which the edit was appended or not. After `OutOfMemory` before the folder was
    /// asked nothing has changed, and after every other failure the manifest has failed.
    pub fn append<S: Site>(
        &mut self,
        alloc: Global,
        site: &mut S,
        edit: &Edit,
    ) -> Result<(), ManifestErr>
        requires usable { self.old.failed ≡ false }
        requires bounds { IsEdit edit.now }
        requires there { S.shows → IsSome (S.disk site.old (manifest_name self.old.number)) }
        ensures appended { S.shows → OnOk result (AppendsSynced (manifest_name self.old.number) (record_bytes self.old.place edit.now) (S.disk site.old) (S.disk site.new)) }
        ensures moved { OnOk result (self.new ≡ behind self.old (record_bytes self.old.place edit.now)) }
        ensures torn { S.shows → IsErrOf result ManifestErr.Disk → Tears (manifest_name self.old.number) (record_bytes self.old.place edit.now) (S.disk site.old) (S.disk site.new) }
        ensures memory { S.shows → IsErrOf result ManifestErr.OutOfMemory
            → DoneOrNot (Appends (manifest_name self.old.number) (record_bytes self.old.place edit.now) (record_bytes self.old.place edit.now)) (S.disk site.old) (S.disk site.new) }

        // It holds one edit more, also where the folder failed: then some of its bytes may be lost.
        ensures holds { S.shows → (edits : Edits) (synced : ℕ) → HoldsEdits (S.disk site.old) self.old edits synced
            → HoldsOneMore result (S.disk site.new) self.new edits edit.now synced }

        // The record is read as this edit.
        ensures reads { OnOk result (AreReadBack (edit.now ∷ [])) }
        ensures reads_asked { self.new.failed ≡ true → AreReadBack (edit.now ∷ []) }

        // At Ok every cut reads the edit, where no name call is in doubt.
        ensures durable { S.shows → S.certain site.old → OnOk result ((edits : Edits) (synced : ℕ) → HoldsEdits (S.disk site.old) self.old edits synced
            → (c : Cut) → MayLeave (S.may_be site.new) (S.told site.new) c → ReadsEdits c.folder self.old.number (edits ++ edit.now ∷ [])) }

        // It has failed exactly after `Disk`, and after `OutOfMemory` once the folder was asked; else nothing has changed.
        ensures fails { FailsOnceAsked S.Site 2 ManifestErr.Disk result self.new.failed self.old self.new site.old site.new }
        ensures number { self.new.number ≡ self.old.number }

        // What a cut during it, or after it, may leave: where no name call is in doubt, and in every case.
        ensures touches { AppendsAndSyncs S.Site (manifest_name self.old.number) (record_bytes self.old.place edit.now) site.old site.new }
        ensures tells_nothing { TellsNothing S.Site site.old site.new }
        ensures errors { IfErr result (IsCause ManifestErr.Disk ManifestErr.OutOfMemory) }
        ensures disk { IsErrOf result ManifestErr.Disk → Rose (S.disk_faults site.old) (S.disk_faults site.new) }
    {
        synced_manifests_are_left();
        let payload = encode_edit(alloc, edit)?;
        self.records.append_synced(site, payload.as_slice())?;
        Ok(())
    }

    /// The file's number.
    pub fn number(&self) -> u64
        ensures { result ≡ self.now.number }
    {
        self.number
    }

    /// Whether a call of it has failed: it answered `Disk`, or `OutOfMemory` once the folder was asked. No other call may follow
    /// but `number`.
    pub fn failed(&self) -> bool
        ensures { result ≡ self.now.failed }
    {
        self.records.failed()
    }
}
