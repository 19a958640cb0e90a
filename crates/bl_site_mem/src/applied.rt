// What a call does to files in memory.
ghost use Rattle.std.specs.Prelude.{◌≡◌, ◌/◌, ℕ, List, length, take, OnOk, OnErr, if◌then◌else◌};
ghost use Rattle.bl_site.specs.Disk.{Name, Disk};
ghost use Rattle.bl_site_mem.specs.Files.{contents};
ghost use Rattle.bl_site_mem.specs.Record.{disk_after, disk_failed, told_after, told_failed, first_half};
ghost use Rattle.bl_site_mem.specs.Kept.{IsKept};
ghost use Rattle.bl_site_mem.specs.Bytes.{call_of};

use crate::files::{Files, append_in, put_in, remove_from, rename_in, sync_in};
use crate::record::{KeptCall, KeptEntry};
use std::alloc::{AllocError, Global};

fn half_of(bytes: &[u8]) -> &[u8]
    ensures { result.now ≡ first_half bytes.now }
{
    &bytes[..bytes.len() / 2]
}

fn apply_done(
    alloc: Global,
    files: &mut Files,
    told: &mut Vec<u8>,
    call: &KeptCall,
) -> Result<(), AllocError>
    ensures files { (disk : Disk) → IsKept files.old disk → OnOk result (IsKept files.new (disk_after (call_of call.now) disk)) }
    ensures told { OnOk result (told.new.items ≡ told_after (call_of call.now) told.old.items) }
    ensures files_err { OnErr result ((q : Name) → contents files.new q ≡ contents files.old q) }
    ensures told_err { OnErr result (told.new.items ≡ told.old.items) }
{
    match call {
        KeptCall::Look => Ok(()),
        KeptCall::Create(name) => put_in(alloc, files, name.as_str(), &[], 0),
        KeptCall::Append(name, bytes) => append_in(files, name.as_str(), bytes.as_slice()),
        KeptCall::Sync(name) => {
            sync_in(files, name.as_str());
            Ok(())
        }
        KeptCall::Rename(from, to) => rename_in(alloc, files, from.as_str(), to.as_str()),
        KeptCall::Remove(name) => {
            remove_from(files, name.as_str());
            Ok(())
        }
        KeptCall::Tell(bytes) => told.extend_from_slice(bytes.as_slice()),
        KeptCall::PutFile(name, bytes) => put_in(
            alloc,
            files,
            name.as_str(),
            bytes.as_slice(),
            bytes.len(),
        ),
    }
}

fn apply_failed(files: &mut Files, told: &mut Vec<u8>, call: &KeptCall) -> Result<(), AllocError>
    ensures files { (disk : Disk) → IsKept files.old disk → OnOk result (IsKept files.new (disk_failed (call_of call.now) disk)) }
    ensures told { OnOk result (told.new.items ≡ told_failed (call_of call.now) told.old.items) }
    ensures files_err { OnErr result ((q : Name) → contents files.new q ≡ contents files.old q) }
    ensures told_err { OnErr result (told.new.items ≡ told.old.items) }
{
    match call {
        KeptCall::Append(name, bytes) => append_in(files, name.as_str(), half_of(bytes.as_slice())),
        KeptCall::Tell(bytes) => told.extend_from_slice(half_of(bytes.as_slice())),
        KeptCall::Look => Ok(()),
        KeptCall::Create(_) => Ok(()),
        KeptCall::Sync(_) => Ok(()),
        KeptCall::Rename(_, _) => Ok(()),
        KeptCall::Remove(_) => Ok(()),
        KeptCall::PutFile(_, _) => Ok(()),
    }
}

// Does a call to the files and the output, as far as its entry says it is done. After an error they are as before.
pub(crate) fn apply(
    alloc: Global,
    files: &mut Files,
    told: &mut Vec<u8>,
    entry: &KeptEntry,
) -> Result<(), AllocError>
    ensures files { (disk : Disk) → IsKept files.old disk → OnOk result (IsKept files.new (if entry.now.failed then disk_failed (call_of entry.now.call) disk else disk_after (call_of entry.now.call) disk)) }
    ensures told { OnOk result (told.new.items ≡ (if entry.now.failed then told_failed (call_of entry.now.call) told.old.items else told_after (call_of entry.now.call) told.old.items)) }
    ensures files_err { OnErr result ((q : Name) → contents files.new q ≡ contents files.old q) }
    ensures told_err { OnErr result (told.new.items ≡ told.old.items) }
{
    if entry.failed {
        apply_failed(files, told, &entry.call)
    } else {
        apply_done(alloc, files, told, &entry.call)
    }
}
