//! Reading a folder of logs.

ghost use Rattle.std.specs.Prelude.{◌≡◌, ℕ, ◌+◌, ◌-◌, ◌<◌, ◌≤◌, ◌^◌, ◌⊎◌, List, length, max, IfOk, IfErr, OnOk, IsErrOf, IsSome, Err, All};
ghost use Rattle.bl_site.specs.Disk.{Name, MayLeave, folder_of};
ghost use Rattle.bl_site.specs.Calls.{LeavesOnly, Syncs};
ghost use Rattle.bl_site.specs.Causes.{Rose};
ghost use Rattle.bl_site.specs.Quiet.{OnlyReads, TellsNothing};
ghost use Rattle.bl_names.specs.Names.{IsNumber};
ghost use Rattle.bl_wal.specs.LogFile.{log_name};
ghost use Rattle.bl_logstore.specs.Folders.{HasOnlyLogs, IsFirstOther};
ghost use Rattle.bl_logstore.specs.Damage.{BreaksAt, IsDamaged};
ghost use Rattle.bl_logstore.specs.Listing.{AreLogsAbove};
ghost use Rattle.bl_logstore.specs.Replaying.{HasReplayed, HasAll, WasRead};
ghost use Rattle.bl_logstore.specs.Stored.{map_in, IsSynced, KeepsOthers, MakesNoFile};
ghost use Rattle.bl_logstore.specs.Cuts.{LeavesFound, AreReadAsWritten, FindsNoNewFile};
ghost use Rattle.bl_logstore.specs.Causes.{IsReading, IsUntouched, IsSyncing};

use crate::error::StoreErr;
use crate::memory::put_entries;
use crate::names::log_numbers;
use bl_code::Octets;
use bl_entry::batches_join;
use bl_names::{FILE_LIMIT, FileName, print_name};
use bl_site::Site;
use bl_wal::replay;
use std::alloc::Global;
use std::collections::BTreeMap;

/// What the logs of a folder hold.
#[derive(Drop)]
pub(crate) struct Memory {
    pub(crate) map: BTreeMap<Octets, Octets>,
    /// The last sequence.
    pub(crate) last: u64,
    /// The greatest number of a log, or 0.
    pub(crate) greatest: u64,
}

// The numbers of the folder's logs, ascending, where it holds no other file of a store.
fn list_logs<S: Site>(alloc: Global, site: &mut S) -> Result<Vec<u64>, StoreErr>
    ensures numbers { IfOk result (λ v. All IsNumber v.items) }
    ensures logs { S.shows → IfOk result (λ v. AreLogsAbove 0 v.items (folder_of (S.disk site.old))) }
    ensures only { S.shows → OnOk result (HasOnlyLogs (folder_of (S.disk site.old))) }
    ensures corrupt { S.shows → (name : Name) (place : ℕ) → result ≡ Err (StoreErr.Corrupt name place) → IsFirstOther name (folder_of (S.disk site.old)) × (place ≡ 0) }
    ensures quiet { OnlyReads S.Site site.old site.new }
    ensures causes { IfErr result IsReading }
    ensures disk { IsErrOf result StoreErr.Disk → Rose (S.disk_faults site.old) (S.disk_faults site.new) }
{
    let names = site.list(alloc)?;
    log_numbers(alloc, names.as_slice())
}

// The log of this number is synced.
fn sync_log<S: Site>(alloc: Global, site: &mut S, number: u64) -> Result<(), StoreErr>
    requires number { IsNumber number }
    requires there { S.shows → IsSome (S.disk site.old (log_name number)) }
    ensures done { S.shows → OnOk result (Syncs (log_name number) (S.disk site.old) (S.disk site.new)) }
    ensures others { S.shows → KeepsOthers (S.disk site.old) (S.disk site.new) }
    ensures no_file { S.shows → MakesNoFile (S.disk site.old) (S.disk site.new) }
    ensures no_new { S.shows → S.certain site.old → LeavesOnly S.clock S.left_since site.old site.new (FindsNoNewFile (S.disk site.old)) }
    ensures certain { S.shows → S.certain site.old → S.certain site.new }
    ensures before { S.shows → LeavesOnly S.clock S.left_since site.old site.new (LeavesFound (S.may_be site.old) (S.told site.old)) }
    ensures cuts { S.shows → AreReadAsWritten (S.disk site.old) → LeavesOnly S.clock S.left_since site.old site.new (MayLeave (S.may_be site.old) (S.told site.old)) }
    ensures tells_nothing { TellsNothing S.Site site.old site.new }
    ensures causes { IfErr result IsSyncing }
    ensures disk { IsErrOf result StoreErr.Disk → Rose (S.disk_faults site.old) (S.disk_faults site.new) }
{
    let name = print_name(alloc, &FileName::Log(number))?;
    site.sync(name.as_str())?;
    Ok(())
}

// The logs of these numbers are synced, in order of number. Where the logs read as they were written, a cut meanwhile leaves what one before
// might have left, also in what was written of them.
fn sync_logs<S: Site>(alloc: Global, site: &mut S, numbers: &[u64]) -> Result<(), StoreErr>
    requires numbers { All IsNumber numbers.now }
    requires logs { S.shows → AreLogsAbove 0 numbers.now (folder_of (S.disk site.old)) }
    ensures same { S.shows → OnOk result (folder_of (S.disk site.new) ≡ folder_of (S.disk site.old)) }
    ensures synced { S.shows → OnOk result ((number : ℕ) → IsNumber number → IsSynced (S.disk site.new (log_name number))) }
    ensures others { S.shows → KeepsOthers (S.disk site.old) (S.disk site.new) }
    ensures no_file { S.shows → MakesNoFile (S.disk site.old) (S.disk site.new) }
    ensures no_new { S.shows → S.certain site.old → LeavesOnly S.clock S.left_since site.old site.new (FindsNoNewFile (S.disk site.old)) }
    ensures certain { S.shows → S.certain site.old → S.certain site.new }
    ensures before { S.shows → LeavesOnly S.clock S.left_since site.old site.new (LeavesFound (S.may_be site.old) (S.told site.old)) }
    ensures cuts { S.shows → AreReadAsWritten (S.disk site.old) → LeavesOnly S.clock S.left_since site.old site.new (MayLeave (S.may_be site.old) (S.told site.old)) }
    ensures tells_nothing { TellsNothing S.Site site.old site.new }
    ensures causes { IfErr result IsSyncing }
    ensures disk { IsErrOf result StoreErr.Disk → Rose (S.disk_faults site.old) (S.disk_faults site.new) }
{
    for number in numbers {
        sync_log(alloc, site, *number)?;
    }
    Ok(())
}

// The log of this number is replayed behind those below it.
fn replay_log<S: Site>(
    alloc: Global,
    site: &mut S,
    number: u64,
    memory: &mut Memory,
) -> Result<(), StoreErr>
    requires { IsNumber number }
    ensures replayed { S.shows → OnOk result (HasReplayed (folder_of (S.disk site.old)) (number - 1) (map_in memory.old.map.entries) memory.old.last
        → HasReplayed (folder_of (S.disk site.old)) number (map_in memory.new.map.entries) memory.new.last) }
    ensures corrupt { S.shows → (name : Name) (place : ℕ) → result ≡ Err (StoreErr.Corrupt name place) → IsSome (folder_of (S.disk site.old) (log_name number))
        → HasReplayed (folder_of (S.disk site.old)) (number - 1) (map_in memory.old.map.entries) memory.old.last
        → (name ≡ log_name number) × BreaksAt (folder_of (S.disk site.old)) number place }
    ensures greatest { OnOk result (memory.new.greatest ≡ number) }
    ensures quiet { OnlyReads S.Site site.old site.new }
    ensures causes { IfErr result IsReading }
    ensures disk { IsErrOf result StoreErr.Disk → Rose (S.disk_faults site.old) (S.disk_faults site.new) }
{
    batches_join();
    let replayed = replay(alloc, site, number, memory.last)?;
    memory.last = replayed.last;
    memory.greatest = number;
    put_entries(&mut memory.map, replayed.entries.into_vec())
}

// The logs of these numbers are replayed, in order of number.
fn replay_logs<S: Site>(alloc: Global, site: &mut S, numbers: &[u64]) -> Result<Memory, StoreErr>
    requires numbers { All IsNumber numbers.now }
    requires logs { S.shows → AreLogsAbove 0 numbers.now (folder_of (S.disk site.old)) }
    ensures replayed { S.shows → IfOk result (λ m. HasAll (folder_of (S.disk site.old)) (map_in m.map.entries) m.last m.greatest) }
    ensures bound { IfOk result (λ m. m.greatest < 10 ^ 15) }
    ensures corrupt { S.shows → (name : Name) (place : ℕ) → result ≡ Err (StoreErr.Corrupt name place)
        → (number : ℕ) × (name ≡ log_name number) × BreaksAt (folder_of (S.disk site.old)) number place }
    ensures quiet { OnlyReads S.Site site.old site.new }
    ensures causes { IfErr result IsReading }
    ensures disk { IsErrOf result StoreErr.Disk → Rose (S.disk_faults site.old) (S.disk_faults site.new) }
{
    let mut memory = Memory {
        map: BTreeMap::new(alloc),
        last: 0,
        greatest: 0,
    };
    for number in numbers {
        replay_log(alloc, site, *number, &mut memory)?;
    }
    Ok(memory)
}

/// The logs of the folder are synced, in order of number, and replayed.
pub(crate) fn read_logs<S: Site>(alloc: Global, site: &mut S) -> Result<Memory, StoreErr>
    ensures read { S.shows → IfOk result (λ m. WasRead (folder_of (S.disk site.old)) (S.disk site.new) (map_in m.map.entries) m.last m.greatest) }
    ensures others { S.shows → KeepsOthers (S.disk site.old) (S.disk site.new) }
    ensures no_file { S.shows → MakesNoFile (S.disk site.old) (S.disk site.new) }
    ensures no_new { S.shows → S.certain site.old → LeavesOnly S.clock S.left_since site.old site.new (FindsNoNewFile (S.disk site.old)) }
    ensures bound { IfOk result (λ m. m.greatest < 10 ^ 15) }
    ensures corrupt { S.shows → (name : Name) (place : ℕ) → result ≡ Err (StoreErr.Corrupt name place) → IsDamaged (folder_of (S.disk site.old)) name place }
    ensures refused { S.shows → IfErr result (λ e. IsUntouched e → folder_of (S.disk site.new) ≡ folder_of (S.disk site.old)) }
    ensures certain { S.shows → S.certain site.old → S.certain site.new }
    ensures before { S.shows → LeavesOnly S.clock S.left_since site.old site.new (LeavesFound (S.may_be site.old) (S.told site.old)) }
    ensures cuts { S.shows → AreReadAsWritten (S.disk site.old) → LeavesOnly S.clock S.left_since site.old site.new (MayLeave (S.may_be site.old) (S.told site.old)) }
    ensures tells_nothing { TellsNothing S.Site site.old site.new }
    ensures causes { IfErr result IsReading }
    ensures disk { IsErrOf result StoreErr.Disk → Rose (S.disk_faults site.old) (S.disk_faults site.new) }
{
    let numbers = list_logs(alloc, site)?;
    sync_logs(alloc, site, &numbers)?;
    replay_logs(alloc, site, &numbers)
}

/// The number of the next log, where the greatest log has this number, if there is one.
pub(crate) fn next_number(greatest: u64) -> Result<u64, StoreErr>
    requires { greatest < 10 ^ 15 }
    ensures next { IfOk result (λ number. (number ≡ max (greatest + 1) 2) × (number < 10 ^ 15)) }
    ensures full { IfErr result (λ e. (e ≡ StoreErr.Full (10 ^ 15)) × (10 ^ 15 ≡ max (greatest + 1) 2)) }
{
    let number = (greatest + 1).max(2);
    if number == FILE_LIMIT {
        return Err(StoreErr::Full(number));
    }
    Ok(number)
}
