//! Replaying the logs of a folder into a memory table, batch by batch.

ghost use Rattle.std.specs.Prelude.{◌≡◌, ℕ, ◌+◌, ◌<◌, ◌≤◌, ◌^◌, All, List, ◌++◌, length, Err, IfOk, IfErr, OnOk, IsErrOf};
ghost use Rattle.bl_site.specs.Causes.{Rose};
ghost use Rattle.bl_site.specs.Disk.{Name, folder_of};
ghost use Rattle.bl_site.specs.Quiet.{OnlyReads};
ghost use Rattle.bl_names.specs.Names.{IsNumber};
ghost use Rattle.std.specs.List.{AllByRecursion};
ghost use Rattle.bl_entry.specs.Batches.{IsOperation};
ghost use Rattle.bl_entry.specs.Written.{entries_from};
ghost use Rattle.bl_entry.specs.declared.key.Entry.{Entry as EntrySpec};
ghost use Rattle.bl_memtab.specs.Filled.{Holds};
ghost use Rattle.bl_wal.specs.LogFile.{log_name};
ghost use Rattle.bl_wal.specs.Replay.{IsTorn};
ghost use Rattle.bl_flush.specs.Jobs.{ArePutsAndDeletions};
ghost use Rattle.bl_open.specs.Answers.{IsReading};
ghost use Rattle.bl_open.specs.Replay.{LogsFail};
ghost use Rattle.bl_open.specs.Replaying.{AreLogsFrom, HasReplayedLog, HasReplayedLogs, IsFilled};

use crate::error::OpenErr;
use bl_entry::{Batch, batches_join};
use bl_folder::memories_tell_what_was_inserted;
use bl_memtab::{MemTable, batches_are_held};
use bl_site::Site;
use bl_wal::{BatchReader, NextBatch, entry_of};
use std::alloc::Global;

/// What the logs of a folder held: their entries, and the last sequence behind them.
#[derive(Drop)]
pub(crate) struct Replayed {
    pub memory: MemTable,
    pub last: u64,
}

// The entries of a batch behind the last sequence go into the memory.
fn insert_batch(
    alloc: Global,
    memory: &mut MemTable,
    last: u64,
    batch: Batch,
) -> Result<(), OpenErr>
    requires bounds { 1 ≤ length batch → last + length batch < 2 ^ 56 }
    requires holds { (written : List EntrySpec) × Holds memory.old written last }
    ensures holds { OnOk result ((written : List EntrySpec) → Holds memory.old written last → Holds memory.new (written ++ entries_from (last + 1) batch) (last + length batch)) }
    ensures fit { AllByRecursion IsOperation batch }
    ensures memory { IfErr result (λ e. e ≡ OpenErr.OutOfMemory) }
{
    batches_are_held();
    let mut seq = last;
    for operation in batch.into_operations() {
        seq += 1;
        memory.insert(entry_of(alloc, operation, seq))?;
    }
    Ok(())
}

// The log of this number is replayed behind the last sequence. Answers the last sequence behind it.
fn replay_log<S: Site>(
    alloc: Global,
    site: &mut S,
    number: u64,
    memory: &mut MemTable,
    last: u64,
) -> Result<u64, OpenErr>
    requires number { IsNumber number }
    requires filled { IsFilled memory.old last }
    ensures replayed { S.shows → IfOk result (λ last_after. HasReplayedLog (folder_of (S.disk site.old)) number last last_after memory.old memory.new) }
    ensures filled { IfOk result (IsFilled memory.new) }
    ensures bound { last < 2 ^ 56 → IfOk result (λ last_after. last_after < 2 ^ 56) }
    ensures corrupt { S.shows → (name : Name) (place : ℕ) → result ≡ Err (OpenErr.Corrupt name place) → (name ≡ log_name number) × IsTorn (folder_of (S.disk site.old)) number last place }
    ensures quiet { OnlyReads S.Site site.old site.new }
    ensures causes { IfErr result IsReading }
    ensures disk { IsErrOf result OpenErr.Disk → Rose (S.disk_faults site.old) (S.disk_faults site.new) }
{
    let mut batches = BatchReader::open(alloc, number, last)?;
    'batches: for _ in 0..u64::MAX {
        let last = batches.last();
        match batches.next(site)? {
            NextBatch::Batch(_, batch) => insert_batch(alloc, memory, last, batch)?,
            NextBatch::End(_) => return Ok(last),
        }
    }
    Err(OpenErr::OutOfMemory)
}

/// Replays the logs of these numbers, which are those of all logs from a number on, in their order: each batch goes into a memory
/// table as it is read. Where the sequence that they stand behind is below 2^56, so is the last one. It holds this table, one batch,
/// one record and one piece of a file.
///
/// Errors: `Corrupt` at the first record that is no batch or does not begin behind the last sequence: the log's name, and the place
/// behind that record; `Disk`; `OutOfMemory`. Nothing changes in the folder.
pub(crate) fn replay_logs<S: Site>(
    alloc: Global,
    site: &mut S,
    numbers: &[u64],
    from: u64,
    last: u64,
) -> Result<Replayed, OpenErr>
    requires numbers { All IsNumber numbers.now }
    requires logs { S.shows → AreLogsFrom (folder_of (S.disk site.old)) from numbers.now }
    ensures replayed { S.shows → IfOk result (λ r. HasReplayedLogs (folder_of (S.disk site.old)) from last r.memory r.last) }
    ensures plain { IfOk result (λ r. ArePutsAndDeletions r.memory) }
    ensures bound { last < 2 ^ 56 → IfOk result (λ r. r.last < 2 ^ 56) }
    ensures corrupt { S.shows → (name : Name) (place : ℕ) → result ≡ Err (OpenErr.Corrupt name place) → LogsFail (folder_of (S.disk site.old)) from last name place }
    ensures quiet { OnlyReads S.Site site.old site.new }
    ensures causes { IfErr result IsReading }
    ensures disk { IsErrOf result OpenErr.Disk → Rose (S.disk_faults site.old) (S.disk_faults site.new) }
{
    batches_are_held();
    batches_join();
    memories_tell_what_was_inserted();
    let mut memory = MemTable::start(alloc);
    let mut behind = last;
    for number in numbers {
        behind = replay_log(alloc, site, *number, &mut memory, behind)?;
    }
    Ok(Replayed {
        memory,
        last: behind,
    })
}
