//! Replaying a log.

ghost use Rattle.std.specs.Prelude.{◌≡◌, ℕ, ◌+◌, ◌<◌, ◌≤◌, ◌^◌, List, [], ◌∷◌, ◌++◌, length, Bool, Err, IfOk, IfErr, OnOk, IsErrOf, string_bytes, IsTrue, true, false, None, Some, ◌⊎◌};
ghost use Rattle.bl_site.specs.Disk.{folder_of};
ghost use Rattle.bl_site.specs.Causes.{Rose};
ghost use Rattle.bl_site.specs.Quiet.{OnlyReads};
ghost use Rattle.bl_names.specs.Names.{IsNumber};
ghost use Rattle.bl_entry.specs.Batches.{IsOperation};
ghost use Rattle.bl_entry.specs.Written.{entry, entries_from};
ghost use Rattle.bl_wal.specs.LogFile.{log_name};
ghost use Rattle.bl_wal.specs.Replay.{HasEntries, EndsAt, IsTorn, Taken};

use crate::batches::{BatchReader, LogEnd, NextBatch};
use crate::entries::Entries;
use crate::error::WalErr;
use bl_code::Octets;
use bl_entry::{Batch, Entry, InternalKey, Kind, Operation};
use bl_site::Site;
use std::alloc::Global;

/// What a log held.
#[derive(Drop)]
pub struct Replayed {
    /// The entries of its batches, in their order.
    pub entries: Entries,
    /// The last sequence behind them.
    pub last: u64,
    /// Where the log's reading ended. Where that is not its end, the log was cut or damaged.
    pub ended: LogEnd,
}

/// The entry of one operation that takes this sequence, below 2^56: its key and value are moved. A deletion's value is empty.
pub fn entry_of(alloc: Global, operation: Operation, seq: u64) -> Entry
    requires bounds { IsOperation operation }
    requires seq { seq < 2 ^ 56 }
    ensures { result ≡ entry operation.key seq operation.put }
{
    let Operation { key: user, put } = operation;
    let (kind, value) = match put {
        Some(value) => (Kind::Value, value),
        None => (Kind::Deletion, Octets::from_vec(Vec::new(alloc))),
    };
    Entry {
        key: InternalKey { user, seq, kind },
        value,
    }
}

// The entries of a batch follow.
fn put_entries(
    alloc: Global,
    entries: &mut Vec<Entry>,
    first: u64,
    batch: Batch,
) -> Result<(), WalErr>
    requires { 1 ≤ length batch → first + length batch ≤ 2 ^ 56 }
    ensures put { OnOk result (entries.new.items ≡ entries.old.items ++ entries_from first batch) }
    ensures memory { IfErr result (λ e. e ≡ WalErr.OutOfMemory) }
{
    let mut seq = first;
    for operation in batch.into_operations() {
        entries.push(entry_of(alloc, operation, seq))?;
        seq += 1;
    }
    Ok(())
}

/// Replays the log of this number, from 1 to 10^15 - 1: the entries of its batches, the first of which has the sequence behind
/// `last`, up to the place at which its reading ends, with that place and why. A log that is cut, or damaged, in a fragment ends
/// there.
///
/// Errors: `Corrupt` with the log's name, at 0 where it is not in the folder, and behind a record that is no batch or does not
/// begin behind the last sequence; `Disk`; `OutOfMemory`. In each case nothing changed.
pub fn replay<S: Site>(
    alloc: Global,
    site: &mut S,
    number: u64,
    last: u64,
) -> Result<Replayed, WalErr>
    requires { IsNumber number }
    ensures replayed { S.shows → IfOk result (λ r. HasEntries (folder_of (S.disk site.old)) number last r.entries r.last) }
    ensures ended { S.shows → IfOk result (λ r. EndsAt (folder_of (S.disk site.old)) number r.ended) }
    ensures corrupt { S.shows → (file : List ℕ) (place : ℕ) → result ≡ Err (WalErr.Corrupt file place) → (file ≡ log_name number) × IsTorn (folder_of (S.disk site.old)) number last place }
    ensures named { (file : List ℕ) (place : ℕ) → result ≡ Err (WalErr.Corrupt file place) → file ≡ log_name number }
    ensures quiet { OnlyReads S.Site site.old site.new }
    ensures disk { IsErrOf result WalErr.Disk → Rose (S.disk_faults site.old) (S.disk_faults site.new) }
{
    let mut batches = BatchReader::open(alloc, number, last)?;
    let mut entries = Vec::new(alloc);
    'batches: for _ in 0..u64::MAX {
        match batches.next(site)? {
            NextBatch::Batch(first, batch) => put_entries(alloc, &mut entries, first, batch)?,
            NextBatch::End(ended) => {
                return Ok(Replayed {
                    entries: Entries::from_vec(entries),
                    last: batches.last(),
                    ended,
                });
            }
        }
    }
    Err(WalErr::OutOfMemory)
}
