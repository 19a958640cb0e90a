//! Reading a log batch by batch.

ghost use Rattle.std.specs.Prelude.{◌≡◌, ℕ, ◌+◌, ◌≤◌, ◌^◌, List, [], length, Option, Err, IfOk, IfErr, IsErrOf, ◌⊎◌};
ghost use Rattle.bl_site.specs.Disk.{folder_of};
ghost use Rattle.bl_site.specs.Causes.{Rose};
ghost use Rattle.bl_site.specs.Quiet.{OnlyReads};
ghost use Rattle.bl_names.specs.Names.{IsNumber};
ghost use Rattle.bl_wal.specs.LogFile.{log_name};
ghost use Rattle.bl_wal.specs.Held.{Batches};
ghost use Rattle.bl_wal.specs.Replay.{Answers, BreaksOffAt, Follows, HasReplayed, Taken};

use crate::error::WalErr;
use bl_code::Octets;
use bl_entry::{BadBatch, Batch, batches_join, decode_batch};
use bl_log::{EndCause, placed_records_are_records};
use bl_names::{FileName, print_name};
use bl_records::{NextRecord, RecordReader};
use bl_site::Site;
use std::alloc::Global;
use std::marker::Model;

/// Where the reading of a log ended, and why.
#[derive(Clone, Copy, Debug, Drop, PartialEq, Eq)]
pub struct LogEnd {
    /// The place in the file, modulo 2^64.
    pub place: u64,
    /// Why. What follows there was not read.
    pub cause: EndCause,
}

/// What stands next in a log.
#[derive(Drop)]
pub enum NextBatch {
    /// The next batch: the sequence of its first operation, and its operations.
    Batch(u64, Batch),
    /// No batch more: the log's reading ends here.
    End(LogEnd),
}

/// Reads the batches of one log, one after another, each of which begins behind the last sequence. It holds one batch, one record
/// and one piece of the file. A contract sees the reader of the log's records, and the last sequence.
#[derive(Drop)]
pub struct BatchReader {
    alloc: Global,
    records: RecordReader,
    last: u64,
}

impl Model for BatchReader {
    ghost use Rattle.bl_wal.specs.Replay.{BatchReading};

    ghost Value = { BatchReading };

    ghost view = { λ r. record { records = r.records; last = r.last } };
}

// A record is taken where it is a batch that begins behind the last sequence.
fn take_batch(alloc: Global, last: &mut u64, payload: &[u8]) -> Result<Option<(u64, Batch)>, WalErr>
    ensures taken { IfOk result (λ batch. Taken batch payload.now last.old last.new) }
    ensures memory { IfErr result (λ e. e ≡ WalErr.OutOfMemory) }
{
    let (first, batch) = match decode_batch(alloc, payload) {
        Ok(read) => read,
        Err(BadBatch::At(_, _)) => return Ok(None),
        Err(BadBatch::OutOfMemory) => return Err(WalErr::OutOfMemory),
    };
    if first == 0 || first - 1 != *last {
        return Ok(None);
    }
    *last += u64::from(batch.count());
    Ok(Some((first, batch)))
}

fn corrupt(alloc: Global, name: &str, place: u64) -> WalErr
    ensures { (result ≡ WalErr.OutOfMemory) ⊎ (result ≡ WalErr.Corrupt name.now place) }
{
    match Octets::from_slice(alloc, name.as_bytes()) {
        Ok(name) => WalErr::Corrupt(name, place),
        Err(_) => WalErr::OutOfMemory,
    }
}

impl BatchReader {
    /// A reader at the beginning of the log of this number, from 1 to 10^15 - 1, whose first batch has the sequence behind `last`. It
    /// asks nothing of the folder.
    ///
    /// Errors: `OutOfMemory`.
    pub fn open(alloc: Global, number: u64, last: u64) -> Result<BatchReader, WalErr>
        requires { IsNumber number }
        ensures name { IfOk result (λ reader. reader.records.name ≡ log_name number) }
        ensures begins { IfOk result (λ reader. (file : Option (List ℕ)) → HasReplayed file last [] reader) }
        ensures last { IfOk result (λ reader. reader.last ≡ last) }
        ensures memory { IfErr result (λ e. e ≡ WalErr.OutOfMemory) }
    {
        let name = print_name(alloc, &FileName::Log(number))?;
        let records = RecordReader::open(alloc, name)?;
        Ok(BatchReader {
            alloc,
            records,
            last,
        })
    }

    /// The next batch of the log; or where and why its reading ends, as it does in a fragment that is cut or damaged. The log is read
    /// as it is now, so as long as it stays, the batches of one call after another are the log's. Nothing changes in the folder.
    ///
    /// Errors: `Corrupt` with the log's name, at 0 where it is not in the folder, and behind a record that is no batch or does not
    /// begin behind the last sequence; `Disk`; `OutOfMemory`. The reader is not to be asked again then.
    pub fn next<S: Site>(&mut self, site: &mut S) -> Result<NextBatch, WalErr>
        ensures answers { S.shows → IfOk result (λ next. (before : ℕ) (batches : Batches) → HasReplayed (folder_of (S.disk site.old) self.old.records.name) before batches self.old
            → Answers next (folder_of (S.disk site.old) self.old.records.name) before batches self.new) }
        ensures follows { IfOk result (λ next. Follows next self.old.last self.new.last) }
        ensures corrupt { S.shows → (file : List ℕ) (place : ℕ) → result ≡ Err (WalErr.Corrupt file place) → (before : ℕ) (batches : Batches) → HasReplayed (folder_of (S.disk site.old) self.old.records.name) before batches self.old
            → BreaksOffAt (folder_of (S.disk site.old) self.old.records.name) before place }
        ensures named { (file : List ℕ) (place : ℕ) → result ≡ Err (WalErr.Corrupt file place) → file ≡ self.old.records.name }
        ensures name { self.new.records.name ≡ self.old.records.name }
        ensures quiet { OnlyReads S.Site site.old site.new }
        ensures disk { IsErrOf result WalErr.Disk → Rose (S.disk_faults site.old) (S.disk_faults site.new) }
    {
        placed_records_are_records();
        batches_join();
        let alloc = self.alloc;
        match self.records.next(site)? {
            NextRecord::Record(payload) => {
                match take_batch(alloc, &mut self.last, payload.as_slice())? {
                    Some((first, batch)) => Ok(NextBatch::Batch(first, batch)),
                    None => Err(corrupt(alloc, self.records.name(), self.records.place())),
                }
            }
            NextRecord::End(place, cause) => Ok(NextBatch::End(LogEnd { place, cause })),
            NextRecord::Absent => Err(corrupt(alloc, self.records.name(), 0)),
        }
    }

    /// The last sequence behind the batches that were read.
    pub fn last(&self) -> u64
        ensures { result ≡ self.now.last }
    {
        self.last
    }
}
