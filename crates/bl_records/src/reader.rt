//! Reading a file record by record.

ghost use Rattle.std.specs.Prelude.{◌≡◌, ℕ, ◌<◌, List, [], length, false, Option, None, Some, Ok, IfOk, IfErr, IfSome, OnErr, IsErrOf, string_bytes};
ghost use Rattle.bl_site.specs.Disk.{folder_of};
ghost use Rattle.bl_site.specs.Causes.{Rose};
ghost use Rattle.bl_site.specs.Quiet.{OnlyReads};
ghost use Rattle.bl_log.specs.declared.cause.EndCause.{EndCause};
ghost use Rattle.bl_records.specs.FileReading.{reading_at, HasFound};
ghost use Rattle.bl_records.specs.Answers.{Answers};

use crate::error::RecordErr;
use bl_code::Octets;
use bl_log::{EndCause, LogNext, LogReader, found_records_are_first};
use bl_site::Site;
use std::alloc::Global;
use std::marker::Model;

// How many bytes of a file are read at once.
const PIECE: usize = 65536;

/// What stands next in a file.
#[derive(Drop)]
pub enum NextRecord {
    /// The next record.
    Record(Octets),
    /// Reading ends at this place, modulo 2^64, for this cause. Each later call answers the same.
    End(u64, EndCause),
    /// No file has this name.
    Absent,
}

/// Reads the records of one file of a folder, one after another. It holds one piece of the file, of 65,536 bytes, and of a record what
/// is read so far. A contract sees the file's name, the offset before which its bytes were fed, and the reader of the log that was fed
/// them.
#[derive(Drop)]
pub struct RecordReader {
    name: String,
    buffer: Vec<u8>,
    reader: LogReader,
    offset: u64,
}

impl Model for RecordReader {
    ghost use Rattle.std.specs.Prelude.{◌<◌, length, string_bytes};
    ghost use Rattle.bl_records.specs.FileReading.{FileReading};

    ghost Value = { FileReading };

    ghost view = { λ r. record { name = string_bytes r.name; offset = r.offset; reading = r.reader } };

    ghost invariant = { λ r. 0 < length r.buffer.items };
}

// The next piece of the file is fed, or the reader is closed where there is none. Answers whether the file is there.
fn feed_piece<S: Site>(
    site: &mut S,
    name: &str,
    buffer: &mut [u8],
    reader: &mut LogReader,
    offset: &mut u64,
) -> Result<bool, RecordErr>
    requires some { 0 < length buffer.old }
    requires open { reader.old.closed ≡ false }
    ensures keeps { S.shows → (found : List (List ℕ × ℕ)) → HasFound (folder_of (S.disk site.old) name.now) found (reading_at name.now offset.old reader.old) → HasFound (folder_of (S.disk site.old) name.now) found (reading_at name.now offset.new reader.new) }
    ensures absent { S.shows → IfOk result (λ there. there ≡ false → folder_of (S.disk site.old) name.now ≡ None) }
    ensures quiet { OnlyReads S.Site site.old site.new }
    ensures disk { IsErrOf result RecordErr.Disk → Rose (S.disk_faults site.old) (S.disk_faults site.new) }
{
    let Some(count) = site.read_at(name, *offset, buffer)? else {
        return Ok(false);
    };
    if count == 0 {
        reader.close();
        return Ok(true);
    }
    let Some(next) = offset.checked_add(count as u64) else {
        return Err(RecordErr::OutOfMemory);
    };
    reader.feed(&buffer[..count])?;
    *offset = next;
    Ok(true)
}

// Feeds pieces until they decide what stands next.
fn read_next<S: Site>(
    site: &mut S,
    name: &str,
    buffer: &mut [u8],
    reader: &mut LogReader,
    offset: &mut u64,
) -> Result<NextRecord, RecordErr>
    requires { 0 < length buffer.old }
    ensures answers { S.shows → IfOk result (λ next. (found : List (List ℕ × ℕ)) → HasFound (folder_of (S.disk site.old) name.now) found (reading_at name.now offset.old reader.old)
        → Answers next (folder_of (S.disk site.old) name.now) found (reading_at name.now offset.new reader.new)) }
    ensures absent { S.shows → IfOk result (λ next. next ≡ NextRecord.Absent → folder_of (S.disk site.old) name.now ≡ None) }
    ensures err { S.shows → OnErr result ((found : List (List ℕ × ℕ)) → HasFound (folder_of (S.disk site.old) name.now) found (reading_at name.now offset.old reader.old)
        → HasFound (folder_of (S.disk site.old) name.now) found (reading_at name.now offset.new reader.new)) }
    ensures ends { (place : ℕ) (cause : EndCause) → result ≡ Ok (NextRecord.End place cause) → reader.new.ended ≡ Some (place, cause) }
    ensures again { IfSome reader.old.ended (λ end. (result ≡ Ok (NextRecord.End end.0 end.1)) × (reader.new ≡ reader.old) × (offset.new ≡ offset.old) × (site.new ≡ site.old)) }
    ensures quiet { OnlyReads S.Site site.old site.new }
    ensures disk { IsErrOf result RecordErr.Disk → Rose (S.disk_faults site.old) (S.disk_faults site.new) }
{
    found_records_are_first();
    'pieces: for _piece in 0..u64::MAX {
        match reader.next()? {
            LogNext::Found(payload) => return Ok(NextRecord::Record(payload)),
            LogNext::End(place, cause) => return Ok(NextRecord::End(place, cause)),
            LogNext::NeedMore => {
                let there = feed_piece(site, name, buffer, reader, offset)?;
                if !there {
                    return Ok(NextRecord::Absent);
                }
            }
        }
    }
    Err(RecordErr::OutOfMemory)
}

impl RecordReader {
    /// A reader at the beginning of the file of this name, which need not be there yet. It asks nothing of the folder.
    ///
    /// Errors: `OutOfMemory`.
    pub fn open(alloc: Global, name: String) -> Result<RecordReader, RecordErr>
        ensures name { IfOk result (λ reader. reader.name ≡ string_bytes name) }
        ensures begins { IfOk result (λ reader. (file : Option (List ℕ)) → HasFound file [] reader) }
        ensures memory { IfErr result (λ e. e ≡ RecordErr.OutOfMemory) }
    {
        Ok(RecordReader {
            name,
            buffer: vec![in alloc; 0; PIECE]?,
            reader: LogReader::start(alloc),
            offset: 0,
        })
    }

    /// The next record of the file; or where and why its reading ends, as it does in a fragment that is cut or damaged; or that no
    /// file has this name. The file is read as it is now, so as long as it stays, the records of one call after another are the file's. Nothing
    /// changes in the folder.
    ///
    /// Errors: `Disk`; `OutOfMemory`, which also comes where the file has more than 2^64 - 1 bytes before the next record's end. The
    /// reader has found what it had found before, and may be asked again.
    pub fn next<S: Site>(&mut self, site: &mut S) -> Result<NextRecord, RecordErr>
        ensures answers { S.shows → IfOk result (λ next. (found : List (List ℕ × ℕ)) → HasFound (folder_of (S.disk site.old) self.old.name) found self.old
            → Answers next (folder_of (S.disk site.old) self.old.name) found self.new) }
        ensures absent { S.shows → IfOk result (λ next. next ≡ NextRecord.Absent → folder_of (S.disk site.old) self.old.name ≡ None) }
        ensures err { S.shows → OnErr result ((found : List (List ℕ × ℕ)) → HasFound (folder_of (S.disk site.old) self.old.name) found self.old
            → HasFound (folder_of (S.disk site.old) self.old.name) found self.new) }
        ensures name { self.new.name ≡ self.old.name }

        // Where reading has ended, the folder is not asked again.
        ensures ends { (place : ℕ) (cause : EndCause) → result ≡ Ok (NextRecord.End place cause) → self.new.reading.ended ≡ Some (place, cause) }
        ensures again { IfSome self.old.reading.ended (λ end. (result ≡ Ok (NextRecord.End end.0 end.1)) × (self.new ≡ self.old) × (site.new ≡ site.old)) }

        ensures quiet { OnlyReads S.Site site.old site.new }
        ensures disk { IsErrOf result RecordErr.Disk → Rose (S.disk_faults site.old) (S.disk_faults site.new) }
    {
        read_next(
            site,
            self.name.as_str(),
            &mut self.buffer,
            &mut self.reader,
            &mut self.offset,
        )
    }

    /// The place behind the last fragment that was read, modulo 2^64, before filler is skipped.
    pub fn place(&self) -> u64
        ensures { result ≡ self.now.reading.place }
    {
        self.reader.place()
    }

    /// The file's name.
    pub fn name(&self) -> &str
        ensures { result.now ≡ self.now.name }
    {
        self.name.as_str()
    }
}
