//! Logs whose reading ends before their bytes do.
ghost use Rattle.std.specs.Prelude.{◌≡◌, ◌≢◌, ℕ, IfOk, IfErr, IfSome, IsErrOf, OnOk, MatchOption, map, string_bytes};
ghost use Rattle.std.specs.BTreeMap.{IsOrdered};
ghost use Rattle.std.specs.Ordering.{nat_cmp};
ghost use Rattle.bl_site.specs.Disk.{folder_of};
ghost use Rattle.bl_site.specs.Causes.{Rose};
ghost use Rattle.bl_site.specs.Quiet.{OnlyReads};
ghost use Rattle.bl_names.specs.Names.{IsNameOf};
ghost use Rattle.bl_names.specs.declared.name.FileName.TheVariants.{Log};
ghost use Rattle.bl_main.specs.Ends.{EndsAt, Tells, TellsEach, word_of};
ghost use Rattle.bl_main.specs.Logs.{AreLogsOf, TakesLog};

use crate::error::LookErr;
use bl_log::EndCause;
use bl_names::{FileName, names_one, parse_name};
use bl_records::{NextRecord, RecordReader};
use bl_site::Site;
use std::alloc::Global;
use std::collections::BTreeMap;
use std::fmt;

/// Why the reading of a log stopped, in a word or two; `None` where it came to the end of the log.
fn reason(cause: EndCause) -> Option<&'static str>
    ensures early { MatchOption result (cause ≡ EndCause.Finished) (λ _. cause ≢ EndCause.Finished) }
    ensures word { IfSome result (λ word. word.now ≡ word_of cause) }
{
    match cause {
        EndCause::Finished => None,
        EndCause::Cut => Some("cut off"),
        EndCause::Length => Some("length"),
        EndCause::Kind => Some("type"),
        EndCause::Crc => Some("checksum"),
        EndCause::Order => Some("order of fragments"),
    }
}

/// A log whose reading ends before its bytes do. It prints as `000002.log: read up to byte 31 of 4096: checksum`.
#[derive(Drop)]
pub struct EarlyEnd {
    name: String,
    place: u64,
    length: u64,
    reason: &'static str,
}

impl fmt::Display for EarlyEnd {
    ghost use Rattle.std.specs.Prelude.{Some};
    ghost use Rattle.bl_main.specs.Ends.{text_of};

    ghost output = { λ end. Some (text_of end) };

    fn fmt<W: fmt::Write>(&self, f: &mut fmt::Formatter<W>) -> fmt::Result {
        let name = self.name.as_str();
        let place = self.place;
        let length = self.length;
        let reason = self.reason;
        write!(f, "{name}: read up to byte {place} of {length}: {reason}")
    }
}

// Where and why the reading of this log ends, or `None` where it is not there.
fn end_of<S: Site>(
    alloc: Global,
    site: &mut S,
    name: &str,
) -> Result<Option<(u64, EndCause)>, LookErr>
    ensures ends { S.shows → IfOk result (λ end. MatchOption end (folder_of (S.disk site.old) name.now ≡ None) (λ it. EndsAt (folder_of (S.disk site.old) name.now) it.0 it.1)) }
    ensures stays { S.shows → S.disk site.new ≡ S.disk site.old }
    ensures quiet { OnlyReads S.Site site.old site.new }
    ensures disk { IsErrOf result LookErr.Disk → Rose (S.disk_faults site.old) (S.disk_faults site.new) }
{
    let mut reader = RecordReader::open(alloc, String::from_str(alloc, name)?)?;
    'records: for _record in 0..u64::MAX {
        match reader.next(site)? {
            NextRecord::Record(_) => {}
            NextRecord::End(place, cause) => return Ok(Some((place, cause))),
            NextRecord::Absent => return Ok(None),
        }
    }
    Err(LookErr::OutOfMemory)
}

// What is to be said of this log, if anything.
fn early_end<S: Site>(alloc: Global, site: &mut S, name: &str) -> Result<Option<EarlyEnd>, LookErr>
    ensures tells { S.shows → IfOk result (λ end. Tells name.now (folder_of (S.disk site.old) name.now) end) }
    ensures stays { S.shows → S.disk site.new ≡ S.disk site.old }
    ensures quiet { OnlyReads S.Site site.old site.new }
    ensures disk { IsErrOf result LookErr.Disk → Rose (S.disk_faults site.old) (S.disk_faults site.new) }
{
    let Some((place, cause)) = end_of(alloc, site, name)? else {
        return Ok(None);
    };
    let Some(reason) = reason(cause) else {
        return Ok(None);
    };
    let length = site.len(name)?.unwrap_or(place);
    Ok(Some(EarlyEnd {
        name: String::from_str(alloc, name)?,
        place,
        length,
        reason,
    }))
}

/// The names of logs, by number.
pub type Logs = BTreeMap<u64, String>;

// The number of the log of this name, if it is a log's.
fn log_number(name: &str) -> Option<u64>
    ensures { MatchOption result ((number : ℕ) → IsNameOf name.now (Log number) → ⊥) (λ number. IsNameOf name.now (Log number)) }
{
    let file = parse_name(name)?;
    let FileName::Log(number) = file else {
        return None;
    };
    Some(number)
}

// The name joins the others where it is a log's.
fn put_log(logs: &mut Logs, name: String) -> Result<(), LookErr>
    ensures put { OnOk result (TakesLog name logs.old logs.new) }
    ensures ordered { IsOrdered nat_cmp logs.old → IsOrdered nat_cmp logs.new }
    ensures memory { IfErr result (λ error. error ≡ LookErr.OutOfMemory) }
{
    if let Some(number) = log_number(name.as_str()) {
        logs.insert(number, name)?;
    }
    Ok(())
}

/// The logs of the folder, in order of number.
///
/// Errors: `Disk`, `OutOfMemory`.
pub fn list_logs<S: Site>(alloc: Global, site: &mut S) -> Result<Logs, LookErr>
    ensures logs { S.shows → IfOk result (AreLogsOf (folder_of (S.disk site.old))) }
    ensures stays { S.shows → S.disk site.new ≡ S.disk site.old }
    ensures quiet { OnlyReads S.Site site.old site.new }
    ensures disk { IsErrOf result LookErr.Disk → Rose (S.disk_faults site.old) (S.disk_faults site.new) }
{
    names_one();
    let mut logs = BTreeMap::new(alloc);
    for name in site.list(alloc)? {
        put_log(&mut logs, name)?;
    }
    Ok(logs)
}

/// Those of these logs whose reading ends before their bytes do, in order of number.
///
/// Errors: `Disk`; `OutOfMemory`, which also comes where a log has more than 2^64 - 1 bytes.
pub fn early_ends<S: Site>(
    alloc: Global,
    site: &mut S,
    logs: &Logs,
) -> Result<Vec<EarlyEnd>, LookErr>
    ensures tells { S.shows → IfOk result (λ found. TellsEach (folder_of (S.disk site.old)) (map (λ log. string_bytes log.1) logs.now.entries) found.items) }
    ensures quiet { OnlyReads S.Site site.old site.new }
    ensures disk { IsErrOf result LookErr.Disk → Rose (S.disk_faults site.old) (S.disk_faults site.new) }
{
    let mut found = Vec::new(alloc);
    for (_, name) in logs.iter() {
        if let Some(end) = early_end(alloc, site, name.as_str())? {
            found.push(end)?;
        }
    }
    Ok(found)
}
