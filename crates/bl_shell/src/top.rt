//! The top call.

ghost use Rattle.std.specs.Prelude.{◌≡◌, ℕ, ◌+◌, ◌<◌, ◌≤◌, ◌^◌, ◌↔◌, ◌⊎◌, [], ◌++◌, length, IfOk, IfErr, OnOk, string_bytes};
ghost use Rattle.bl_site.specs.Disk.{Name};
ghost use Rattle.bl_site.specs.Calls.{LeavesOnly, Tells};
ghost use Rattle.bl_site.specs.Causes.{Rose};
ghost use Rattle.bl_shell.specs.Causes.{IsSilent, status_of, MayEnd, EndsAs};
ghost use Rattle.bl_shell.specs.Cuts.{TellsError};
ghost use Rattle.bl_shell.specs.Headline.{AnswersAsMap, HasCauses, Refuses, SurvivesCuts, run_of};
ghost use Rattle.bl_shell.specs.Inside.{HasRunCauses, RefusesBefore, ServesAsMap, StandsCuts};
ghost use Rattle.bl_shell.specs.Telling.{corrupt_line, full_line};

use crate::serve::serve;
use crate::status::Status;
use crate::stop::Stop;
use bl_code::Octets;
use bl_logstore::{
    Store, batches_make_the_map, cuts_stand, damaged_do_not_stand, older_logs_are_synced,
};
use bl_site::{Site, SiteErr, Source};
use std::alloc::Global;

// How many bytes of the script are read at once.
const PIECE: usize = 32768;

// A buffer of so many bytes.
fn buffer_of(alloc: Global, size: usize) -> Result<Vec<u8>, Stop>
    ensures size { IfOk result (λ v. length v.items ≡ size) }
    ensures memory { IfErr result (λ e. e ≡ Stop.OutOfMemory) }
{
    Ok(vec![in alloc; 0; size]?)
}

// Opens the folder, and serves the script on it.
fn run_on<R: Source, S: Site>(alloc: Global, script: &mut R, site: &mut S) -> Result<(), Stop>
    ensures serves { S.shows → R.shows → ServesAsMap (run_of S.Site R.Source script.old script.new site.old site.new) result }
    ensures stands { S.shows → R.shows → StandsCuts (run_of S.Site R.Source script.old script.new site.old site.new) result }
    ensures refuses { S.shows → RefusesBefore (run_of S.Site R.Source script.old script.new site.old site.new) result }
    ensures ended { R.shows → OnOk result (R.left script.new ≡ []) }
    ensures causes { HasRunCauses S.Site R.Source result script.old script.new site.old site.new }
    ensures bound { R.taken script.new ≤ R.taken script.old + 2 ^ 40 + 32768 }
{
    damaged_do_not_stand();
    batches_make_the_map();
    cuts_stand();
    older_logs_are_synced();
    let mut buffer = buffer_of(alloc, PIECE)?;
    let mut store = Store::open_site(alloc, site)?;
    serve(&mut store, alloc, &mut buffer, script, site)
}

// The line that is told of a damaged file.
fn corrupt_reply(alloc: Global, name: &Octets, place: u64) -> Result<Vec<u8>, Stop>
    ensures line { IfOk result (λ v. v.items ≡ corrupt_line name.now place) }
    ensures memory { IfErr result (λ e. e ≡ Stop.OutOfMemory) }
{
    let mut out = Vec::from_slice(alloc, b"error corrupt ")?;
    out.extend_from_slice(name.as_slice())?;
    let place = format!(in alloc; " {place}\n")?;
    out.extend_from_slice(place.as_bytes())?;
    Ok(out)
}

// The line that is told of a limit.
fn full_reply(alloc: Global, limit: u64) -> Result<String, Stop>
    ensures line { IfOk result (λ text. string_bytes text ≡ full_line limit) }
    ensures memory { IfErr result (λ e. e ≡ Stop.OutOfMemory) }
{
    Ok(format!(in alloc; "error full {limit}\n")?)
}

// The last line is told, and the run ends with this status; with another where it could not be told.
fn tell_last<S: Site>(line: &[u8], status: Status, site: &mut S) -> Status
    ensures told { S.shows → EndsAs status result line.now (S.told site.old) (S.told site.new) }
    ensures cuts { S.shows → LeavesOnly S.clock S.left_since site.old site.new (Tells (S.may_be site.old) (S.told site.old) line.now) }
    ensures stays { S.shows → S.disk site.new ≡ S.disk site.old }
    ensures ends { (result ≡ status) ⊎ ((result ≡ Status.TellFault) ⊎ (result ≡ Status.OutOfMemory)) }
    ensures tell { result ≡ Status.TellFault → (status ≡ Status.TellFault) ⊎ Rose (S.tell_faults site.old) (S.tell_faults site.new) }
    ensures later { S.tell_faults site.old ≤ S.tell_faults site.new }
    ensures disk_faults { S.disk_faults site.new ≡ S.disk_faults site.old }
{
    match site.tell(line) {
        Ok(()) => status,
        Err(SiteErr::OutOfMemory) => Status::OutOfMemory,
        Err(SiteErr::TellFailed) => Status::TellFault,
        Err(SiteErr::DiskFailed) => unreachable!(),
    }
}

// A stop ends the run: where it has a line, the line is told.
fn end<S: Site>(alloc: Global, stop: Stop, site: &mut S) -> Status
    ensures silent { IsSilent stop → (result ≡ status_of stop) × (site.new ≡ site.old) }
    ensures corrupt { S.shows → (name : Name) (place : ℕ) → stop ≡ Stop.Corrupt name place → EndsAs Status.Corrupt result (corrupt_line name place) (S.told site.old) (S.told site.new) }
    ensures full { S.shows → (limit : ℕ) → stop ≡ Stop.Full limit → EndsAs Status.Full result (full_line limit) (S.told site.old) (S.told site.new) }
    ensures cuts { S.shows → LeavesOnly S.clock S.left_since site.old site.new (TellsError (S.may_be site.old) (S.told site.old)) }
    ensures stays { S.shows → S.disk site.new ≡ S.disk site.old }
    ensures ends { MayEnd stop result }
    ensures tell { result ≡ Status.TellFault → (stop ≡ Stop.Tell) ⊎ Rose (S.tell_faults site.old) (S.tell_faults site.new) }
    ensures later { S.tell_faults site.old ≤ S.tell_faults site.new }
    ensures disk_faults { S.disk_faults site.new ≡ S.disk_faults site.old }
{
    match stop {
        Stop::Read => Status::ReadFault,
        Stop::Tell => Status::TellFault,
        Stop::Disk => Status::DiskFault,
        Stop::OutOfMemory => Status::OutOfMemory,
        Stop::Long => Status::Long,
        Stop::Corrupt(name, place) => match corrupt_reply(alloc, &name, place) {
            Ok(line) => tell_last(line.as_slice(), Status::Corrupt, site),
            Err(_) => Status::OutOfMemory,
        },
        Stop::Full(limit) => match full_reply(alloc, limit) {
            Ok(line) => tell_last(line.as_bytes(), Status::Full, site),
            Err(_) => Status::OutOfMemory,
        },
    }
}

/// Runs a script on a folder of logs: opens it, tells the replies to the script's lines, and keeps what they write in a new log.
///
/// Opening syncs the logs in order of number, replays them, and makes the next one. At the script's end the log is synced. A line
/// is `put KEY =VALUE`, `del KEY`, `batch` and some of these, `get KEY`, `scan` with at most two keys, `sync` or `reopen`. It
/// answers how the run ended:
///
/// - `Done`: the script was read to its end, and all is told.
/// - `Words`: there is a word. Nothing was done.
/// - `Corrupt`: the folder holds a file of a store that is no log, or a log that breaks off; the line
///   `error corrupt NAME PLACE` is told of the first one, and the folder reads as it did.
/// - `Full`: no sequence, or no number for a log, is left; `error full NUMBER` is told behind the replies.
/// - `Long`: the script has more than 2^40 bytes.
/// - `ReadFault`, `TellFault`, `DiskFault`: a call of the script, of the output or of the folder failed.
/// - `OutOfMemory`: memory ran out.
pub fn run<R: Source, S: Site>(
    alloc: Global,
    words: &[String],
    script: &mut R,
    site: &mut S,
) -> Status
    // Without a power cut, with one, and what is refused: specs/Headline.antt says it field by field.
    ensures answers { S.shows → R.shows → AnswersAsMap (run_of S.Site R.Source script.old script.new site.old site.new) result }
    ensures survives { S.shows → R.shows → SurvivesCuts (run_of S.Site R.Source script.old script.new site.old site.new) result }
    ensures refuses { S.shows → Refuses (run_of S.Site R.Source script.old script.new site.old site.new) result }

    // At `Done` the script was read to its end.
    ensures ended { R.shows → result ≡ Status.Done → R.left script.new ≡ [] }

    // Words are refused, and nothing else is done.
    ensures words { (result ≡ Status.Words) ↔ (0 < length words.now) }
    ensures untouched { result ≡ Status.Words → (script.new ≡ script.old) × (site.new ≡ site.old) }

    // Each failure of the script, of the output or of the folder, and `Long`, has its cause in this call, on every site and source. Not
    // more than 2^40 bytes and one read are taken.
    ensures causes { HasCauses S.Site R.Source result script.old script.new site.old site.new }
    ensures bound { R.taken script.new ≤ R.taken script.old + 2 ^ 40 + 32768 }
{
    if !words.is_empty() {
        return Status::Words;
    }
    match run_on(alloc, script, site) {
        Ok(()) => Status::Done,
        Err(stop) => end(alloc, stop, site),
    }
}
