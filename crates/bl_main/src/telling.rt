//! What a run does over any script, site and stream of errors.
ghost use Rattle.std.specs.Prelude.{◌≡◌, ◌≢◌, ℕ, List, [], IfOk, OnOk};
ghost use Rattle.std.specs.Io.KnownBytes.{Appends};
ghost use Rattle.bl_site.specs.Causes.{Rose};
ghost use Rattle.bl_site.specs.Disk.{folder_of};
ghost use Rattle.bl_shell.specs.Telling.{HasRun};
ghost use Rattle.bl_main.specs.Logs.{AreLogsOf};
ghost use Rattle.bl_main.specs.Ends.{line_of};

use crate::advice::advice;
use crate::error::LookErr;
use crate::logs::{Logs, list_logs};
use bl_shell::{Status, run};
use bl_site::{Site, Source};
use std::alloc::Global;
use std::io::{self, Write};

/// Says in a line what happened and what to do about it, at each status but `Done`.
///
/// Errors: those of the stream, which may have taken a front of the line.
pub fn tell_advice<W: Write>(errors: &mut W, status: Status) -> io::Result<()>
    ensures silent { status ≡ Status.Done → errors.new ≡ errors.old }
    ensures said { OnOk result (status ≢ Status.Done → (text : List ℕ) × Appends (W.contents errors.old) (W.contents errors.new) (line_of text)) }
{
    let Some(text) = advice(status) else {
        return Ok(());
    };
    errors.write_all(b"blob_shell: ")?;
    errors.write_all(text.as_bytes())?;
    errors.write_all(b"\n")
}

/// Runs the script, and lists the logs that were there before.
pub fn obey<R: Source, S: Site>(
    alloc: Global,
    words: &[String],
    script: &mut R,
    site: &mut S,
) -> (Status, Result<Logs, LookErr>)
    ensures done { S.shows → R.shows → result.0 ≡ Status.Done → HasRun (folder_of (S.disk site.old)) (folder_of (S.disk site.new)) (R.left script.old) (S.told site.old) (S.told site.new) }
    ensures ended { R.shows → result.0 ≡ Status.Done → R.left script.new ≡ [] }
    ensures read { result.0 ≡ Status.ReadFault → Rose (R.faults script.old) (R.faults script.new) }
    ensures tell { result.0 ≡ Status.TellFault → Rose (S.tell_faults site.old) (S.tell_faults site.new) }
    ensures disk { result.0 ≡ Status.DiskFault → Rose (S.disk_faults site.old) (S.disk_faults site.new) }
    ensures logs { S.shows → IfOk result.1 (AreLogsOf (folder_of (S.disk site.old))) }
{
    let earlier = list_logs(alloc, site);
    let status = run(alloc, words, script, site);
    (status, earlier)
}
