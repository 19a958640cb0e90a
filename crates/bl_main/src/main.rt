//! `blob_shell`: a script on standard input, its replies on standard output, and the store in the current folder.
#![tactic(auto)]

mod advice;
mod error;
mod logs;
mod telling;

use bl_shell::Status;
use bl_site::Site;
use bl_site_host::{FolderLock, HostDoor, HostSite, HostSource, Streams};
use error::LookErr;
use logs::{Logs, early_ends, list_logs};
use std::env;
use std::io::{self, IsTerminal};
use std::process::ExitCode;
use telling::{obey, tell_advice};

fn main(rt: HostRuntime) -> ExitCode {
    let status = match start(&rt) {
        Ok(status) => status,
        Err(error) => {
            let status = match error.kind() {
                // A word that is no UTF-8 is a word too.
                io::ErrorKind::InvalidData => Status::Words,
                _ => Status::OutOfMemory,
            };
            let _ = tell_advice(&mut io::writer(&rt.stderr()), status);
            status
        }
    };
    ExitCode::from(status.number())
}

fn start(rt: &HostRuntime) -> io::Result<Status> {
    let mut words = Vec::new(rt.alloc());
    for word in env::args(rt)?.skip(1) {
        words.push(word)?;
    }
    if !words.is_empty() {
        let _ = tell_advice(&mut io::writer(&rt.stderr()), Status::Words);
        return Ok(Status::Words);
    }
    let mut door = HostDoor::new(rt.clone()?);
    let _streams = match Streams::guard(&mut door) {
        Ok(streams) => streams,
        Err(error) => {
            let _ = eprintln!(rt; "blob_shell: the folder cannot be opened: {error}");
            return Ok(Status::DiskFault);
        }
    };
    let lock = match FolderLock::take(&mut door) {
        Ok(lock) => lock,
        Err(error) => {
            let _ = eprintln!(rt; "blob_shell: {error}");
            return Ok(Status::DiskFault);
        }
    };
    serve(rt, words.as_slice(), &lock)
}

// Runs the script on the folder, which this process has for itself as long as it keeps the lock.
fn serve(
    rt: &HostRuntime,
    words: &[String],
    _lock: &FolderLock<HostDoor<HostRuntime>>,
) -> io::Result<Status> {
    if rt.stdin().is_terminal() {
        let _ = eprintln!(rt; "end with Ctrl-D; `sync` makes writes durable");
    }
    let mut script = HostSource::start(rt.stdin());
    let mut site = HostSite::start(rt.clone()?, rt.stdout());
    let (status, earlier) = obey(rt.alloc(), words, &mut script, &mut site);
    if let Some(failure) = site.last_failure() {
        let _ = eprintln!(rt; "blob_shell: {failure}");
    }
    if let Some(error) = script.last_failure() {
        let _ = eprintln!(rt; "blob_shell: read standard input: {error}");
    }
    let _ = tell_advice(&mut io::writer(&rt.stderr()), status);
    // A log that this run made is as it was written, where the run ended well: it is not read again.
    let logs = match status {
        Status::Done => earlier,
        _ => list_logs(rt.alloc(), &mut site),
    };
    if let Err(error) = tell_early_ends(rt, &mut site, logs) {
        let _ = eprintln!(rt; "blob_shell: not every log was looked through: {error}");
    }
    Ok(status)
}

// Names each log whose reading ends before its bytes do.
fn tell_early_ends<S: Site>(
    rt: &HostRuntime,
    site: &mut S,
    logs: Result<Logs, LookErr>,
) -> Result<(), LookErr> {
    let logs = logs?;
    for end in early_ends(rt.alloc(), site, &logs)?.iter() {
        let _ = eprintln!(rt; "blob_shell: {end}");
    }
    Ok(())
}
