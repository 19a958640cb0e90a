//! Scripts, their replies, and the logs that they leave.

ghost use Rattle.std.specs.Prelude.{◌<◌};

mod cuts;
mod left;

use bl_shell::{Status, run};
use bl_site_mem::{MemSite, MemSource};
use std::alloc::Global;
use std::test::Fail;

// Runs a script on a site. The source hands out pieces of some bytes, and its calls of some numbers fail.
fn serve(
    alloc: Global,
    script: &[u8],
    piece: usize,
    failing: &[u64],
    site: &mut MemSite,
) -> Result<Status, Fail>
    requires { 0 < piece }
{
    let words = Vec::new(alloc);
    let mut source = MemSource::over(alloc, script, piece, failing)?;
    Ok(run(alloc, words.as_slice(), &mut source, site))
}

fn told(site: &MemSite, bytes: &[u8]) -> bool {
    site.told() == bytes
}

fn has_log(site: &MemSite, size: usize) -> bool {
    match site.file("000002.log") {
        Some(bytes) => bytes.len() == size,
        None => false,
    }
}

#[test]
fn put_and_get(rt: HostRuntime) -> Result<(), Fail> {
    for piece in [1, 9, 4096] {
        let mut site = MemSite::start(rt.alloc())?;
        let script = b"put a =xyz\nget a\nget b\n";
        let status = serve(rt.alloc(), script, piece.max(1), &[], &mut site)?;
        assert_eq!(rt; status, Status::Done, "pieces of {piece} bytes");
        assert!(rt; told(&site, b"ok\nvalue =xyz\nnone\n"));
        assert!(rt; has_log(&site, 26));
    }
    Ok(())
}

#[test]
fn empty_script(rt: HostRuntime) -> Result<(), Fail> {
    let mut site = MemSite::start(rt.alloc())?;
    let status = serve(rt.alloc(), b"", 9, &[], &mut site)?;
    assert_eq!(rt; status, Status::Done);
    assert_eq!(rt; status.number(), 0);
    assert!(rt; told(&site, b""));
    assert!(rt; has_log(&site, 0));
    Ok(())
}

#[test]
fn a_read_that_fails(rt: HostRuntime) -> Result<(), Fail> {
    // The source's second call fails: the first line is whole by then.
    let mut site = MemSite::start(rt.alloc())?;
    let status = serve(rt.alloc(), b"put a =1\nget a\n", 9, &[2], &mut site)?;
    assert_eq!(rt; status, Status::ReadFault);
    assert_eq!(rt; status.number(), 3);
    assert!(rt; told(&site, b"ok\n"));
    Ok(())
}

// The status's number of a script some call of whose site fails, and whether the replies are these bytes.
fn with_failure(alloc: Global, call: u64, replies: &[u8]) -> Result<(u8, bool), Fail> {
    let mut site = MemSite::with_failures(alloc, &[call])?;
    let status = serve(alloc, b"put a =1\nget a\n", 64, &[], &mut site)?;
    Ok((status.number(), told(&site, replies)))
}

#[test]
fn each_call_that_fails(rt: HostRuntime) -> Result<(), Fail> {
    // Of the calls of a site the first lists, the second makes the log, the third appends, the fourth and the fifth tell, and
    // the sixth syncs.
    for (call, want, bytes) in [
        (1, 5, b"".as_slice()),
        (2, 5, b"".as_slice()),
        (3, 5, b"".as_slice()),
        (4, 4, b"o".as_slice()),
        (5, 4, b"ok\nvalu".as_slice()),
        (6, 5, b"ok\nvalue =1\n".as_slice()),
    ] {
        assert_eq!(rt;
            with_failure(rt.alloc(), call, bytes)?,
            (want, true),
            "call {call}"
        );
    }
    Ok(())
}

// A site whose calls 5 and 11 fail. Its first run makes the log (2) and writes to it (3); the second reply (5) is not told, so
// that the log is not synced.
fn not_synced(alloc: Global) -> Result<MemSite, Fail> {
    let mut site = MemSite::with_failures(alloc, &[5, 11])?;
    let status = serve(alloc, b"put a =1\nget a\n", 64, &[], &mut site)?;
    if status != Status::TellFault {
        return Err(Fail::from("told"));
    }
    Ok(site)
}

#[test]
fn an_empty_script_whose_sync_fails(rt: HostRuntime) -> Result<(), Fail> {
    // The second run lists (6), syncs that log (7), replays it (8 and 9) and makes the next (10), whose sync fails (11).
    let mut site = not_synced(rt.alloc())?;
    let status = serve(rt.alloc(), b"", 64, &[], &mut site)?;
    assert_eq!(rt; status, Status::DiskFault);
    assert_eq!(rt; site.calls(), 11);
    assert_eq!(rt; site.file("000003.log"), Some(b"".as_slice()));
    Ok(())
}

#[test]
fn a_foreign_file_is_left_alone(rt: HostRuntime) -> Result<(), Fail> {
    // No store has this name.
    let mut site = MemSite::start(rt.alloc())?;
    site.put_file("z", b"\x00")?;
    let status = serve(rt.alloc(), b"get a\n", 9, &[], &mut site)?;
    assert_eq!(rt; status, Status::Done);
    assert!(rt; told(&site, b"none\n"));
    Ok(())
}

#[test]
fn a_file_that_is_no_log_is_told(rt: HostRuntime) -> Result<(), Fail> {
    // A store has both names, and the first one is told.
    let mut site = MemSite::start(rt.alloc())?;
    site.put_file("000004.sst", b"")?;
    site.put_file("000003.blob", b"\x00")?;
    let status = serve(rt.alloc(), b"get a\n", 9, &[], &mut site)?;
    assert_eq!(rt; status, Status::Corrupt);
    assert_eq!(rt; status.number(), 7);
    assert!(rt; told(&site, b"error corrupt 000003.blob 0\n"));
    assert_eq!(rt; site.file("000002.log"), None);
    Ok(())
}

// A script that opens its store again, twice, read in pieces of some bytes.
fn reopened(alloc: Global, piece: usize, site: &mut MemSite) -> Result<Status, Fail>
    requires { 0 < piece }
{
    let script =
        b"put a =1\nreopen\ndel a\nget a\nreopen\nget a\nbatch put b =2 put c = del b\nsync\nscan";
    serve(alloc, script, piece, &[], site)
}

#[test]
fn reopenings(rt: HostRuntime) -> Result<(), Fail> {
    for piece in [1, 7, 4096] {
        let mut site = MemSite::start(rt.alloc())?;
        let status = reopened(rt.alloc(), piece.max(1), &mut site)?;
        assert_eq!(rt; status, Status::Done, "pieces of {piece} bytes");
        assert!(rt;
            told(
                &site,
                b"ok\nok\nok\nnone\nok\nnone\nok\nok\npair c =\nend\n"
            )
        );
        assert!(rt; has_log(&site, 24));
    }
    Ok(())
}

#[test]
fn the_next_run_reads_what_reopenings_left(rt: HostRuntime) -> Result<(), Fail> {
    for piece in [1, 7, 4096] {
        let mut site = MemSite::start(rt.alloc())?;
        reopened(rt.alloc(), piece.max(1), &mut site)?;
        let status = serve(rt.alloc(), b"scan\n", 4096, &[], &mut site)?;
        assert_eq!(rt; status, Status::Done);
    }
    Ok(())
}

#[test]
fn the_last_log(rt: HostRuntime) -> Result<(), Fail> {
    let mut site = MemSite::start(rt.alloc())?;
    site.put_file("999999999999999.log", b"")?;
    let status = serve(rt.alloc(), b"put a =1\n", 9, &[], &mut site)?;
    assert_eq!(rt; status, Status::Full);
    assert_eq!(rt; status.number(), 8);
    assert!(rt; told(&site, b"error full 1000000000000000\n"));
    Ok(())
}

#[test]
fn words(rt: HostRuntime) -> Result<(), Fail> {
    let mut words = Vec::new(rt.alloc());
    words.push(String::from_str(rt.alloc(), "--load")?)?;
    let mut source = MemSource::over(rt.alloc(), b"get a\n", 9, &[])?;
    let mut site = MemSite::start(rt.alloc())?;
    let status = run(rt.alloc(), words.as_slice(), &mut source, &mut site);
    assert_eq!(rt; status, Status::Words);
    assert_eq!(rt; site.calls(), 0);
    Ok(())
}
