//! What a script leaves once the power is cut.

use super::{not_synced, serve, told};
use bl_shell::Status;
use bl_site_mem::MemSite;
use std::alloc::Global;
use std::test::Fail;

// Whether a scan of what a cut leaves comes to its end, and tells these bytes.
fn scan_tells(
    alloc: Global,
    site: &MemSite,
    at: u64,
    keep: u64,
    fill: Option<u8>,
    want: &[u8],
) -> Result<bool, Fail> {
    let mut cut = site.cut(at, keep, fill)?;
    let status = serve(alloc, b"scan\n", 64, &[], &mut cut)?;
    Ok(status == Status::Done && told(&cut, want))
}

// Whether a scan tells these bytes after a cut, whether or not other bytes follow those that are kept.
fn scans_tell(
    alloc: Global,
    site: &MemSite,
    at: u64,
    keep: u64,
    want: &[u8],
) -> Result<bool, Fail> {
    if !scan_tells(alloc, site, at, keep, None, want)? {
        return Ok(false);
    }
    scan_tells(alloc, site, at, keep, Some(0x5A), want)
}

// A site on which a script was run to its end.
fn done(alloc: Global, script: &[u8]) -> Result<MemSite, Fail> {
    let mut site = MemSite::start(alloc)?;
    let status = serve(alloc, script, 64, &[], &mut site)?;
    if status != Status::Done {
        return Err(Fail::from("the script fails"));
    }
    Ok(site)
}

// A script with a sync. The calls: the names and the log, a write and a reply twice, the sync and its reply (7 and 8), a
// write and its reply (9 and 10), and the sync at the script's end.
fn with_a_sync(alloc: Global) -> Result<MemSite, Fail> {
    done(alloc, b"put a =1\nput b =2\nsync\nput c =3\n")
}

// What a scan tells after a cut of that script.
fn left_by_sync(at: u64, keep: u64) -> &'static [u8] {
    let whole = at == 11 || at > 8 && keep == 100;
    if whole {
        b"pair a =1\npair b =2\npair c =3\nend\n"
    } else {
        b"pair a =1\npair b =2\nend\n"
    }
}

fn sync_is_left(alloc: Global, at: u64, keep: u64) -> Result<bool, Fail> {
    let site = with_a_sync(alloc)?;
    scans_tell(alloc, &site, at, keep, left_by_sync(at, keep))
}

#[test]
fn cuts_after_a_sync(rt: HostRuntime) -> Result<(), Fail> {
    assert_eq!(rt; with_a_sync(rt.alloc())?.calls(), 11);
    for at in 7..12 {
        for keep in [0, 1, 100] {
            assert!(rt;
                sync_is_left(rt.alloc(), at, keep)?,
                "call {at}, {keep} bytes"
            );
        }
    }
    Ok(())
}

// A script that opens its store again. The calls: the names and the log, a write (3) and its reply; the names again, the sync
// of the log (6), two calls of its replay, the next log and the reply (10); a write (11) and its reply, and the sync at the
// script's end (13).
fn with_a_reopening(alloc: Global) -> Result<MemSite, Fail> {
    done(alloc, b"put a =1\nreopen\nput b =2\n")
}

// What a scan tells after a cut of that script.
fn left_by_reopening(at: u64, keep: u64) -> &'static [u8] {
    let first = at > 5 || at > 2 && keep == 100;
    let second = at > 12 || at > 10 && keep == 100;
    if second {
        b"pair a =1\npair b =2\nend\n"
    } else if first {
        b"pair a =1\nend\n"
    } else {
        b"end\n"
    }
}

fn reopening_is_left(alloc: Global, at: u64, keep: u64) -> Result<bool, Fail> {
    let site = with_a_reopening(alloc)?;
    scans_tell(alloc, &site, at, keep, left_by_reopening(at, keep))
}

#[test]
fn cuts_of_a_reopening(rt: HostRuntime) -> Result<(), Fail> {
    assert_eq!(rt; with_a_reopening(rt.alloc())?.calls(), 13);
    for at in 0..15 {
        for keep in [0, 1, 100] {
            assert!(rt;
                reopening_is_left(rt.alloc(), at, keep)?,
                "call {at}, {keep} bytes"
            );
        }
    }
    Ok(())
}

// Whether a scan tells these bytes after a cut of a script whose next run, with an empty script, fails at its sync.
fn failed_sync_leaves(alloc: Global, at: u64, want: &[u8]) -> Result<bool, Fail> {
    let mut site = not_synced(alloc)?;
    let status = serve(alloc, b"", 64, &[], &mut site)?;
    if status != Status::DiskFault {
        return Err(Fail::from("no fault"));
    }
    scan_tells(alloc, &site, at, 0, None, want)
}

#[test]
fn cuts_of_an_empty_script_whose_sync_fails(rt: HostRuntime) -> Result<(), Fail> {
    for (at, want) in [
        (6, b"end\n".as_slice()),
        (10, b"pair a =1\nend\n".as_slice()),
        (11, b"pair a =1\nend\n".as_slice()),
    ] {
        assert!(rt; failed_sync_leaves(rt.alloc(), at, want)?, "call {at}");
    }
    Ok(())
}
