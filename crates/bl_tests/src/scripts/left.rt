//! What a run leaves that does not end well: the folder has each write that was accepted.

use crate::scripts::serve;
use bl_site_mem::MemSite;
use std::alloc::Global;
use std::test::Fail;

// The bytes of a log, where it is there.
fn size_of(site: &MemSite, name: &str) -> Option<usize> {
    match site.file(name) {
        Some(bytes) => Some(bytes.len()),
        None => None,
    }
}

// The status's number of a script of which a call of the site or of the source fails, if its number is not 0, and the bytes that its log then has.
fn left(alloc: Global, call: u64, read: u64) -> Result<(u8, Option<usize>), Fail> {
    let mut site = MemSite::with_failures(alloc, &[call])?;
    let status = serve(alloc, b"put a =1\nput b =2\nget a\n", 9, &[read], &mut site)?;
    Ok((status.number(), size_of(&site, "000002.log")))
}

#[test]
fn a_write_stands_whose_reply_fails(rt: HostRuntime) -> Result<(), Fail> {
    // The third call appends the first write, 24 bytes, and the fourth tells its reply; the fifth and the sixth do the same for the second.
    for (call, want) in [(4, 24), (6, 48), (7, 48)] {
        assert_eq!(rt; left(rt.alloc(), call, 0)?, (4, Some(want)), "call {call}");
    }
    Ok(())
}

#[test]
fn writes_stand_before_a_read_that_fails(rt: HostRuntime) -> Result<(), Fail> {
    // Each read gives a line.
    for (read, want) in [(1, 0), (2, 24), (3, 48)] {
        assert_eq!(rt; left(rt.alloc(), 0, read)?, (3, Some(want)), "read {read}");
    }
    Ok(())
}

#[test]
fn writes_stand_before_a_limit(rt: HostRuntime) -> Result<(), Fail> {
    // The next log has the greatest number.
    let mut site = MemSite::start(rt.alloc())?;
    site.put_file("999999999999998.log", b"")?;
    let status = serve(rt.alloc(), b"put a =1\nreopen\n", 64, &[], &mut site)?;
    assert_eq!(rt; status.number(), 8);
    assert_eq!(rt;
        site.told(),
        b"ok\nerror full 1000000000000000\n".as_slice()
    );
    assert_eq!(rt; size_of(&site, "999999999999999.log"), Some(24));
    Ok(())
}

// A put of a value of 20,000 bytes to each of four keys, and then a scan: four pairs of 20,009 bytes.
fn long_pairs(alloc: Global) -> Result<Vec<u8>, Fail> {
    let mut script = Vec::new(alloc);
    for key in *b"abcd" {
        script.extend_from_slice(b"put ")?;
        script.push(key)?;
        script.extend_from_slice(b" =")?;
        let size = script.len().saturating_add(20_000);
        script.resize(size, b'x')?;
        script.push(b'\n')?;
    }
    script.extend_from_slice(b"scan\n")?;
    Ok(script)
}

// The status's number of that scan where a call fails, if its number is not 0, and how many bytes are told.
fn scanned(alloc: Global, call: u64) -> Result<(u8, usize), Fail> {
    let mut site = MemSite::with_failures(alloc, &[call])?;
    let script = long_pairs(alloc)?;
    let status = serve(alloc, script.as_slice(), 4096, &[], &mut site)?;
    Ok((status.number(), site.told().len()))
}

#[test]
fn pairs_are_told_in_pieces(rt: HostRuntime) -> Result<(), Fail> {
    // Ten calls before the scan: then two pairs, two pairs, and the last line. A call that fails tells half of its bytes.
    for (call, want, bytes) in [
        (11, 4, 20_021),
        (12, 4, 60_039),
        (13, 4, 80_050),
        (14, 5, 80_052),
        (0, 0, 80_052),
    ] {
        assert_eq!(rt; scanned(rt.alloc(), call)?, (want, bytes), "call {call}");
    }
    Ok(())
}
