// What no clause says in bytes: the folders of some cuts, and the halves of failing calls.
use crate::{MemSite, MemSource};
use bl_site::{Site, SiteErr, Source, SourceErr};
use std::test::Fail;

fn failed(error: SiteErr) -> Fail {
    match error {
        SiteErr::DiskFailed => Fail::from("disk"),
        SiteErr::TellFailed => Fail::from("tell"),
        SiteErr::OutOfMemory => Fail::from("memory"),
    }
}

fn holds(site: &MemSite, name: &str, bytes: &[u8]) -> bool {
    match site.file(name) {
        Some(found) => found == bytes,
        None => false,
    }
}

#[test]
fn a_cut_keeps_the_synced_bytes_and_some_of_the_tail(rt: HostRuntime) -> Result<(), Fail> {
    let mut site = MemSite::start(rt.alloc()).map_err(failed)?;
    site.create("a").map_err(failed)?;
    site.append("a", b"wxyz").map_err(failed)?;
    site.sync("a").map_err(failed)?;
    site.append("a", b"1234").map_err(failed)?;
    assert_eq!(rt; site.calls(), 4);
    assert!(rt; holds(&site.cut(4, 0, None).map_err(failed)?, "a", b"wxyz"));
    assert!(rt; holds(&site.cut(4, 1, None).map_err(failed)?, "a", b"wxyz1"));
    assert!(rt; holds(&site.cut(9, 100, None).map_err(failed)?, "a", b"wxyz1234"));
    assert!(rt;
        holds(
            &site.cut(4, 0, Some(0x5A)).map_err(failed)?,
            "a",
            b"wxyzZZZZ"
        )
    );
    assert!(rt;
        holds(
            &site.cut(4, 1, Some(0x5A)).map_err(failed)?,
            "a",
            b"wxyz1ZZZ"
        )
    );
    assert!(rt;
        holds(
            &site.cut(4, 100, Some(0x5A)).map_err(failed)?,
            "a",
            b"wxyz1234"
        )
    );
    assert!(rt; holds(&site.cut(2, 0, None).map_err(failed)?, "a", b""));
    assert!(rt; holds(&site.cut(3, 0, None).map_err(failed)?, "a", b"wxyz"));
    let none = site.cut(0, 100, None).map_err(failed)?;
    assert!(rt; none.file("a").is_none());
    Ok(())
}

#[test]
fn a_cut_is_a_site_of_its_own(rt: HostRuntime) -> Result<(), Fail> {
    let mut site = MemSite::with_failures(rt.alloc(), &[2]).map_err(failed)?;
    site.put_file("b", b"old").map_err(failed)?;
    site.tell(b"hello").map_err(failed)?;
    assert!(rt; holds(&site.cut(0, 0, None).map_err(failed)?, "b", b"old"));
    let mut cut = site.cut(1, 0, None).map_err(failed)?;
    assert_eq!(rt; cut.calls(), 0);
    assert_eq!(rt; cut.told(), b"".as_slice());
    cut.tell(b"1").map_err(failed)?;
    cut.tell(b"2").map_err(failed)?;
    assert_eq!(rt; cut.told(), b"12".as_slice());
    Ok(())
}

#[test]
fn a_failing_append_appends_its_first_half(rt: HostRuntime) -> Result<(), Fail> {
    let mut site = MemSite::with_failures(rt.alloc(), &[2]).map_err(failed)?;
    site.create("a").map_err(failed)?;
    assert_eq!(rt; site.append("a", b"vwxyz"), Err(SiteErr::DiskFailed));
    assert!(rt; holds(&site, "a", b"vw"));
    assert_eq!(rt; site.calls(), 2);
    Ok(())
}

#[test]
fn failing_calls_of_other_kinds(rt: HostRuntime) -> Result<(), Fail> {
    let mut site = MemSite::with_failures(rt.alloc(), &[1, 2, 4]).map_err(failed)?;
    assert_eq!(rt; site.create("a"), Err(SiteErr::DiskFailed));
    assert!(rt; site.file("a").is_none());
    assert_eq!(rt; site.tell(b"hello"), Err(SiteErr::TellFailed));
    assert_eq!(rt; site.told(), b"he".as_slice());
    assert_eq!(rt; site.len("a"), Ok(None));
    assert_eq!(rt; site.len("a"), Err(SiteErr::DiskFailed));
    assert_eq!(rt; site.calls(), 4);
    Ok(())
}

#[test]
fn names_are_renamed_removed_and_listed(rt: HostRuntime) -> Result<(), Fail> {
    let alloc = rt.alloc();
    let mut site = MemSite::start(alloc).map_err(failed)?;
    site.create("a").map_err(failed)?;
    site.append("a", b"123").map_err(failed)?;
    site.rename("a", "b").map_err(failed)?;
    site.create("c").map_err(failed)?;
    site.remove("c").map_err(failed)?;
    let names = site.list(alloc).map_err(failed)?;
    assert_eq!(rt; names.len(), 1);
    assert_eq!(rt; site.len("b"), Ok(Some(3)));
    let mut into = [0; 2];
    assert_eq!(rt; site.read_at("b", 1, &mut into), Ok(Some(2)));
    assert_eq!(rt; into, [b'2', b'3']);
    assert_eq!(rt; site.read_at("b", 2, &mut into), Ok(Some(1)));
    assert_eq!(rt; site.read_at("a", 0, &mut into), Ok(None));
    Ok(())
}

#[test]
fn a_source_gives_pieces(rt: HostRuntime) -> Result<(), Fail> {
    let mut source = MemSource::over(rt.alloc(), b"abcde", 3, &[2]).map_err(failed)?;
    let mut into = [0; 8];
    assert_eq!(rt; source.read(&mut into), Ok(3));
    assert_eq!(rt; source.read(&mut into), Err(SourceErr::Failed));
    assert_eq!(rt; source.read(&mut into), Ok(2));
    assert_eq!(rt; into[1], b'e');
    assert_eq!(rt; source.read(&mut into), Ok(0));
    Ok(())
}
