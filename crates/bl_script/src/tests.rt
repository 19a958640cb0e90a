//! Each public call once, with ample memory.

use crate::{
    BlobLine, Command, Parsed, Refusal, TableLine, append_blob, append_pair, append_table,
    parse_line, print_refusal, print_value,
};
use std::test::Fail;

fn puts(parsed: &Parsed, key: &[u8], value: &[u8]) -> bool {
    match parsed {
        Parsed::Go(Command::Put { key: k, value: v }) => k.as_slice() == key
            && v.as_slice() == value,
        _ => false,
    }
}

fn scans_from(parsed: &Parsed, key: &[u8]) -> bool {
    match parsed {
        Parsed::Go(
            Command::Scan {
                from: Some(from),
                to: None,
            },
        ) => from.as_slice() == key,
        _ => false,
    }
}

fn batches(parsed: &Parsed, count: usize) -> bool {
    match parsed {
        Parsed::Go(Command::Batch { operations }) => operations.as_slice().len() == count,
        _ => false,
    }
}

#[test]
fn lines_are_parsed(rt: HostRuntime) -> Result<(), Fail> {
    assert!(rt; puts(&parse_line(rt.alloc(), b"put %41 =x%20y")?, b"A", b"x y"));
    assert!(rt; scans_from(&parse_line(rt.alloc(), b"scan a")?, b"a"));
    assert!(rt; batches(&parse_line(rt.alloc(), b"batch put a =1 del b")?, 2));
    Ok(())
}

#[test]
fn flush_and_files_are_parsed(rt: HostRuntime) -> Result<(), Fail> {
    assert!(rt;
        matches!(
            parse_line(rt.alloc(), b"flush")?,
            Parsed::Go(Command::Flush)
        )
    );
    assert!(rt;
        matches!(
            parse_line(rt.alloc(), b"files")?,
            Parsed::Go(Command::Files)
        )
    );
    assert!(rt;
        matches!(
            parse_line(rt.alloc(), b"flush a")?,
            Parsed::Refused(Refusal::Syntax)
        )
    );
    Ok(())
}

#[test]
fn keys_have_a_limit(rt: HostRuntime) -> Result<(), Fail> {
    for (verb, size, want) in [
        ("get ", 65_535, None),
        ("get ", 65_536, Some(Refusal::Key)),
        ("put a ", 9, Some(Refusal::Syntax)),
    ] {
        let mut line = Vec::from_slice(rt.alloc(), verb.as_bytes())?;
        let before = line.len();
        line.resize(before.saturating_add(size), b'k')?;
        let found = match parse_line(rt.alloc(), line.as_slice())? {
            Parsed::Refused(why) => Some(why),
            _ => None,
        };
        assert_eq!(rt; found, want, "{size} bytes behind {verb:?}");
    }
    Ok(())
}

#[test]
fn replies_are_printed(rt: HostRuntime) -> Result<(), Fail> {
    assert_eq!(rt; print_value(rt.alloc(), None)?.as_str(), "none\n");
    assert_eq!(rt;
        print_value(rt.alloc(), Some(b"\x00~ %".as_slice()))?.as_str(),
        "value =%00~%20%25\n"
    );
    let mut pairs = String::from_str(rt.alloc(), "pair 1 =2\n")?;
    append_pair(&mut pairs, b"a", b"\xff")?;
    assert_eq!(rt; pairs.as_str(), "pair 1 =2\npair a =%FF\n");
    assert_eq!(rt; print_refusal(Refusal::Key), b"refused key\n".as_slice());
    Ok(())
}

#[test]
fn files_are_printed(rt: HostRuntime) -> Result<(), Fail> {
    let mut lines = String::new(rt.alloc());
    let table = TableLine {
        level: 0,
        number: 4,
        size: 118,
        oldest: 5,
    };
    append_table(&mut lines, &table)?;
    let blob = BlobLine {
        number: 5,
        count: 3,
        bytes: 108,
        garbage_count: 2,
        garbage_bytes: 71,
        linked: 1,
    };
    append_blob(&mut lines, &blob)?;
    assert_eq!(rt;
        lines.as_str(),
        "table 0 4 118 5\nblob 5 total 3 108 garbage 2 71 linked 1\n"
    );
    Ok(())
}
