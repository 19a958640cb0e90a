//! Words and lines.

use crate::{option_name, parse_words, print_corrupt, print_differ, print_full};
use bl_open::Asked;
use std::alloc::Global;
use std::test::Fail;

// What two words ask for.
fn asked_by(alloc: Global, word: &str, text: &str) -> Result<Option<Asked>, Fail> {
    let mut words = Vec::new(alloc);
    words.push(String::from_str(alloc, word)?)?;
    words.push(String::from_str(alloc, text)?)?;
    Ok(parse_words(words.as_slice()))
}

#[test]
fn words_are_parsed(rt: HostRuntime) -> Result<(), Fail> {
    let asked = asked_by(rt.alloc(), "--write-buffer", "04096")?.ok_or("refused")?;
    assert_eq!(rt; asked.write_buffer, Some(4096));
    assert_eq!(rt; asked.table_size, None);
    Ok(())
}

#[test]
fn words_are_refused(rt: HostRuntime) -> Result<(), Fail> {
    assert!(rt; asked_by(rt.alloc(), "--age-cutoff", "100")?.is_some());
    assert!(rt; asked_by(rt.alloc(), "--age-cutoff", "101")?.is_none());
    assert!(rt; asked_by(rt.alloc(), "--write-buffer", "+1")?.is_none());
    assert!(rt; asked_by(rt.alloc(), "write-buffer", "1")?.is_none());
    Ok(())
}

#[test]
fn lines_are_printed(rt: HostRuntime) -> Result<(), Fail> {
    let corrupt = print_corrupt(rt.alloc(), b"000004.sst", 0)?;
    assert_eq!(rt;
        corrupt.as_slice(),
        b"error corrupt 000004.sst 0\n".as_slice()
    );
    assert_eq!(rt; print_full(rt.alloc(), 7)?.as_str(), "error full 7\n");
    assert_eq!(rt;
        print_differ(rt.alloc(), 1, 3, 4)?.as_str(),
        "error differ min-blob-size 3 4\n"
    );
    assert_eq!(rt; option_name(9), "force-threshold");
    Ok(())
}
