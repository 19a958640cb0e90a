// Names from outside, and each call once.

use crate::{FileName, parse_current, parse_name, print_current, print_name};
use std::test::Fail;

#[test]
fn names_are_parsed(rt: HostRuntime) -> Result<(), Fail> {
    assert_eq!(rt; parse_name("CURRENT"), Some(FileName::Current));
    assert_eq!(rt; parse_name("MANIFEST-000005"), Some(FileName::Manifest(5)));
    assert_eq!(rt; parse_name("1000000.blob"), Some(FileName::Blob(1_000_000)));
    assert_eq!(rt;
        parse_name("999999999999999.log"),
        Some(FileName::Log(999_999_999_999_999))
    );
    assert_eq!(rt; parse_name("000012.dbtmp"), Some(FileName::Temp(12)));
    Ok(())
}

#[test]
fn foreign_names_are_none(rt: HostRuntime) -> Result<(), Fail> {
    assert_eq!(rt; parse_name("5.log"), None);
    assert_eq!(rt; parse_name("000000.log"), None);
    assert_eq!(rt; parse_name("0000012.sst"), None);
    assert_eq!(rt; parse_name("1000000000000000.log"), None);
    assert_eq!(rt; parse_name("LOCK"), None);
    Ok(())
}

#[test]
fn names_are_printed(rt: HostRuntime) -> Result<(), Fail> {
    let name = print_name(rt.alloc(), &FileName::Table(12))?;
    assert_eq!(rt; name.as_str(), "000012.sst");
    let name = print_name(rt.alloc(), &FileName::Manifest(1_234_567))?;
    assert_eq!(rt; name.as_str(), "MANIFEST-1234567");
    Ok(())
}

#[test]
fn texts_of_current(rt: HostRuntime) -> Result<(), Fail> {
    let text = print_current(rt.alloc(), 1)?;
    assert_eq!(rt; text.as_slice(), b"MANIFEST-000001\n".as_slice());
    assert_eq!(rt; parse_current(text.as_slice()), Some(1));
    assert_eq!(rt; parse_current(b"MANIFEST-000005"), None);
    Ok(())
}
