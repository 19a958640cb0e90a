//! The first number that an opening takes: behind each name of the store's forms.

use crate::folders::{folder, opening, put, refusal};
use crate::samples::ONE_BLOB;
use std::test::Fail;

#[test]
fn numbers_in_fresh_folders(rt: HostRuntime) -> Result<(), Fail> {
    let alloc = rt.alloc();
    for (name, text, want) in [
        ("000009.log", "", "opened 10 11 12 0"),
        ("000007.dbtmp", "00", "opened 8 9 10 0"),
        ("MANIFEST-000012", "00", "opened 13 14 15 0"),
        ("1000000.log", "", "opened 1000001 1000002 1000003 0"),
        (
            "999999999999997.dbtmp",
            "",
            "opened 999999999999998 999999999999999 1000000000000000 0",
        ),
        // Names of no such form.
        ("5.log", "00", "opened 1 2 3 0"),
        ("000000.log", "00", "opened 1 2 3 0"),
        ("0000012.sst", "00", "opened 1 2 3 0"),
        ("1000000000000000.blob", "00", "opened 1 2 3 0"),
        ("LOCK", "", "opened 1 2 3 0"),
    ] {
        let mut site = folder(alloc, &[(name, text)])?;
        assert_eq!(rt; opening(alloc, &mut site)?.as_str(), want, "{name}");
    }
    Ok(())
}

#[test]
fn numbers_in_a_store(rt: HostRuntime) -> Result<(), Fail> {
    let alloc = rt.alloc();
    for (name, text, want) in [
        ("000009.log", "", "opened 10 11 12 1"),
        ("000007.dbtmp", "", "opened 8 9 10 1"),
        ("MANIFEST-000011", "00", "opened 12 13 14 1"),
        ("000020.sst", "00", "opened 21 22 23 1"),
        ("000030.blob", "", "opened 31 32 33 1"),
        ("000002.dbtmp", "", "opened 6 7 8 1"),
        ("5.log", "00", "opened 6 7 8 1"),
    ] {
        let mut site = folder(alloc, &ONE_BLOB)?;
        put(alloc, &mut site, name, text)?;
        assert_eq!(rt; opening(alloc, &mut site)?.as_str(), want, "{name}");
    }
    Ok(())
}

#[test]
fn no_number_is_left(rt: HostRuntime) -> Result<(), Fail> {
    let alloc = rt.alloc();
    for name in ["999999999999998.dbtmp", "MANIFEST-999999999999999"] {
        let mut site = folder(alloc, &[(name, "")])?;
        let (answer, same) = refusal(alloc, &mut site)?;
        assert_eq!(rt; answer.as_str(), "full 1000000000000000", "{name}");
        assert!(rt; same);
    }
    Ok(())
}

#[test]
fn folders_that_are_not_fresh(rt: HostRuntime) -> Result<(), Fail> {
    let alloc = rt.alloc();
    for (first, second, want) in [
        ("000004.sst", "LOCK", "corrupt 000004.sst 0"),
        ("000005.blob", "000004.sst", "corrupt 000004.sst 0"),
        ("000005.blob", "000003.log", "corrupt 000003.log 0"),
        ("1000000.sst", "200000.log", "corrupt 1000000.sst 0"),
    ] {
        let mut site = folder(alloc, &[(first, "00"), (second, "00"), ("000001.log", "")])?;
        let (answer, same) = refusal(alloc, &mut site)?;
        assert_eq!(rt; answer.as_str(), want);
        assert!(rt; same);
    }
    Ok(())
}
