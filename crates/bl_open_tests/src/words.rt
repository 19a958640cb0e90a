//! Openings that ask for options.

use crate::folders::{NOTHING, are_same, empty_folder, holds, told};
use crate::samples::Change::{self, Absent, Front, Whole};
use crate::samples::{FIRST_EDIT, damaged};
use bl_open::{Asked, recover};
use std::alloc::Global;
use std::test::Fail;

// Values of at least 3 bytes go to blob files; the other options are the defaults.
const STORED: Asked = Asked {
    min_blob_size: Some(3),
    blob_file_size: Some(268_435_456),
    write_buffer: Some(67_108_864),
    table_size: Some(67_108_864),
    level0_trigger: Some(4),
    level_base: Some(268_435_456),
    level_factor: Some(10),
    age_cutoff: Some(25),
    force_threshold: Some(100),
};

// What an opening of a store with these options answers, and whether the folder reads as before then.
fn asked_of(
    alloc: Global,
    changes: &[(&str, Change)],
    asked: &Asked,
) -> Result<(String, bool), Fail> {
    let mut site = damaged(alloc, changes)?;
    let mut before = site.cut(u64::MAX, u64::MAX, None)?;
    let answer = told(alloc, &recover(alloc, &mut site, asked))?;
    let same = are_same(alloc, &mut before, &mut site)?;
    Ok((answer, same))
}

// Options that differ from the stored ones, and what is answered.
const DIFFERENT: [(Asked, &str); 10] = [
    (
        Asked {
            min_blob_size: Some(4),
            ..STORED
        },
        "differ 1 3 4",
    ),
    (
        Asked {
            blob_file_size: Some(1),
            ..STORED
        },
        "differ 2 268435456 1",
    ),
    (
        Asked {
            write_buffer: Some(2),
            ..STORED
        },
        "differ 3 67108864 2",
    ),
    (
        Asked {
            table_size: Some(1_099_511_627_776),
            ..STORED
        },
        "differ 4 67108864 1099511627776",
    ),
    (
        Asked {
            level0_trigger: Some(1000),
            ..STORED
        },
        "differ 5 4 1000",
    ),
    (
        Asked {
            level_base: Some(1),
            ..STORED
        },
        "differ 6 268435456 1",
    ),
    (
        Asked {
            level_factor: Some(20),
            ..STORED
        },
        "differ 7 10 20",
    ),
    (
        Asked {
            age_cutoff: Some(0),
            ..STORED
        },
        "differ 8 25 0",
    ),
    (
        Asked {
            force_threshold: Some(99),
            ..STORED
        },
        "differ 9 100 99",
    ),
    // Two that differ.
    (
        Asked {
            blob_file_size: Some(1),
            force_threshold: Some(99),
            ..NOTHING
        },
        "differ 2 268435456 1",
    ),
];

#[test]
fn each_option_that_differs(rt: HostRuntime) -> Result<(), Fail> {
    let alloc = rt.alloc();
    for (asked, want) in DIFFERENT {
        let (answer, same) = asked_of(alloc, &[], &asked)?;
        assert_eq!(rt; answer.as_str(), want);
        assert!(rt; same);
    }
    Ok(())
}

#[test]
fn the_stored_options(rt: HostRuntime) -> Result<(), Fail> {
    let alloc = rt.alloc();
    let (answer, _) = asked_of(alloc, &[], &STORED)?;
    assert_eq!(rt; answer.as_str(), "opened 6 7 8 1");
    Ok(())
}

#[test]
fn options_and_damage(rt: HostRuntime) -> Result<(), Fail> {
    let alloc = rt.alloc();
    let asked = Asked {
        min_blob_size: Some(4),
        ..NOTHING
    };
    for (name, change, want) in [
        ("CURRENT", Whole(""), "corrupt CURRENT 0"),
        ("MANIFEST-000001", Front(60), "corrupt MANIFEST-000001 0"),
        ("000004.sst", Absent, "differ 1 3 4"),
        (
            "000003.log",
            Whole("F2 70 E8 9D 03 00 01 61 62 63"),
            "differ 1 3 4",
        ),
    ] {
        let (answer, same) = asked_of(alloc, &[(name, change)], &asked)?;
        assert_eq!(rt; answer.as_str(), want, "{name}");
        assert!(rt; same);
    }
    Ok(())
}

#[test]
fn a_new_store_keeps_the_options(rt: HostRuntime) -> Result<(), Fail> {
    let alloc = rt.alloc();
    let asked = Asked {
        min_blob_size: Some(3),
        ..NOTHING
    };
    let mut site = empty_folder(alloc)?;
    let answer = told(alloc, &recover(alloc, &mut site, &asked))?;
    assert_eq!(rt; answer.as_str(), "opened 1 2 3 0");
    assert!(rt; holds(alloc, &site, "MANIFEST-000001", FIRST_EDIT)?);
    Ok(())
}
