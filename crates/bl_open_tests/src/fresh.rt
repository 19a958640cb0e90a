//! Openings of fresh folders.

use crate::folders::{empty_folder, holds, opening, told};
use crate::samples::CURRENT;
use bl_edit::Options;
use bl_open::create;
use std::test::Fail;

// The first manifest of a store of the default options.
const MANIFEST: &str =
    "90 7A 1B 93 3C 00 01 01 1A 6C 65 76 65 6C 64 62 2E 42 79 74 65 77 69 73 65 43 6F 6D 70 61 72 61 74 6F 72
    02 02 03 03 04 00 80 48 17 00 80 80 80 80 01 80 80 80 20 80 80 80 20 04 80 80 80 80 01 0A 19 64";

const DEFAULTS: Options = Options {
    min_blob_size: 0,
    blob_file_size: 268_435_456,
    write_buffer: 67_108_864,
    table_size: 67_108_864,
    level0_trigger: 4,
    level_base: 268_435_456,
    level_factor: 10,
    age_cutoff: 25,
    force_threshold: 100,
};

#[test]
fn a_store_is_created(rt: HostRuntime) -> Result<(), Fail> {
    let alloc = rt.alloc();
    let mut site = empty_folder(alloc)?;
    let answer = told(alloc, &create(alloc, &mut site, &DEFAULTS))?;
    assert_eq!(rt; answer.as_str(), "opened 1 2 3 0");
    assert!(rt; holds(alloc, &site, "CURRENT", CURRENT)?);
    assert!(rt; holds(alloc, &site, "MANIFEST-000001", MANIFEST)?);
    assert!(rt; holds(alloc, &site, "000002.log", "")?);
    assert_eq!(rt; site.list(alloc)?.len(), 3);
    Ok(())
}

#[test]
fn a_fresh_folder_is_opened(rt: HostRuntime) -> Result<(), Fail> {
    let alloc = rt.alloc();
    let mut site = empty_folder(alloc)?;
    assert_eq!(rt; opening(alloc, &mut site)?.as_str(), "opened 1 2 3 0");
    assert!(rt; holds(alloc, &site, "CURRENT", CURRENT)?);
    assert!(rt; holds(alloc, &site, "MANIFEST-000001", MANIFEST)?);
    assert!(rt; holds(alloc, &site, "000002.log", "")?);
    assert_eq!(rt; site.list(alloc)?.len(), 3);
    Ok(())
}
