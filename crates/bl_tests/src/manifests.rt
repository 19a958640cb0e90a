//! Edits that are written to a manifest, and what they restore.

ghost use Rattle.std.specs.Prelude.{IfOk};
ghost use Rattle.bl_edit.specs.Bounds.{IsEdit};

use bl_edit::{Edit, decode_edit};
use bl_manifest::{Manifest, ManifestErr, Restored, read_all};
use bl_site_mem::MemSite;
use std::alloc::Global;
use std::test::Fail;

// Comparator, log number 2, next file number 3, last sequence 0, and the default options: the first edit of a fresh folder.
const FIRST: [u8; 60] = [
    1, 26, b'l', b'e', b'v', b'e', b'l', b'd', b'b', b'.', b'B', b'y', b't', b'e', b'w', b'i',
    b's', b'e', b'C', b'o', b'm', b'p', b'a', b'r', b'a', b't', b'o', b'r', 2, 2, 3, 3, 4, 0, 0x80,
    0x48, 23, 0, 0x80, 0x80, 0x80, 0x80, 1, 0x80, 0x80, 0x80, 0x20, 0x80, 0x80, 0x80, 0x20, 4,
    0x80, 0x80, 0x80, 0x80, 1, 10, 25, 100,
];

// Log number 3, next file number 6, last sequence 1, the table 4 of level 0, and the blob file 5.
const FLUSHED: [u8; 44] = [
    2, 3, 3, 6, 4, 1, 0x67, 0, 4, 0x76, 9, 0x61, 0x11, 1, 0, 0, 0, 0, 0, 0, 9, 0x61, 0x11, 1, 0, 0,
    0, 0, 0, 0, 1, 1, 4, 1, 5, 1, 0x90, 3, 5, 1, 0x24, 0, 0, 0,
];

// The table 300 of level 1 is deleted.
const DELETION: [u8; 4] = [6, 1, 0xAC, 2];

// The next file numbers 10^15 and one more.
const GREATEST_NEXT: [u8; 9] = [3, 0x80, 0x80, 0x9A, 0xA6, 0xEA, 0xAF, 0xE3, 0x01];

const TOO_GREAT_NEXT: [u8; 9] = [3, 0x81, 0x80, 0x9A, 0xA6, 0xEA, 0xAF, 0xE3, 0x01];

const NAME: &str = "MANIFEST-000001";

fn failed(error: ManifestErr) -> Fail {
    match error {
        ManifestErr::Disk => Fail::from("disk"),
        ManifestErr::Corrupt(_, _) => Fail::from("corrupt"),
        ManifestErr::OutOfMemory => Fail::from("memory"),
    }
}

fn edit_of(alloc: Global, bytes: &[u8]) -> Result<Edit, Fail>
    ensures { IfOk result IsEdit }
{
    match decode_edit(alloc, bytes) {
        Ok(edit) => Ok(edit),
        Err(_) => Err(Fail::from("no edit")),
    }
}

fn first_edit(alloc: Global) -> Result<Edit, Fail>
    ensures { IfOk result IsEdit }
{
    edit_of(alloc, &FIRST)
}

fn flushed_edit(alloc: Global) -> Result<Edit, Fail>
    ensures { IfOk result IsEdit }
{
    edit_of(alloc, &FLUSHED)
}

// What the manifest restores.
fn restored(alloc: Global, site: &mut MemSite) -> Result<Restored, Fail> {
    match read_all(alloc, site, 1) {
        Ok(restored) => Ok(restored),
        Err(error) => Err(failed(error)),
    }
}

// The place at which the manifest is damaged.
fn place_in(alloc: Global, site: &mut MemSite) -> Option<u64> {
    match read_all(alloc, site, 1) {
        Err(ManifestErr::Corrupt(_, place)) => Some(place),
        Ok(_) => None,
        Err(ManifestErr::Disk) => None,
        Err(ManifestErr::OutOfMemory) => None,
    }
}

fn size_of(site: &MemSite, name: &str) -> Option<usize> {
    match site.file(name) {
        Some(bytes) => Some(bytes.len()),
        None => None,
    }
}

// A folder whose manifest begins with an edit.
fn with_first(alloc: Global, first: &Edit) -> Result<MemSite, Fail>
    requires { IsEdit first.now }
{
    let mut site = MemSite::start(alloc)?;
    Manifest::create(alloc, &mut site, 1, first).map_err(failed)?;
    Ok(site)
}

// A manifest of two edits is written.
fn write_edits(
    alloc: Global,
    site: &mut MemSite,
    first: &Edit,
    second: &Edit,
) -> Result<(), ManifestErr>
    requires first { IsEdit first.now }
    requires second { IsEdit second.now }
{
    let mut manifest = Manifest::create(alloc, site, 1, first)?;
    manifest.append(alloc, site, second)
}

// A folder whose manifest has two edits.
fn with_edits(alloc: Global, first: &Edit, second: &Edit) -> Result<MemSite, Fail>
    requires first { IsEdit first.now }
    requires second { IsEdit second.now }
{
    let mut site = MemSite::start(alloc)?;
    write_edits(alloc, &mut site, first, second).map_err(failed)?;
    Ok(site)
}

// A folder in whose manifest an edit follows the first one.
fn with_second(alloc: Global, bytes: &[u8]) -> Result<MemSite, Fail> {
    let first = first_edit(alloc)?;
    let second = edit_of(alloc, bytes)?;
    with_edits(alloc, &first, &second)
}

#[test]
fn the_first_manifest_of_a_fresh_folder(rt: HostRuntime) -> Result<(), Fail> {
    let first = first_edit(rt.alloc())?;
    let mut site = MemSite::start(rt.alloc())?;
    let manifest = Manifest::create(rt.alloc(), &mut site, 1, &first).map_err(failed)?;
    assert_eq!(rt; manifest.number(), 1);
    assert!(rt; !manifest.failed());
    assert_eq!(rt; size_of(&site, NAME), Some(67));
    Ok(())
}

#[test]
fn a_fresh_folder_is_restored(rt: HostRuntime) -> Result<(), Fail> {
    let first = first_edit(rt.alloc())?;
    let mut site = with_first(rt.alloc(), &first)?;
    let restored = restored(rt.alloc(), &mut site)?;
    assert_eq!(rt; restored.standing.log_number, 2);
    assert_eq!(rt; restored.standing.next_file, 3);
    assert_eq!(rt; restored.standing.last_sequence, 0);
    assert_eq!(rt; restored.standing.options.level0_trigger, 4);
    assert_eq!(rt; restored.version.blobs().len(), 0);
    Ok(())
}

#[test]
fn an_edit_more_is_restored(rt: HostRuntime) -> Result<(), Fail> {
    let mut site = with_second(rt.alloc(), &FLUSHED)?;
    assert_eq!(rt; size_of(&site, NAME), Some(67 + 7 + 44));
    let restored = restored(rt.alloc(), &mut site)?;
    assert_eq!(rt; restored.standing.log_number, 3);
    assert_eq!(rt; restored.standing.next_file, 6);
    assert_eq!(rt; restored.standing.last_sequence, 1);
    assert_eq!(rt; restored.standing.options.level0_trigger, 4);
    assert_eq!(rt; restored.version.tables(0).len(), 1);
    assert_eq!(rt; restored.version.blobs().len(), 1);
    Ok(())
}

// The last sequence that a cut leaves.
fn last_of_cut(alloc: Global, at: u64, keep: u64) -> Result<u64, Fail> {
    let site = with_second(alloc, &FLUSHED)?;
    let mut cut = site.cut(at, keep, None)?;
    let left = restored(alloc, &mut cut)?;
    Ok(left.standing.last_sequence)
}

#[test]
fn cuts_of_an_edit_more(rt: HostRuntime) -> Result<(), Fail> {
    // Cuts during the second append, before its sync, and behind it.
    for (at, keep, last) in [(4, 50, 0), (4, 51, 1), (5, 0, 1)] {
        assert_eq!(rt;
            last_of_cut(rt.alloc(), at, keep)?,
            last,
            "call {at}, {keep} bytes"
        );
    }
    Ok(())
}

// The place of the fault where this edit follows the first one.
fn place_behind(alloc: Global, bytes: &[u8]) -> Result<Option<u64>, Fail> {
    let mut site = with_second(alloc, bytes)?;
    Ok(place_in(alloc, &mut site))
}

#[test]
fn faults_behind_the_first_edit(rt: HostRuntime) -> Result<(), Fail> {
    assert_eq!(rt; place_behind(rt.alloc(), &DELETION)?, Some(67 + 7 + 4));
    assert_eq!(rt; place_behind(rt.alloc(), &GREATEST_NEXT)?, None);
    assert_eq!(rt;
        place_behind(rt.alloc(), &TOO_GREAT_NEXT)?,
        Some(67 + 7 + 9)
    );
    Ok(())
}

#[test]
fn faults_of_a_first_edit(rt: HostRuntime) -> Result<(), Fail> {
    let mut site = MemSite::start(rt.alloc())?;
    assert_eq!(rt; place_in(rt.alloc(), &mut site), Some(0));
    // Fields that are not known.
    let flushed = flushed_edit(rt.alloc())?;
    let mut site = with_first(rt.alloc(), &flushed)?;
    assert_eq!(rt; place_in(rt.alloc(), &mut site), Some(7 + 44));
    Ok(())
}

// The place of the fault of a manifest of these bytes.
fn place_of(alloc: Global, bytes: &[u8]) -> Result<Option<u64>, Fail> {
    let mut site = MemSite::start(alloc)?;
    site.put_file(NAME, bytes)?;
    Ok(place_in(alloc, &mut site))
}

#[test]
fn faults_of_a_record(rt: HostRuntime) -> Result<(), Fail> {
    // A record that is no edit, and one that is cut.
    let no_edit = [0x3D, 0x99, 0xF6, 0x99, 1, 0, 1, 5];
    assert_eq!(rt; place_of(rt.alloc(), &no_edit)?, Some(8));
    assert_eq!(rt; place_of(rt.alloc(), &no_edit[..7])?, Some(0));
    Ok(())
}

// Whether the first of two edits is not written where a call fails. Else the second one is not, and the manifest has failed.
fn first_of_two_is_lost(alloc: Global, call: u64, first: &Edit, second: &Edit) -> Result<bool, Fail>
    requires first { IsEdit first.now }
    requires second { IsEdit second.now }
{
    let mut site = MemSite::with_failures(alloc, &[call])?;
    let mut manifest = match Manifest::create(alloc, &mut site, 1, first) {
        Err(ManifestErr::Disk) => return Ok(true),
        Err(error) => return Err(failed(error)),
        Ok(manifest) => manifest,
    };
    match manifest.append(alloc, &mut site, second) {
        Err(ManifestErr::Disk) => {}
        Err(error) => return Err(failed(error)),
        Ok(()) => return Err(Fail::from("no failure")),
    }
    if !manifest.failed() {
        return Err(Fail::from("not failed"));
    }
    Ok(false)
}

fn first_is_lost(alloc: Global, call: u64) -> Result<bool, Fail> {
    let first = first_edit(alloc)?;
    let flushed = flushed_edit(alloc)?;
    first_of_two_is_lost(alloc, call, &first, &flushed)
}

#[test]
fn each_call_that_fails(rt: HostRuntime) -> Result<(), Fail> {
    for call in 1..6 {
        assert_eq!(rt; first_is_lost(rt.alloc(), call)?, call < 4, "call {call}");
    }
    Ok(())
}
