//! The checks of the files that a version names, in order of number. Of each file only its length and its ends are read.

ghost use Rattle.std.specs.Prelude.{◌≡◌, ℕ, ◌≤◌, List, length, Err, Ok, Some, IfOk, IfErr, OnOk, IsErrOf};
ghost use Rattle.std.specs.Ordering.{nat_cmp};
ghost use Rattle.std.specs.Result.{result_err};
ghost use Rattle.bl_site.specs.Causes.{Rose};
ghost use Rattle.bl_site.specs.Disk.{Name, folder_of};
ghost use Rattle.bl_site.specs.Quiet.{OnlyReads};
ghost use Rattle.bl_names.specs.Names.{HasNumber, name_of};
ghost use Rattle.bl_records.specs.Causes.{IsCause};
ghost use Rattle.bl_open.specs.Answers.{IsReading};
ghost use Rattle.bl_open.specs.Checks.{AllPass, AreAll, FilesFail, check_blob, check_footer, check_header, check_in, check_of, check_table, if_there, named, place_of};
ghost use Rattle.bl_open.specs.declared.error.OpenErr.TheVariants.{Corrupt, Disk, OutOfMemory};

use crate::error::OpenErr;
use crate::read::{corrupt, length_of, read_part};
use bl_blob::{BadBlob, Totals, decode_footer, decode_header};
use bl_build::{Version, version_is_in_order};
use bl_names::{FileName, print_name};
use bl_site::Site;
use bl_table::{BadTable, read_footer};
use std::alloc::Global;
use std::cmp::Ordering;

// The sizes of a table's footer, and of a blob file's header and footer.
const TABLE_FOOTER: usize = 48;

const BLOB_HEADER: usize = 30;

const BLOB_FOOTER: usize = 32;

// A blob file's header and footer together, and where in the footer the count stands.
const BLOB_ENDS: u64 = 62;

const COUNT_IN_FOOTER: u64 = 4;

// Levels are from 0 to 6.
const LEVELS: u32 = 7;

/// A file that a version names, and what it has to be.
#[derive(Clone, Copy, Debug, Drop)]
pub(crate) enum Expected {
    /// The table of this number, of so many bytes.
    Table { number: u64, size: u64 },
    /// The blob file of this number, of these totals.
    Blob { number: u64, total: Totals },
}

// The file.
fn name_in(expected: &Expected) -> FileName
    ensures { result ≡ named expected.now }
{
    match *expected {
        Expected::Table { number, .. } => FileName::Table(number),
        Expected::Blob { number, .. } => FileName::Blob(number),
    }
}

// The order of checks: by number, a table before a blob file.
fn by_number(a: &Expected, b: &Expected) -> Ordering
    ensures { result ≡ nat_cmp (place_of a.now) (place_of b.now) }
{
    match (*a, *b) {
        (Expected::Table { number: a, .. }, Expected::Table { number: b, .. })
        | (Expected::Blob { number: a, .. }, Expected::Blob { number: b, .. }) => a.cmp(&b),
        (Expected::Table { number: a, .. }, Expected::Blob { number: b, .. }) => {
            a.cmp(&b).then(Ordering::Less)
        }
        (Expected::Blob { number: a, .. }, Expected::Table { number: b, .. }) => {
            a.cmp(&b).then(Ordering::Greater)
        }
    }
}

// The place of the first fault of a table of this size: it is absent, has another length, or its footer is at fault.
fn table_fault<S: Site>(site: &mut S, name: &str, size: u64) -> Result<Option<u64>, OpenErr>
    ensures fault { S.shows → IfOk result (λ fault. fault ≡ result_err (if_there (check_table size) (folder_of (S.disk site.old) name.now))) }
    ensures quiet { OnlyReads S.Site site.old site.new }
    ensures causes { IfErr result (IsCause Disk OutOfMemory) }
    ensures disk { IsErrOf result Disk → Rose (S.disk_faults site.old) (S.disk_faults site.new) }
{
    let length = length_of(site, name)?;
    if length != size {
        return Ok(Some(0));
    }
    let mut footer = [0; TABLE_FOOTER];
    let start = size.saturating_sub(TABLE_FOOTER as u64);
    let count = read_part(site, name, start, &mut footer)?;
    match read_footer(&footer[..count], size) {
        Ok(_) => Ok(None),
        Err(BadTable::At(_, place)) => Ok(Some(place)),
        Err(BadTable::OutOfMemory) => Err(OpenErr::OutOfMemory),
    }
}

// The place of the first fault of a blob file's header.
fn header_fault<S: Site>(site: &mut S, name: &str) -> Result<Option<u64>, OpenErr>
    ensures fault { S.shows → (bytes : List ℕ) → folder_of (S.disk site.old) name.now ≡ Some bytes → IfOk result (λ fault. fault ≡ result_err (check_header bytes)) }
    ensures quiet { OnlyReads S.Site site.old site.new }
    ensures causes { IfErr result (IsCause Disk OutOfMemory) }
    ensures disk { IsErrOf result Disk → Rose (S.disk_faults site.old) (S.disk_faults site.new) }
{
    let mut header = [0; BLOB_HEADER];
    let count = read_part(site, name, 0, &mut header)?;
    match decode_header(&header[..count]) {
        Ok(()) => Ok(None),
        Err(BadBlob::At(_, place)) => Ok(Some(place)),
        Err(BadBlob::OutOfMemory) => Err(OpenErr::OutOfMemory),
    }
}

// The place of the first fault of a blob file's footer, or that of its count where that is another one.
fn footer_fault<S: Site>(
    site: &mut S,
    name: &str,
    size: u64,
    count: u64,
) -> Result<Option<u64>, OpenErr>
    requires { 62 ≤ size }
    ensures fault { S.shows → (bytes : List ℕ) → folder_of (S.disk site.old) name.now ≡ Some bytes → length bytes ≡ size → IfOk result (λ fault. fault ≡ result_err (check_footer count bytes)) }
    ensures quiet { OnlyReads S.Site site.old site.new }
    ensures causes { IfErr result (IsCause Disk OutOfMemory) }
    ensures disk { IsErrOf result Disk → Rose (S.disk_faults site.old) (S.disk_faults site.new) }
{
    let mut footer = [0; BLOB_FOOTER];
    let start = size - BLOB_FOOTER as u64;
    let read = read_part(site, name, start, &mut footer)?;
    match decode_footer(&footer[..read]) {
        Ok(found) if found == count => Ok(None),
        Ok(_) => Ok(Some(start + COUNT_IN_FOOTER)),
        Err(BadBlob::At(_, place)) => Ok(Some(start + place)),
        Err(BadBlob::OutOfMemory) => Err(OpenErr::OutOfMemory),
    }
}

// The place of the first fault of a blob file of these totals: it is absent, has another length, or its header, its footer or
// the count there is at fault.
fn blob_fault<S: Site>(site: &mut S, name: &str, total: Totals) -> Result<Option<u64>, OpenErr>
    ensures fault { S.shows → IfOk result (λ fault. fault ≡ result_err (if_there (check_blob total) (folder_of (S.disk site.old) name.now))) }
    ensures quiet { OnlyReads S.Site site.old site.new }
    ensures causes { IfErr result (IsCause Disk OutOfMemory) }
    ensures disk { IsErrOf result Disk → Rose (S.disk_faults site.old) (S.disk_faults site.new) }
{
    let size = length_of(site, name)?;
    if size < BLOB_ENDS || size - BLOB_ENDS != total.bytes {
        return Ok(Some(0));
    }
    let fault = header_fault(site, name)?;
    if fault.is_some() {
        return Ok(fault);
    }
    footer_fault(site, name, size, total.count)
}

// The place of the first fault of a file that a version names.
fn fault_of<S: Site>(site: &mut S, name: &str, expected: &Expected) -> Result<Option<u64>, OpenErr>
    ensures fault { S.shows → IfOk result (λ fault. fault ≡ result_err (check_of expected.now (folder_of (S.disk site.old) name.now))) }
    ensures quiet { OnlyReads S.Site site.old site.new }
    ensures causes { IfErr result (IsCause Disk OutOfMemory) }
    ensures disk { IsErrOf result Disk → Rose (S.disk_faults site.old) (S.disk_faults site.new) }
{
    match *expected {
        Expected::Table { size, .. } => table_fault(site, name, size),
        Expected::Blob { total, .. } => blob_fault(site, name, total),
    }
}

// The file passes.
fn check_file<S: Site>(alloc: Global, site: &mut S, expected: &Expected) -> Result<(), OpenErr>
    requires { HasNumber (named expected.now) }
    ensures passes { S.shows → OnOk result (check_in (folder_of (S.disk site.old)) expected.now ≡ Ok tt) }
    ensures corrupt { S.shows → (name : Name) (place : ℕ) → result ≡ Err (Corrupt name place)
        → (name ≡ name_of (named expected.now)) × (check_in (folder_of (S.disk site.old)) expected.now ≡ Err place) }
    ensures quiet { OnlyReads S.Site site.old site.new }
    ensures causes { IfErr result IsReading }
    ensures disk { IsErrOf result Disk → Rose (S.disk_faults site.old) (S.disk_faults site.new) }
{
    let name = print_name(alloc, &name_in(expected))?;
    match fault_of(site, name.as_str(), expected)? {
        None => Ok(()),
        Some(place) => Err(corrupt(alloc, name.as_str(), place)),
    }
}

// All files that a version names.
fn expected_files(alloc: Global, version: &Version) -> Result<Vec<Expected>, OpenErr>
    ensures all { IfOk result (λ files. AreAll version.now files.items) }
    ensures memory { IfErr result (λ e. e ≡ OutOfMemory) }
{
    version_is_in_order(version);
    let mut files = Vec::new(alloc);
    for level in 0..LEVELS {
        for table in version.tables(level) {
            files.push(Expected::Table {
                number: table.number,
                size: table.size,
            })?;
        }
    }
    for blob in version.blobs() {
        files.push(Expected::Blob {
            number: blob.number,
            total: blob.total,
        })?;
    }
    Ok(files)
}

/// Each file that the version names is there and passes its checks: a table has its size and a footer; a blob file has its
/// size, a header, and a footer with its count. They are checked in order of number, a table before a blob file.
///
/// Errors: `Corrupt` with the name of the first file that fails: at 0 where it is absent or has another length, else at the
/// first fault of its footer or header, or at the count; `Disk`; `OutOfMemory`.
pub(crate) fn check_files<S: Site>(
    alloc: Global,
    site: &mut S,
    version: &Version,
) -> Result<(), OpenErr>
    ensures pass { S.shows → OnOk result (AllPass (folder_of (S.disk site.old)) version.now) }
    ensures corrupt { S.shows → (name : Name) (place : ℕ) → result ≡ Err (Corrupt name place) → FilesFail (folder_of (S.disk site.old)) version.now name place }
    ensures quiet { OnlyReads S.Site site.old site.new }
    ensures causes { IfErr result IsReading }
    ensures disk { IsErrOf result Disk → Rose (S.disk_faults site.old) (S.disk_faults site.new) }
{
    let mut files = expected_files(alloc, version)?;
    files.sort_unstable_by(by_number);
    for expected in &files {
        check_file(alloc, site, expected)?;
    }
    Ok(())
}
