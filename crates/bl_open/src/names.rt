//! The names in a folder: its files, CURRENT, and what keeps a folder without CURRENT from being fresh.

ghost use Rattle.std.specs.Prelude.{◌≡◌, ◌↔◌, ◌⊎◌, ℕ, ◌<◌, ◌≤◌, ◌^◌, true, false, map, string_bytes, All, Contains, Err, None, IfOk, IfErr, OnOk, IsErrOf, IsSome, IsTrue, MatchOption};
ghost use Rattle.std.specs.List.Sorted.{IsStrictlySortedBy};
ghost use Rattle.std.specs.Ordering.{nat_cmp};
ghost use Rattle.bl_code.specs.Order.{bytes_lt};
ghost use Rattle.bl_site.specs.Causes.{Rose};
ghost use Rattle.bl_site.specs.Disk.{Folder, Name, folder_of};
ghost use Rattle.bl_site.specs.Quiet.{OnlyReads};
ghost use Rattle.bl_names.specs.declared.name.FileName.{FileName};
ghost use Rattle.bl_names.specs.declared.name.FileName.TheVariants.{Current, Manifest};
ghost use Rattle.bl_names.specs.Names.{HasNumber, IsNumber, manifest_name, name_of};
ghost use Rattle.bl_build.specs.Listing.{Listing};
ghost use Rattle.bl_build.specs.Versions.{IsVersion};
ghost use Rattle.bl_records.specs.Causes.{IsCause};
ghost use Rattle.bl_out.specs.Files.{file};
ghost use Rattle.bl_folder.specs.Live.{IsFresh};
ghost use Rattle.bl_folder.specs.Numbers.{IsFirstNumber, number_of as number_in};
ghost use Rattle.bl_open.specs.Answers.{IsReading};
ghost use Rattle.bl_open.specs.Checks.{AllPass};
ghost use Rattle.bl_open.specs.Damage.{NamesManifest, NamesNone};
ghost use Rattle.bl_open.specs.Listing.{AreListed, AreLogs, AreNamed, IsFirstStray, IsGreatest, IsStray};
ghost use Rattle.bl_open.specs.declared.error.OpenErr.TheVariants.{Corrupt, Disk, OutOfMemory};

use crate::damage::first_number_is_behind_all;
use crate::error::OpenErr;
use crate::read::{corrupt, length_of, read_part};
use bl_names::{FileName, names_one, parse_current, parse_name, print_name};
use bl_site::Site;
use std::alloc::Global;
use std::collections::BTreeSet;

// A text of CURRENT has fewer bytes: what fills so many is none.
const MORE_THAN_CURRENT: usize = 26;

// The files of the store's forms among these names.
fn files_named(alloc: Global, names: &[String]) -> Result<Vec<FileName>, OpenErr>
    ensures named { IfOk result (λ files. AreNamed (map string_bytes names.now) files.items) }
    ensures memory { IfErr result (λ e. e ≡ OutOfMemory) }
{
    let mut files = Vec::new(alloc);
    for name in names {
        if let Some(file) = parse_name(name.as_str()) {
            files.push(file)?;
        }
    }
    Ok(files)
}

/// The files of the store's forms that are in the folder, in any order. The folder is listed once.
///
/// Errors: `Disk`; `OutOfMemory`.
pub(crate) fn list_files<S: Site>(alloc: Global, site: &mut S) -> Result<Vec<FileName>, OpenErr>
    ensures listed { S.shows → IfOk result (λ files. AreListed (folder_of (S.disk site.old)) files.items) }
    ensures numbers { IfOk result (λ files. All HasNumber files.items) }
    ensures quiet { OnlyReads S.Site site.old site.new }
    ensures causes { IfErr result (IsCause Disk OutOfMemory) }
    ensures disk { IsErrOf result Disk → Rose (S.disk_faults site.old) (S.disk_faults site.new) }
{
    let names = site.list(alloc)?;
    files_named(alloc, &names)
}

/// Whether the file is among these, which are those of a folder.
pub(crate) fn has_file(files: &[FileName], wanted: FileName) -> bool
    ensures among { IsTrue result ↔ Contains files.now wanted }
    ensures there { (folder : Folder) → AreListed folder files.now → HasNumber wanted → IsTrue result ↔ IsSome (file folder wanted) }
{
    files.contains(&wanted)
}

/// The manifest of this number, from 1 to 10^15 - 1, is among the files, which are those of a folder.
///
/// Errors: `Corrupt` at 0 with its name, exactly where it is not; `OutOfMemory`.
pub(crate) fn check_manifest(alloc: Global, files: &[FileName], number: u64) -> Result<(), OpenErr>
    requires { IsNumber number }
    ensures there { (folder : Folder) → AreListed folder files.now → OnOk result (IsSome (file folder (Manifest number))) }
    ensures absent { (name : Name) (place : ℕ) → result ≡ Err (Corrupt name place) → (folder : Folder) → AreListed folder files.now → file folder (Manifest number) ≡ None }
    ensures causes { IfErr result (λ e. (e ≡ OutOfMemory) ⊎ (e ≡ Corrupt (manifest_name number) 0)) }
{
    let manifest = FileName::Manifest(number);
    if has_file(files, manifest) {
        return Ok(());
    }
    let name = print_name(alloc, &manifest)?;
    Err(corrupt(alloc, name.as_str(), 0))
}

// The number of a file; CURRENT has none.
fn number_of(name: &FileName) -> u64
    ensures { result ≡ number_in name.now }
{
    match *name {
        FileName::Current => 0,
        FileName::Manifest(number)
        | FileName::Log(number)
        | FileName::Table(number)
        | FileName::Blob(number)
        | FileName::Temp(number) => number,
    }
}

/// The greatest number of these files, or 0 where none has one.
pub(crate) fn greatest_number(files: &[FileName]) -> u64
    ensures greatest { (folder : Folder) → AreListed folder files.now → IsGreatest folder result }
    ensures bound { All HasNumber files.now → result < 10 ^ 15 }
{
    let mut greatest = 0;
    for name in files {
        greatest = greatest.max(number_of(name));
    }
    greatest
}

/// The first number that an opening may take: the next file number, at most 10^15, or one more than the greatest number of these
/// files, whichever is greater. They are the files of the folder, where all files of a version are.
pub(crate) fn first_number(files: &[FileName], next_file: u64) -> u64
    requires numbers { All HasNumber files.now }
    requires next { next_file ≤ 10 ^ 15 }
    ensures first { (folder : Folder) (version : Listing) → IsVersion version → AllPass folder version → AreListed folder files.now → (1 ≤ next_file) ⊎ IsSome (file folder Current)
        → IsFirstNumber folder version next_file result }
    ensures some { 1 ≤ result }
    ensures bound { result ≤ 10 ^ 15 }
{
    first_number_is_behind_all();
    next_file.max(greatest_number(files) + 1)
}

// The keys of a set, in order.
fn in_order(alloc: Global, mut numbers: BTreeSet<u64>) -> Result<Vec<u64>, OpenErr>
    ensures ordered { IfOk result (λ v. (v.items ≡ numbers.keys) × IsStrictlySortedBy nat_cmp v.items) }
    ensures memory { IfErr result (λ e. e ≡ OutOfMemory) }
{
    let mut ordered = Vec::with_capacity(alloc, numbers.len())?;
    'numbers: while let Some(number) = numbers.pop_first() {
        ordered.push(number)?;
    }
    Ok(ordered)
}

/// The numbers of the logs among the files, ascending.
///
/// Errors: `OutOfMemory`.
pub(crate) fn log_numbers(alloc: Global, files: &[FileName]) -> Result<Vec<u64>, OpenErr>
    ensures logs { IfOk result (λ numbers. (folder : Folder) → AreListed folder files.now → AreLogs folder numbers.items) }
    ensures numbers { All HasNumber files.now → IfOk result (λ numbers. All IsNumber numbers.items) }
    ensures memory { IfErr result (λ e. e ≡ OutOfMemory) }
{
    let mut numbers = BTreeSet::new(alloc);
    for name in files {
        if let FileName::Log(number) = *name {
            numbers.insert(number)?;
        }
    }
    in_order(alloc, numbers)
}

// Whether a file that is listed is one that no fresh folder has: a table, a blob file, or a log of some bytes.
fn is_stray<S: Site>(site: &mut S, listed: FileName, name: &str) -> Result<bool, OpenErr>
    requires name { name.now ≡ name_of listed }
    requires number { HasNumber listed }
    requires there { S.shows → IsSome (file (folder_of (S.disk site.old)) listed) }
    ensures stray { S.shows → IfOk result (λ stray. IsTrue stray ↔ IsStray (folder_of (S.disk site.old)) listed) }
    ensures quiet { OnlyReads S.Site site.old site.new }
    ensures causes { IfErr result (IsCause Disk OutOfMemory) }
    ensures disk { IsErrOf result Disk → Rose (S.disk_faults site.old) (S.disk_faults site.new) }
{
    match listed {
        FileName::Table(_) | FileName::Blob(_) => Ok(true),
        FileName::Log(_) => Ok(length_of(site, name)? != 0),
        FileName::Current | FileName::Manifest(_) | FileName::Temp(_) => Ok(false),
    }
}

// The first of two names, in the order of bytes.
fn first_of(first: Option<String>, name: String) -> String
    ensures { MatchOption first (string_bytes result ≡ string_bytes name) (λ f. ((string_bytes result ≡ string_bytes f) × (bytes_lt (string_bytes name) (string_bytes f) ≡ false))
        ⊎ ((string_bytes result ≡ string_bytes name) × (bytes_lt (string_bytes name) (string_bytes f) ≡ true))) }
{
    match first {
        Some(first) => { if name < first { name } else { first } }
        None => name,
    }
}

/// The folder, which has no CURRENT and these files, is fresh.
///
/// Errors: `Corrupt` at 0 with the first name, in the order of bytes, of a table, of a blob file, or of a log with some byte;
/// `Disk`; `OutOfMemory`.
pub(crate) fn check_fresh<S: Site>(
    alloc: Global,
    site: &mut S,
    files: &[FileName],
) -> Result<(), OpenErr>
    requires listed { S.shows → AreListed (folder_of (S.disk site.old)) files.now }
    requires numbers { All HasNumber files.now }
    requires no_current { S.shows → file (folder_of (S.disk site.old)) Current ≡ None }
    ensures fresh { S.shows → OnOk result (IsFresh (folder_of (S.disk site.old))) }
    ensures corrupt { S.shows → (name : Name) (place : ℕ) → result ≡ Err (Corrupt name place) → IsFirstStray (folder_of (S.disk site.old)) name × (place ≡ 0) }
    ensures quiet { OnlyReads S.Site site.old site.new }
    ensures causes { IfErr result IsReading }
    ensures disk { IsErrOf result Disk → Rose (S.disk_faults site.old) (S.disk_faults site.new) }
{
    let mut first: Option<String> = None;
    for listed in files {
        let name = print_name(alloc, listed)?;
        if is_stray(site, *listed, name.as_str())? {
            first = Some(first_of(first, name));
        }
    }
    match first {
        None => Ok(()),
        Some(name) => Err(corrupt(alloc, name.as_str(), 0)),
    }
}

/// The number of the manifest that CURRENT, which is in the folder, names.
///
/// Errors: `Corrupt` at 0 with CURRENT's name where its text names none; `Disk`; `OutOfMemory`.
pub(crate) fn read_current<S: Site>(alloc: Global, site: &mut S) -> Result<u64, OpenErr>
    requires { S.shows → IsSome (file (folder_of (S.disk site.old)) Current) }
    ensures named { S.shows → IfOk result (NamesManifest (folder_of (S.disk site.old))) }
    ensures number { IfOk result IsNumber }
    ensures corrupt { S.shows → (name : Name) (place : ℕ) → result ≡ Err (Corrupt name place) → NamesNone (folder_of (S.disk site.old)) × (name ≡ name_of Current) × (place ≡ 0) }
    ensures quiet { OnlyReads S.Site site.old site.new }
    ensures causes { IfErr result IsReading }
    ensures disk { IsErrOf result Disk → Rose (S.disk_faults site.old) (S.disk_faults site.new) }
{
    let mut text = [0; MORE_THAN_CURRENT];
    let count = read_part(site, "CURRENT", 0, &mut text)?;
    match parse_current(&text[..count]) {
        Some(number) => Ok(number),
        None => Err(corrupt(alloc, "CURRENT", 0)),
    }
}
