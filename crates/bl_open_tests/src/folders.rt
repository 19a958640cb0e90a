//! Folders in memory from texts, what an opening of one answers, and what it leaves.

ghost use Rattle.std.specs.Prelude.{IfOk};
ghost use Rattle.bl_site.specs.Disk.{folder_of};
ghost use Rattle.bl_site_mem.specs.Record.{disk_of};
ghost use Rattle.bl_folder.specs.Live.{IsFresh};

use bl_open::{Asked, OpenErr, Opened, recover};
use bl_site_mem::MemSite;
use std::alloc::Global;
use std::str;
use std::test::Fail;

/// No option is asked for.
pub(crate) const NOTHING: Asked = Asked {
    min_blob_size: None,
    blob_file_size: None,
    write_buffer: None,
    table_size: None,
    level0_trigger: None,
    level_base: None,
    level_factor: None,
    age_cutoff: None,
    force_threshold: None,
};

fn digit_of(letter: u8) -> Option<u8> {
    match letter {
        b'0'..=b'9' => Some(letter - b'0'),
        b'A'..=b'F' => Some(letter - b'A' + 10),
        _ => None,
    }
}

/// The bytes that hexadecimal digits spell; all else in the text is passed over.
pub(crate) fn bytes_of(alloc: Global, text: &str) -> Result<Vec<u8>, Fail> {
    let mut bytes = Vec::new(alloc);
    let mut high: Option<u8> = None;
    for letter in text.as_bytes() {
        if let Some(low) = digit_of(*letter) {
            high = match high {
                Some(high) => {
                    bytes.push(high << 4 | low)?;
                    None
                }
                None => Some(low),
            };
        }
    }
    Ok(bytes)
}

/// A folder without a file, which is fresh.
pub(crate) fn empty_folder(alloc: Global) -> Result<MemSite, Fail>
    ensures { IfOk result (λ site. IsFresh (folder_of (disk_of site))) }
{
    Ok(MemSite::start(alloc)?)
}

/// A folder of these names and bytes. The calls of these numbers fail.
pub(crate) fn failing_folder(
    alloc: Global,
    files: &[(&str, &str)],
    failing: &[u64],
) -> Result<MemSite, Fail> {
    let mut site = MemSite::with_failures(alloc, failing)?;
    for (name, text) in files {
        put(alloc, &mut site, *name, *text)?;
    }
    Ok(site)
}

/// A folder of these names and bytes.
pub(crate) fn folder(alloc: Global, files: &[(&str, &str)]) -> Result<MemSite, Fail> {
    failing_folder(alloc, files, &[])
}

/// A file with these bytes is put into the folder.
pub(crate) fn put(alloc: Global, site: &mut MemSite, name: &str, text: &str) -> Result<(), Fail> {
    let bytes = bytes_of(alloc, text)?;
    site.put_file(name, bytes.as_slice())?;
    Ok(())
}

/// Whether the file is there and has these bytes.
pub(crate) fn holds(alloc: Global, site: &MemSite, name: &str, text: &str) -> Result<bool, Fail> {
    let bytes = bytes_of(alloc, text)?;
    Ok(match site.file(name) {
        Some(found) => found == bytes.as_slice(),
        None => false,
    })
}

/// What an opening answered, in words: the numbers of the manifest and of the log, the next one and the last sequence; or why not.
pub(crate) fn told(alloc: Global, answer: &Result<Opened, OpenErr>) -> Result<String, Fail> {
    Ok(match answer {
        Ok(opened) => {
            let manifest = opened.manifest.number();
            let log = opened.standing.log_number;
            let next = opened.standing.next_file;
            let last = opened.standing.last_sequence;
            format!(in alloc; "opened {manifest} {log} {next} {last}")?
        }
        Err(OpenErr::Disk) => format!(in alloc; "disk")?,
        Err(OpenErr::Corrupt(name, place)) => {
            let name = str::from_utf8(name.as_slice())?;
            format!(in alloc; "corrupt {name} {place}")?
        }
        Err(OpenErr::Full(next)) => format!(in alloc; "full {next}")?,
        Err(
            OpenErr::Differ {
                option,
                stored,
                asked,
            },
        ) => format!(in alloc; "differ {option} {stored} {asked}")?,
        Err(OpenErr::OutOfMemory) => format!(in alloc; "memory")?,
    })
}

/// What an opening of the folder answers where no option is asked for.
pub(crate) fn opening(alloc: Global, site: &mut MemSite) -> Result<String, Fail> {
    told(alloc, &recover(alloc, site, &NOTHING))
}

// Whether each of these names stands for the same bytes in both folders.
fn agree(names: &[String], a: &MemSite, b: &MemSite) -> bool {
    for name in names {
        if a.file(name.as_str()) != b.file(name.as_str()) {
            return false;
        }
    }
    true
}

/// Whether two folders have the same names and bytes.
pub(crate) fn are_same(alloc: Global, a: &mut MemSite, b: &mut MemSite) -> Result<bool, Fail> {
    let left = a.list(alloc)?;
    let right = b.list(alloc)?;
    Ok(left.len() == right.len() && agree(&left, a, b))
}

/// What an opening of the folder answers, and whether the folder reads as before then.
pub(crate) fn refusal(alloc: Global, site: &mut MemSite) -> Result<(String, bool), Fail> {
    let mut before = site.cut(u64::MAX, u64::MAX, None)?;
    let answer = opening(alloc, site)?;
    let same = are_same(alloc, &mut before, site)?;
    Ok((answer, same))
}
