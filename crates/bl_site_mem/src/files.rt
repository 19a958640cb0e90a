// Files in memory, by their names.
ghost use Rattle.std.specs.Prelude.{◌≡◌, ◌≤◌, ℕ, List, [], ◌++◌, length, Option, None, Some, OnOk, OnErr, IfOk, MatchOption, Contains, AllPairs, IsSome, map, string_bytes, ◌↔◌, ◌≢◌};
ghost use Rattle.std.specs.Option.{option_map};
ghost use Rattle.std.specs.Map.{update};
ghost use Rattle.std.specs.Str.{bytes_eq};
ghost use Rattle.bl_site.specs.Disk.{Name};
ghost use Rattle.bl_site_mem.specs.Files.{contents, Content, content_of, grown, settled};

use std::alloc::{AllocError, Global};
use std::collections::BTreeMap;

// A file's bytes as they read, and how many of them are synced.
#[derive(Drop)]
pub(crate) struct MemFile {
    pub(crate) bytes: Vec<u8>,
    pub(crate) synced: usize,
}

pub(crate) type Files = BTreeMap<String, MemFile>;

pub(crate) fn put_in(
    alloc: Global,
    files: &mut Files,
    name: &str,
    bytes: &[u8],
    synced: usize,
) -> Result<(), AllocError>
    ensures ok { OnOk result ((q : Name) → contents files.new q ≡ update bytes_eq (contents files.old) name.now (Some (Content bytes.now synced)) q) }
    ensures err { OnErr result ((q : Name) → contents files.new q ≡ contents files.old q) }
{
    let key = String::from_str(alloc, name)?;
    let bytes = Vec::from_slice(alloc, bytes)?;
    files.insert(key, MemFile { bytes, synced })?;
    Ok(())
}

pub(crate) fn remove_from(files: &mut Files, name: &str)
    ensures { (q : Name) → contents files.new q ≡ update bytes_eq (contents files.old) name.now None q }
{
    let _ = files.remove(name);
}

pub(crate) fn append_in(files: &mut Files, name: &str, bytes: &[u8]) -> Result<(), AllocError>
    ensures ok { OnOk result ((q : Name) → contents files.new q ≡ update bytes_eq (contents files.old) name.now (option_map (grown bytes.now) (contents files.old name.now)) q) }
    ensures err { OnErr result ((q : Name) → contents files.new q ≡ contents files.old q) }
{
    if let Some(file) = files.get_mut(name) {
        file.bytes.extend_from_slice(bytes)?;
    }
    Ok(())
}

pub(crate) fn sync_in(files: &mut Files, name: &str)
    ensures { (q : Name) → contents files.new q ≡ update bytes_eq (contents files.old) name.now (option_map settled (contents files.old name.now)) q }
{
    if let Some(file) = files.get_mut(name) {
        file.synced = file.bytes.len();
    }
}

pub(crate) fn read_of<'a>(files: &'a Files, name: &str) -> Option<&'a [u8]>
    ensures { MatchOption result (contents files.now name.now ≡ None) (λ bytes. (n : ℕ) × (contents files.now name.now ≡ Some (Content bytes.now n))) }
{
    match files.get(name) {
        Some(file) => Some(file.bytes.as_slice()),
        None => None,
    }
}

// A copy of a file, where it is there.
fn copy_of(alloc: Global, files: &Files, name: &str) -> Result<Option<MemFile>, AllocError>
    ensures { IfOk result (λ copy. option_map content_of copy ≡ contents files.now name.now) }
{
    match files.get(name) {
        Some(file) => {
            let bytes = Vec::from_slice(alloc, file.bytes.as_slice())?;
            Ok(Some(MemFile {
                bytes,
                synced: file.synced,
            }))
        }
        None => Ok(None),
    }
}

pub(crate) fn rename_in(
    alloc: Global,
    files: &mut Files,
    from: &str,
    to: &str,
) -> Result<(), AllocError>
    ensures ok { OnOk result ((q : Name) → contents files.new q ≡ update bytes_eq (update bytes_eq (contents files.old) from.now None) to.now (contents files.old from.now) q) }
    ensures err { OnErr result ((q : Name) → contents files.new q ≡ contents files.old q) }
{
    match copy_of(alloc, files, from)? {
        Some(copy) => put_in(alloc, files, to, copy.bytes.as_slice(), copy.synced)?,
        None => remove_from(files, to),
    }
    if from != to {
        remove_from(files, from);
    }
    Ok(())
}

pub(crate) fn names_in(alloc: Global, files: &Files) -> Result<Vec<String>, AllocError>
    ensures value { IfOk result (λ names. (name : Name) → Contains (map string_bytes names.items) name ↔ IsSome (contents files.now name)) }
    ensures once { IfOk result (λ names. AllPairs (λ a b. a ≢ b) (map string_bytes names.items)) }
{
    let mut names = Vec::new(alloc);
    for name in files.keys() {
        names.push(String::from_str(alloc, name.as_str())?)?;
    }
    Ok(names)
}

// A file's bytes, and how many of them are synced.
pub(crate) fn stored_in<'a>(files: &'a Files, name: &str) -> Option<(&'a [u8], usize)>
    ensures { MatchOption result (contents files.now name.now ≡ None) (λ stored. contents files.now name.now ≡ Some (Content stored.0.now stored.1)) }
{
    match files.get(name) {
        Some(file) => Some((file.bytes.as_slice(), file.synced)),
        None => None,
    }
}
