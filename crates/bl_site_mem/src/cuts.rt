// The folder that a power cut leaves.
ghost use Rattle.std.specs.Prelude.{◌≡◌, ◌-◌, ℕ, List, [], ◌++◌, length, take, drop, Option, IfOk, IsSome, OnOk, OnErr, IsErrOf};
ghost use Rattle.std.specs.Map.{update};
ghost use Rattle.std.specs.Option.{option_map};
ghost use Rattle.std.specs.Str.{bytes_eq};
ghost use Rattle.bl_site.specs.Disk.{Name};
ghost use Rattle.bl_site.specs.declared.site.SiteErr.TheVariants.{OutOfMemory};
ghost use Rattle.bl_site_mem.specs.Files.{contents};
ghost use Rattle.bl_site_mem.specs.Record.{is_put, synced_file, start, run, disk_of};
ghost use Rattle.bl_site_mem.specs.Bytes.{call_of, entries_of};
ghost use Rattle.bl_site_mem.specs.Kept.{IsKept};
ghost use Rattle.bl_site_mem.specs.Moments.{until, bytes_left, left_of, IsStarted};

use crate::applied::apply;
use crate::files::{Files, names_in, stored_in};
use crate::memory::MemSite;
use crate::record::{KeptCall, KeptEntry};
use bl_site::SiteErr;
use std::alloc::{AllocError, Global};
use std::collections::BTreeMap;

fn puts_file(call: &KeptCall) -> bool
    ensures { result ≡ is_put (call_of call.now) }
{
    match call {
        KeptCall::PutFile(_, _) => true,
        KeptCall::Look => false,
        KeptCall::Create(_) => false,
        KeptCall::Append(_, _) => false,
        KeptCall::Sync(_) => false,
        KeptCall::Rename(_, _) => false,
        KeptCall::Remove(_) => false,
        KeptCall::Tell(_) => false,
    }
}

// The files after so many calls.
pub(crate) fn files_at(alloc: Global, entries: &[KeptEntry], at: u64) -> Result<Files, AllocError>
    ensures { IfOk result (λ files. IsKept files (run (until at (entries_of entries.now)) start).disk) }
{
    let mut files = BTreeMap::new(alloc);
    let mut told = Vec::new(alloc);
    let mut left = at;
    for entry in entries {
        if !puts_file(&entry.call) {
            if left == 0 {
                break;
            }
            left -= 1;
        }
        apply(alloc, &mut files, &mut told, entry)?;
    }
    Ok(files)
}

// Adds what is left of a file with so many synced bytes.
pub(crate) fn left_of_bytes(
    alloc: Global,
    bytes: &[u8],
    synced: usize,
    keep: u64,
    fill: Option<u8>,
) -> Result<Vec<u8>, AllocError>
    ensures { IfOk result (λ left. left.items ≡ bytes_left keep fill bytes.now synced) }
{
    let synced = synced.min(bytes.len());
    let (front, tail) = bytes.split_at(synced);
    let keep = if keep < tail.len() as u64 {
        keep as usize
    } else {
        tail.len()
    };
    let mut left = Vec::from_slice(alloc, front)?;
    left.extend_from_slice(&tail[..keep])?;
    if let Some(byte) = fill {
        left.resize(bytes.len(), byte)?;
    }
    Ok(left)
}

// Puts what is left of a file into a site.
fn put_left(
    site: &mut MemSite,
    alloc: Global,
    files: &Files,
    name: &str,
    keep: u64,
    fill: Option<u8>,
) -> Result<(), SiteErr>
    requires { IsSome (contents files.now name.now) }
    ensures disk { OnOk result ((q : Name) → disk_of site.new q
        ≡ update bytes_eq (disk_of site.old) name.now (option_map (λ c. synced_file (bytes_left keep fill c.0 c.1)) (contents files.now name.now)) q) }
    ensures started { IsStarted site.old → OnOk result (IsStarted site.new) }
    ensures only_memory { OnErr result (IsErrOf result OutOfMemory) }
{
    match stored_in(files, name) {
        Some((bytes, synced)) => {
            let left = left_of_bytes(alloc, bytes, synced, keep, fill)?;
            site.put_file(name, left.as_slice())
        }
        None => Ok(()),
    }
}

// The site that a cut after so many calls leaves.
pub(crate) fn cut_of(
    alloc: Global,
    entries: &[KeptEntry],
    at: u64,
    keep: u64,
    fill: Option<u8>,
) -> Result<MemSite, SiteErr>
    ensures left { IfOk result (λ site. (q : Name) → disk_of site q ≡ option_map (λ file. synced_file (left_of keep fill file)) ((run (until at (entries_of entries.now)) start).disk q)) }
    ensures started { IfOk result (λ site. IsStarted site) }
    ensures only_memory { OnErr result (IsErrOf result OutOfMemory) }
{
    let files = files_at(alloc, entries, at)?;
    let names = names_in(alloc, &files)?;
    let mut site = MemSite::start(alloc)?;
    for name in names.iter() {
        put_left(&mut site, alloc, &files, name.as_str(), keep, fill)?;
    }
    Ok(site)
}
