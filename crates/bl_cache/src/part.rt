//! Parts of files.

ghost use Rattle.std.specs.Prelude.{◌≡◌, ℕ, List, length, Some, None, IfOk, IsErrOf, OnOk};
ghost use Rattle.std.specs.Option.{option_map};
ghost use Rattle.bl_site.specs.Causes.{Rose};
ghost use Rattle.bl_site.specs.Disk.{folder_of};
ghost use Rattle.bl_site.specs.Quiet.{OnlyReads};
ghost use Rattle.bl_cache.specs.declared.fault.Unread.TheVariants.{Disk, Damaged};
ghost use Rattle.bl_cache.specs.Reading.{Holds, IsNotOf, part_at};

use crate::fault::Unread;
use bl_site::Site;
use std::alloc::Global;

// The length of a file; None where no file has this name.
fn length_of<S: Site>(site: &mut S, name: &str) -> Result<Option<u64>, Unread>
    ensures length { S.shows → IfOk result (λ count. count ≡ option_map length (folder_of (S.disk site.old) name.now)) }
    ensures quiet { OnlyReads S.Site site.old site.new }
    ensures disk { IsErrOf result Disk → Rose (S.disk_faults site.old) (S.disk_faults site.new) }
    ensures whole { (place : ℕ) → result ≡ Err (Damaged place) → ⊥ }
{
    Ok(site.len(name)?)
}

// So many bytes of a file from a place on, as far as they are there.
fn bytes_of<S: Site>(
    alloc: Global,
    site: &mut S,
    name: &str,
    start: u64,
    count: u64,
) -> Result<Vec<u8>, Unread>
    ensures part { S.shows → (bytes : List ℕ) → folder_of (S.disk site.old) name.now ≡ Some bytes → IfOk result (λ part. part.items ≡ part_at start count bytes) }
    ensures quiet { OnlyReads S.Site site.old site.new }
    ensures disk { IsErrOf result Disk → Rose (S.disk_faults site.old) (S.disk_faults site.new) }
    ensures whole { (place : ℕ) → result ≡ Err (Damaged place) → ⊥ }
{
    let mut part = vec![in alloc; 0; count as usize]?;
    let read = site.read_at(name, start, &mut part)?.unwrap_or(0);
    part.truncate(read);
    Ok(part)
}

/// The bytes of a file from a place on, so many or as many as there are.
///
/// Errors: `Damaged` at 0 where no file has this name; `Disk`; `OutOfMemory`.
pub(crate) fn read_part<S: Site>(
    alloc: Global,
    site: &mut S,
    name: &str,
    start: u64,
    count: u128,
) -> Result<Vec<u8>, Unread>
    ensures part { S.shows → IfOk result (λ part. Holds (folder_of (S.disk site.old) name.now) (λ bytes. part.items ≡ part_at start count bytes)) }
    ensures absent { S.shows → (place : ℕ) → result ≡ Err (Damaged place) → (place ≡ 0) × (folder_of (S.disk site.old) name.now ≡ None) }
    ensures quiet { OnlyReads S.Site site.old site.new }
    ensures disk { IsErrOf result Disk → Rose (S.disk_faults site.old) (S.disk_faults site.new) }
{
    let Some(length) = length_of(site, name)? else {
        return Err(Unread::Damaged(0));
    };
    let there = count.min(u128::from(length.saturating_sub(start))) as u64;
    bytes_of(alloc, site, name, start, there)
}

/// The bytes of a file of this size.
///
/// Errors: `Damaged` at 0 where no file has this name, or it has another size; `Disk`; `OutOfMemory`.
pub(crate) fn read_whole<S: Site>(
    alloc: Global,
    site: &mut S,
    name: &str,
    size: u64,
) -> Result<Vec<u8>, Unread>
    ensures bytes { S.shows → IfOk result (λ bytes. (folder_of (S.disk site.old) name.now ≡ Some bytes.items) × (length bytes.items ≡ size)) }
    ensures other { S.shows → (place : ℕ) → result ≡ Err (Damaged place) → (place ≡ 0) × IsNotOf size (folder_of (S.disk site.old) name.now) }
    ensures quiet { OnlyReads S.Site site.old site.new }
    ensures disk { IsErrOf result Disk → Rose (S.disk_faults site.old) (S.disk_faults site.new) }
{
    if length_of(site, name)? != Some(size) {
        return Err(Unread::Damaged(0));
    }
    bytes_of(alloc, site, name, 0, size)
}
