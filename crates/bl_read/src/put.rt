//! What an entry puts.

ghost use Rattle.std.specs.Prelude.{◌≡◌, ℕ, IfOk, IfErr, IsErrOf, Err, Some};
ghost use Rattle.bl_site.specs.Causes.{Rose};
ghost use Rattle.bl_site.specs.Disk.{Name, folder_of};
ghost use Rattle.bl_site.specs.Quiet.{OnlyReads};
ghost use Rattle.bl_entry.specs.declared.key.Kind.TheVariants.{BlobRef};
ghost use Rattle.bl_entry.specs.declared.run.RunErr.TheVariants.{Corrupt};
ghost use Rattle.bl_entry.specs.Entries.{IsProper, IsValueOf};
ghost use Rattle.bl_entry.specs.Latest.{revision_of};
ghost use Rattle.bl_read.specs.Reading.{IsNamed, IsPut, Lacks, LacksValue};

use bl_cache::Files;
use bl_code::Octets;
use bl_entry::{Entry, Kind, RunErr};
use bl_index::decode_index;
use bl_site::Site;
use std::alloc::Global;

/// A copy of these bytes.
///
/// Errors: `OutOfMemory` alone.
pub(crate) fn copied(alloc: Global, bytes: &[u8]) -> Result<Octets, RunErr>
    ensures copy { IfOk result (λ copy. copy ≡ bytes.now) }
    ensures memory { IfErr result (λ e. e ≡ RunErr.OutOfMemory) }
{
    match Octets::from_slice(alloc, bytes) {
        Ok(copy) => Ok(copy),
        Err(_) => Err(RunErr::OutOfMemory),
    }
}

// The value that the blob index in these bytes names, for this user key.
fn named<S: Site>(
    alloc: Global,
    site: &mut S,
    files: &mut Files,
    key: &[u8],
    bytes: &[u8],
) -> Result<Octets, RunErr>
    requires { IsValueOf BlobRef bytes.now }
    ensures named { S.shows → IfOk result (λ value. IsNamed (folder_of (S.disk site.old)) key.now bytes.now value) }
    ensures corrupt { S.shows → (name : Name) (place : ℕ) → result ≡ Err (Corrupt name place) → Lacks (folder_of (S.disk site.old)) key.now bytes.now name }
    ensures disk { IsErrOf result RunErr.Disk → Rose (S.disk_faults site.old) (S.disk_faults site.new) }
    // The site is read, and nothing else.
    ensures quiet { OnlyReads S.Site site.old site.new }
{
    let index = match decode_index(bytes) {
        Ok(index) => index,
        Err(_) => unreachable!(),
    };
    let value = files.value(site, key, &index)?;
    copied(alloc, &value)
}

/// What an entry of a table puts, where there is one.
///
/// Errors: `Corrupt`, only with the blob file that its blob index names, where this lacks the value; `Disk`, only where the
/// disk failed in this call; `OutOfMemory`.
pub(crate) fn put_in_table<S: Site>(
    alloc: Global,
    site: &mut S,
    files: &mut Files,
    entry: Entry,
) -> Result<Option<Octets>, RunErr>
    requires { IsProper entry }
    ensures put { S.shows → IfOk result (λ put. IsPut (folder_of (S.disk site.old)) (Some entry) put) }
    ensures corrupt { S.shows → (name : Name) (place : ℕ) → result ≡ Err (Corrupt name place) → LacksValue (folder_of (S.disk site.old)) entry name }
    ensures disk { IsErrOf result RunErr.Disk → Rose (S.disk_faults site.old) (S.disk_faults site.new) }
    // The site is read, and nothing else.
    ensures quiet { OnlyReads S.Site site.old site.new }
{
    match entry.key.kind {
        Kind::Deletion => Ok(None),
        Kind::Value => Ok(Some(entry.value)),
        Kind::BlobRef => {
            let key = entry.key.user.as_slice();
            let value = named(alloc, site, files, key, entry.value.as_slice())?;
            Ok(Some(value))
        }
    }
}

/// What an entry of a memory puts: its value is copied.
///
/// Errors: `OutOfMemory` alone.
pub(crate) fn put_in_memory(alloc: Global, entry: &Entry) -> Result<Option<Octets>, RunErr>
    ensures put { IfOk result (λ put. put ≡ (revision_of entry.now).put) }
    ensures memory { IfErr result (λ e. e ≡ RunErr.OutOfMemory) }
{
    match entry.key.kind {
        Kind::Deletion => Ok(None),
        Kind::Value | Kind::BlobRef => Ok(Some(copied(alloc, entry.value.as_slice())?)),
    }
}
