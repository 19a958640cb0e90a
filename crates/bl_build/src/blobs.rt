//! The blob files of the next version.

ghost use Rattle.std.specs.Prelude.{◌≡◌, ◌==◌, ◌<◌, ◌||◌, ◌&&◌, not, ℕ, count_by, length, slice_index, slice_index_or, IfOk, IfSome, IfNone, MatchOption, true, false};
ghost use Rattle.std.specs.List.{list_any};
ghost use Rattle.bl_build.specs.Listing.{Ascends, blob_number};
ghost use Rattle.bl_build.specs.Versions.{add_garbage as garbage_added, first_over, first_unknown_blob as unknown_in, is_over, is_spent as spent_test, new_blob as new_of, still_needed, with_garbage, with_links};

use crate::error::BuildErr;
use crate::meta::BlobMeta;
use bl_blob::Totals;
use bl_edit::{BlobAddition, BlobGarbage, NewTable};
use std::alloc::Global;

/// The first garbage of a file that is not there.
pub(crate) fn first_unknown_blob(blobs: &[BlobMeta], garbage: &[BlobGarbage]) -> Option<u64>
    requires { Ascends blob_number blobs.now }
    ensures { result ≡ unknown_in blobs.now garbage.now }
{
    for file in garbage {
        let Some(_) = place_of(blobs, file.number) else {
            return Some(file.number);
        };
    }
    None
}

/// Whether there is a blob file of this number.
pub(crate) fn has_blob(blobs: &[BlobMeta], number: u64) -> bool
    requires { Ascends blob_number blobs.now }
    ensures { result ≡ list_any (λ b. b.number == number) blobs.now }
{
    place_of(blobs, number).is_some()
}

// Where the blob file of this number stands.
fn place_of(blobs: &[BlobMeta], number: u64) -> Option<usize>
    requires { Ascends blob_number blobs.now }
    ensures some { IfSome result (λ i. (i < length blobs.now) × ((d : BlobMeta) → (slice_index_or blobs.now i d).number ≡ number)) }
    ensures none { IfNone result (list_any (λ b. b.number == number) blobs.now ≡ false) }
{
    let at = blobs.partition_point(|blob| blob.number < number);
    let found = blobs.get(at)?;
    if found.number == number {
        Some(at)
    } else {
        None
    }
}

/// Garbage joins that of its files, up to the first that takes one above its totals.
pub(crate) fn add_garbage(blobs: &mut Vec<BlobMeta>, garbage: &[BlobGarbage]) -> Option<u64>
    requires { Ascends blob_number blobs.old.items }
    ensures found { result ≡ first_over blobs.old.items garbage.now }
    ensures added { IfNone result (blobs.new.items ≡ with_garbage garbage.now blobs.old.items) }
{
    for more in garbage {
        let Some(at) = place_of(blobs, more.number) else {
            continue;
        };
        let Some(file) = with_more(&blobs[at], more) else {
            return Some(more.number);
        };
        blobs[at] = file;
    }
    None
}

// A file with more garbage; None where that is above its totals.
fn with_more(file: &BlobMeta, more: &BlobGarbage) -> Option<BlobMeta>
    requires { file.now.number ≡ more.now.number }
    ensures { MatchOption result (is_over (garbage_added more.now file.now) ≡ true) (λ next. (next ≡ garbage_added more.now file.now) × (is_over next ≡ false)) }
{
    let Totals {
        count: most,
        bytes: most_bytes,
    } = file.total;
    let count = file.garbage.count.checked_add(more.count)?;
    let bytes = file.garbage.bytes.checked_add(more.bytes)?;
    if count > most || bytes > most_bytes {
        return None;
    }
    Some(BlobMeta {
        garbage: Totals { count, bytes },
        ..*file
    })
}

/// A new blob file has no garbage, and no table is linked to it yet.
pub(crate) fn new_blob(added: &BlobAddition) -> BlobMeta
    ensures { result ≡ new_of added.now }
{
    BlobMeta {
        number: added.number,
        total: Totals {
            count: added.count,
            bytes: added.bytes,
        },
        garbage: Totals { count: 0, bytes: 0 },
        linked: 0,
    }
}

/// The files that a version with these tables keeps, with the number of tables that are linked to each.
pub(crate) fn needed(
    alloc: Global,
    tables: &[NewTable],
    blobs: &[BlobMeta],
) -> Result<Vec<BlobMeta>, BuildErr>
    requires { Ascends blob_number blobs.now }
    ensures { IfOk result (λ kept. kept.items ≡ still_needed (with_links tables.now blobs.now)) }
{
    let links = links_of(alloc, tables, blobs)?;
    let mut kept = Vec::new(alloc);
    let mut reached = false;
    for (i, blob) in blobs.iter().enumerate() {
        let blob = BlobMeta {
            linked: links[i],
            ..*blob
        };
        reached = is_reached(reached, &blob);
        if !is_kept(reached, &blob) {
            continue;
        }
        kept.push(blob)?;
    }
    Ok(kept)
}

// Whether this file or one before it is linked.
fn is_reached(reached: bool, blob: &BlobMeta) -> bool
    ensures { result ≡ (reached || not (blob.now.linked == 0)) }
{
    reached || blob.linked != 0
}

// Whether a file is kept, behind a linked one or as one.
fn is_kept(reached: bool, blob: &BlobMeta) -> bool
    ensures { result ≡ (reached && not (spent_test blob.now)) }
{
    reached && !is_spent(blob)
}

fn is_spent(blob: &BlobMeta) -> bool
    ensures { result ≡ spent_test blob.now }
{
    blob.linked == 0
        && blob.garbage.count == blob.total.count
        && blob.garbage.bytes == blob.total.bytes
}

// How many tables have each of the files as their oldest, in the files' order.
fn links_of(alloc: Global, tables: &[NewTable], blobs: &[BlobMeta]) -> Result<Vec<u64>, BuildErr>
    requires { Ascends blob_number blobs.now }
    ensures length { IfOk result (λ links. length links.items ≡ length blobs.now) }
    ensures counts { IfOk result (λ links. (k : ℕ) (d : BlobMeta) → k < length blobs.now → slice_index links.items k ≡ count_by (λ t. t.oldest_blob == (slice_index_or blobs.now k d).number) tables.now) }
{
    let mut links = vec![in alloc; 0; blobs.len()]?;
    for table in tables {
        let Some(at) = place_of(blobs, table.oldest_blob) else {
            continue;
        };
        links[at] += 1;
    }
    Ok(links)
}
