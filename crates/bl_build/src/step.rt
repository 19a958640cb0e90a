//! One edit applied to a version.

ghost use Rattle.std.specs.Prelude.{◌≡◌, ◌==◌, ℕ, IfOk, IsTrue, map};
ghost use Rattle.std.specs.List.{AllByRecursion, list_any};
ghost use Rattle.std.specs.List.Sorted.{IsNonDecreasingBy};
ghost use Rattle.std.specs.Ordering.{nat_cmp};
ghost use Rattle.std.specs.BTreeSet.{contains};
ghost use Rattle.bl_edit.specs.Bounds.{IsEdit, deletion_fits, table_fits};
ghost use Rattle.bl_build.specs.Listing.{all_placed, blob_number, rank, table_rank};
ghost use Rattle.bl_build.specs.Versions.{Applies, apply as step, with_blobs as blobs_with, with_tables as tables_with, without as tables_without};

use crate::blobs::{add_garbage, first_unknown_blob, needed, new_blob};
use crate::checks::{first_blob_twice, first_table_twice, first_unknown};
use crate::error::{BadVersion, BuildErr};
use crate::meta::BlobMeta;
use crate::overlap::first_overlap;
use crate::table::{copied, deleted_rank, rank_of};
use crate::version::Version;
use bl_edit::{BlobAddition, DeletedTable, Edit, NewTable};
use std::alloc::Global;
use std::collections::BTreeSet;

/// The version after an edit whose numbers and keys are in the bounds of the format. The base and the edit stay
/// as they are: the new version has keys of its own.
///
/// The refusals are tested in the order in which `BadVersion` has them, each over the whole edit. `OutOfMemory`
/// comes where memory runs out, which may be before a refusal is found.
///
/// The cost is that of a copy of the base, and that of [`advance`].
pub fn apply(alloc: Global, base: &Version, edit: &Edit) -> Result<Version, BadVersion>
    requires { IsEdit edit.now }
    ensures { Applies result (step base.now edit.now) }
{
    advance(alloc, base.copy(alloc)?, edit)
}

/// The version after an edit whose numbers and keys are in the bounds of the format, as [`apply`] gives it. The tables
/// of the base are moved into it; after a refusal the base is gone.
///
/// The refusals are those of `apply`, in the same order.
///
/// The cost is that of the edit's keys, and of passing over the version: deleted tables and blob files are looked up
/// in the base by their order. The tables of the base are passed over to move them and to count the links of blob files;
/// where the edit adds tables, to look each up among the numbers that are added; and where it adds to a level from 1
/// on, to look each up among the added tables, sorted by level and greatest key. Where there is an overlap, this last
/// is done once more for each halving of the added tables. Each added file moves those behind it. Memory beside the
/// new version is taken for sets and lists of the edit's own files, and for a second list of the blob files with a
/// number for each.
pub fn advance(alloc: Global, base: Version, edit: &Edit) -> Result<Version, BadVersion>
    requires { IsEdit edit.now }
    ensures { Applies result (step base edit.now) }
{
    let (base_tables, base_blobs) = base.into_parts();
    let tables = base_tables.as_slice();
    let deleted = edit.deleted.as_slice();
    if let Some(number) = first_unknown(tables, deleted) {
        return Err(BadVersion::UnknownTable(number));
    }
    let left = without(alloc, deleted, base_tables)?;
    let added = edit.added.as_slice();
    if let Some(number) = first_table_twice(alloc, &left, added)? {
        return Err(BadVersion::Twice(number));
    }
    let new_blobs = edit.blobs.as_slice();
    let old_blobs = base_blobs.as_slice();
    if let Some(number) = first_blob_twice(alloc, old_blobs, new_blobs)? {
        return Err(BadVersion::Twice(number));
    }
    if let Some(number) = first_overlap(alloc, &left, added)? {
        return Err(BadVersion::Overlap(number));
    }
    let mut blobs = with_blobs(alloc, new_blobs, old_blobs)?;
    let garbage = edit.garbage.as_slice();
    if let Some(number) = first_unknown_blob(&blobs, garbage) {
        return Err(BadVersion::UnknownBlob(number));
    }
    if let Some(number) = add_garbage(&mut blobs, garbage) {
        return Err(BadVersion::Overflow(number));
    }
    let tables = with_tables(alloc, added, left)?;
    let blobs = needed(alloc, &tables, &blobs)?;
    Ok(Version::from_parts(tables, blobs))
}

// The tables that an edit leaves.
fn without(
    alloc: Global,
    deleted: &[DeletedTable],
    tables: Vec<NewTable>,
) -> Result<Vec<NewTable>, BuildErr>
    requires deleted { AllByRecursion (λ d. IsTrue (deletion_fits d)) deleted.now }
    requires tables { AllByRecursion (λ t. IsTrue (table_fits t)) tables.items }
    ensures { IfOk result (λ left. left.items ≡ tables_without deleted.now tables.items) }
{
    if deleted.is_empty() {
        return Ok(tables);
    }
    let gone = deleted_ranks(alloc, deleted)?;
    let mut left = Vec::with_capacity(alloc, tables.len())?;
    for table in tables {
        if !gone.contains(&rank_of(&table)) {
            left.push(table)?;
        }
    }
    Ok(left)
}

fn deleted_ranks(alloc: Global, deleted: &[DeletedTable]) -> Result<BTreeSet<u128>, BuildErr>
    ensures { IfOk result (λ set. (q : ℕ) → contains nat_cmp set q ≡ list_any (λ d. rank d.level d.number == q) deleted.now) }
{
    let mut ranks = BTreeSet::new(alloc);
    for table in deleted {
        ranks.insert(deleted_rank(table))?;
    }
    Ok(ranks)
}

// Tables and more, each in its place.
fn with_tables(
    alloc: Global,
    added: &[NewTable],
    left: Vec<NewTable>,
) -> Result<Vec<NewTable>, BuildErr>
    requires { IsNonDecreasingBy table_rank left.items }
    ensures { IfOk result (λ tables. tables.items ≡ tables_with added.now left.items) }
{
    let mut tables = left;
    for table in added {
        let rank = rank_of(table);
        let at = tables.partition_point(|other| rank_of(other) < rank);
        tables.insert(at, copied(alloc, table)?)?;
    }
    Ok(tables)
}

// Blob files and new ones, each in its place.
fn with_blobs(
    alloc: Global,
    added: &[BlobAddition],
    base: &[BlobMeta],
) -> Result<Vec<BlobMeta>, BuildErr>
    requires { IsNonDecreasingBy blob_number base.now }
    ensures { IfOk result (λ blobs. blobs.items ≡ blobs_with added.now base.now) }
{
    let mut blobs = Vec::from_slice(alloc, base)?;
    for addition in added {
        let number = addition.number;
        let at = blobs.partition_point(|other| other.number < number);
        blobs.insert(at, new_blob(addition))?;
    }
    Ok(blobs)
}
