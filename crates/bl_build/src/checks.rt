//! Why an edit does not fit: each check answers the number of the first file at fault.

ghost use Rattle.std.specs.Prelude.{◌≡◌, ◌==◌, ◌&&◌, not, ℕ, IfOk, IsTrue};
ghost use Rattle.std.specs.List.{AllByRecursion, list_any};
ghost use Rattle.std.specs.Ordering.{nat_cmp};
ghost use Rattle.std.specs.BTreeSet.{contains};
ghost use Rattle.bl_build.specs.Listing.{Ascends, blob_number, table_rank};
ghost use Rattle.bl_build.specs.Versions.{addition_numbers as numbers_of_additions, blob_numbers as numbers_of_blobs, first_twice as twice_in, first_unknown as unknown_in, table_numbers as numbers_of_tables};
ghost use Rattle.bl_edit.specs.Bounds.{deletion_fits, table_fits};

use crate::blobs::has_blob;
use crate::error::BuildErr;
use crate::meta::BlobMeta;
use crate::table::{deleted_rank, rank_of};
use bl_edit::{BlobAddition, DeletedTable, NewTable};
use std::alloc::Global;
use std::collections::BTreeSet;

/// The first deleted table that is not at its level.
pub(crate) fn first_unknown(tables: &[NewTable], deleted: &[DeletedTable]) -> Option<u64>
    requires order { Ascends table_rank tables.now }
    requires tables { AllByRecursion (λ t. IsTrue (table_fits t)) tables.now }
    requires deleted { AllByRecursion (λ d. IsTrue (deletion_fits d)) deleted.now }
    ensures { result ≡ unknown_in tables.now deleted.now }
{
    for table in deleted {
        if !has_rank(tables, deleted_rank(table)) {
            return Some(table.number);
        }
    }
    None
}

// Whether there is a table of this rank.
fn has_rank(tables: &[NewTable], rank: u128) -> bool
    requires { Ascends table_rank tables.now }
    ensures { result ≡ list_any (λ t. table_rank t == rank) tables.now }
{
    let at = tables.partition_point(|table| rank_of(table) < rank);
    let Some(table) = tables.get(at) else {
        return false;
    };
    rank_of(table) == rank
}

/// The first added table whose number is that of one that is left or stands before it.
pub(crate) fn first_table_twice(
    alloc: Global,
    left: &[NewTable],
    added: &[NewTable],
) -> Result<Option<u64>, BuildErr>
    ensures { IfOk result (λ found. found ≡ twice_in (numbers_of_tables left.now) (numbers_of_tables added.now)) }
{
    if added.is_empty() {
        return Ok(None);
    }
    let mut free = free_numbers(alloc, left, added)?;
    for table in added {
        if !free.remove(&table.number) {
            return Ok(Some(table.number));
        }
    }
    Ok(None)
}

// The numbers of the added tables, less those of the tables that are left: these are not in the order of their
// numbers, and so they are passed over once.
fn free_numbers(
    alloc: Global,
    left: &[NewTable],
    added: &[NewTable],
) -> Result<BTreeSet<u64>, BuildErr>
    ensures { IfOk result (λ free. (q : ℕ) → contains nat_cmp free q ≡ (list_any (λ t. t.number == q) added.now && not (list_any (λ t. t.number == q) left.now))) }
{
    let mut free = numbers_of(alloc, added)?;
    for table in left {
        let _ = free.remove(&table.number);
    }
    Ok(free)
}

fn numbers_of(alloc: Global, tables: &[NewTable]) -> Result<BTreeSet<u64>, BuildErr>
    ensures { IfOk result (λ set. (q : ℕ) → contains nat_cmp set q ≡ list_any (λ t. t.number == q) tables.now) }
{
    let mut numbers = BTreeSet::new(alloc);
    for table in tables {
        numbers.insert(table.number)?;
    }
    Ok(numbers)
}

/// The first added blob file whose number is that of one that is there or stands before it.
pub(crate) fn first_blob_twice(
    alloc: Global,
    blobs: &[BlobMeta],
    added: &[BlobAddition],
) -> Result<Option<u64>, BuildErr>
    requires { Ascends blob_number blobs.now }
    ensures { IfOk result (λ found. found ≡ twice_in (numbers_of_blobs blobs.now) (numbers_of_additions added.now)) }
{
    let mut before = BTreeSet::new(alloc);
    for blob in added {
        if has_blob(blobs, blob.number) {
            return Ok(Some(blob.number));
        }
        if !before.insert(blob.number)? {
            return Ok(Some(blob.number));
        }
    }
    Ok(None)
}
