//! A whole version as one edit.

ghost use Rattle.std.specs.Prelude.{◌≡◌, ◌^◌, ◌<◌, map, filter, IfOk, Ok};
ghost use Rattle.bl_edit.specs.Bounds.{IsEdit};
ghost use Rattle.bl_edit.specs.Options.{AreInRange};
ghost use Rattle.bl_build.specs.Listing.{nothing};
ghost use Rattle.bl_build.specs.Versions.{apply};
ghost use Rattle.bl_build.specs.Snapshots.{addition_of as addition_spec, garbage_of as garbage_spec, has_garbage as garbage_test, snapshot};

use crate::error::BuildErr;
use crate::meta::{BlobMeta, Standing};
use crate::table::copies;
use crate::version::Version;
use bl_edit::{BlobAddition, BlobGarbage, Edit, Items};
use std::alloc::Global;

/// The edit that makes this version of the empty one, with what stands beside it: the tables by level and number
/// with keys of their own, the blob files by number, and garbage of those that have some. Applied to the empty
/// version it is not refused. It is in bounds where the options are and the last sequence is below 2^56.
///
/// `OutOfMemory` where memory runs out.
pub fn snapshot_edit(
    alloc: Global,
    version: &Version,
    standing: &Standing,
) -> Result<Edit, BuildErr>
    ensures edit { IfOk result (λ edit. edit ≡ snapshot version.now standing.now) }
    ensures restores { IfOk result (λ edit. apply nothing edit ≡ Ok version.now) }
    ensures bounds { AreInRange standing.now.options → standing.now.last_sequence < 2 ^ 56 → IfOk result IsEdit }
{
    Ok(Edit {
        comparator: true,
        log_number: Some(standing.log_number),
        next_file: Some(standing.next_file),
        last_sequence: Some(standing.last_sequence),
        options: Some(standing.options),
        deleted: Items::new(alloc),
        added: Items::from_vec(copies(alloc, version.all_tables())?),
        blobs: Items::from_vec(additions(alloc, version.blobs())?),
        garbage: Items::from_vec(garbage(alloc, version.blobs())?),
    })
}

fn additions(alloc: Global, blobs: &[BlobMeta]) -> Result<Vec<BlobAddition>, BuildErr>
    ensures { IfOk result (λ made. made.items ≡ map addition_spec blobs.now) }
{
    let mut made = Vec::with_capacity(alloc, blobs.len())?;
    for blob in blobs {
        made.push(addition_of(blob))?;
    }
    Ok(made)
}

fn addition_of(blob: &BlobMeta) -> BlobAddition
    ensures { result ≡ addition_spec blob.now }
{
    BlobAddition {
        number: blob.number,
        count: blob.total.count,
        bytes: blob.total.bytes,
    }
}

// The garbage of those files that have some.
fn garbage(alloc: Global, blobs: &[BlobMeta]) -> Result<Vec<BlobGarbage>, BuildErr>
    ensures { IfOk result (λ made. made.items ≡ map garbage_spec (filter garbage_test blobs.now)) }
{
    let mut made = Vec::new(alloc);
    for blob in blobs {
        if !has_garbage(blob) {
            continue;
        }
        made.push(garbage_of(blob))?;
    }
    Ok(made)
}

fn has_garbage(blob: &BlobMeta) -> bool
    ensures { result ≡ garbage_test blob.now }
{
    !(blob.garbage.count == 0 && blob.garbage.bytes == 0)
}

fn garbage_of(blob: &BlobMeta) -> BlobGarbage
    ensures { result ≡ garbage_spec blob.now }
{
    BlobGarbage {
        number: blob.number,
        count: blob.garbage.count,
        bytes: blob.garbage.bytes,
    }
}
