//! What files a store's version lists.

ghost use Rattle.std.specs.Prelude.{◌≡◌, List, IfOk, IfErr, false};
ghost use Rattle.bl_site.specs.Disk.{Disk, Name, folder_of};
ghost use Rattle.bl_build.specs.Versions.{IsVersion};
ghost use Rattle.bl_store.specs.Held.{Held, now_of};
ghost use Rattle.bl_store.specs.Standing.{IsOnDisk, StandsFor};

use crate::error::StoreErr;
use crate::store::Store;
use bl_build::{BlobMeta, snapshot_edit, version_is_in_order};
use bl_edit::{Items, NewTable};
use bl_open::steady_disks_stand;
use std::alloc::Global;

/// The files of a store's version.
#[derive(Drop)]
pub struct Report {
    /// The tables, by level and then by number.
    pub tables: Items<NewTable>,
    /// The blob files with their accounts, by number.
    pub blobs: Items<BlobMeta>,
}

impl Store {
    /// The tables and the blob files of the store's version. While the store is not broken, they are those of the folder that it stands on,
    /// and this stands for the map after all writes: so each is there and whole, and the accounts are exact.
    ///
    /// Errors: `OutOfMemory`.
    pub fn files(&self, alloc: Global) -> Result<Report, StoreErr>
        ensures tables { IfOk result (λ report. report.tables ≡ self.now.version.tables) }
        ensures blobs { IfOk result (λ report. report.blobs ≡ self.now.version.blobs) }
        ensures order { IsVersion self.now.version }
        ensures on_disk { self.now.broken ≡ false → (names : List Name) (held : Held) (disk : Disk) → StandsFor names held self.now disk → IsOnDisk self.now (now_of held) (folder_of disk) }
        ensures memory { IfErr result (λ e. e ≡ StoreErr.OutOfMemory) }
    {
        version_is_in_order(&self.version);
        steady_disks_stand();
        // The edit that makes this version has its tables, with keys of their own.
        let edit = snapshot_edit(alloc, &self.version, &self.standing)?;
        Ok(Report {
            tables: edit.added,
            blobs: Items::from_vec(Vec::from_slice(alloc, self.version.blobs())?),
        })
    }
}
