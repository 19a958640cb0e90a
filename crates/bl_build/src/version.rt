//! Versions.

ghost use Rattle.std.specs.Prelude.{◌≡◌, ◌≤◌, IfOk};
ghost use Rattle.bl_build.specs.Listing.{at_level, nothing};
ghost use Rattle.bl_build.specs.Versions.{IsVersion};

use crate::error::BuildErr;
use crate::meta::BlobMeta;
use crate::table::{copies, level_of};
use bl_edit::NewTable;
use std::alloc::Global;
use std::marker::Model;

/// The tables of each level and the blob files, as edits made them. Contracts see the listing: the tables by
/// level and then by number, and the blob files by number.
#[derive(Drop)]
pub struct Version {
    tables: Vec<NewTable>,
    blobs: Vec<BlobMeta>,
}

impl Model for Version {
    ghost use Rattle.bl_build.specs.Listing.{Listing};

    ghost Value = { Listing };

    ghost use Rattle.bl_build.specs.Versions.{IsVersion};

    ghost view = { λ v. record { tables = v.tables.items; blobs = v.blobs.items } };

    ghost invariant = { λ v. IsVersion (record { tables = v.tables.items; blobs = v.blobs.items }) };
}

impl Version {
    /// The version with no table and no blob file; it takes no memory yet.
    pub fn empty(alloc: Global) -> Version
        ensures { result ≡ nothing }
    {
        Version {
            tables: Vec::new(alloc),
            blobs: Vec::new(alloc),
        }
    }

    /// The tables of a level, at most 6, by ascending number; none where the level is empty.
    pub fn tables(&self, level: u32) -> &[NewTable]
        requires { level ≤ 6 }
        ensures { result.now ≡ at_level level self.now.tables }
    {
        level_of(self.tables.as_slice(), level)
    }

    /// The blob files with their accounts, by ascending number.
    pub fn blobs(&self) -> &[BlobMeta]
        ensures { result.now ≡ self.now.blobs }
    {
        self.blobs.as_slice()
    }

    /// The same version once more, with keys of its own; `OutOfMemory` where memory runs out.
    pub fn copy(&self, alloc: Global) -> Result<Version, BuildErr>
        ensures { IfOk result (λ version. version ≡ self.now) }
    {
        Ok(Version {
            tables: copies(alloc, self.tables.as_slice())?,
            blobs: Vec::from_slice(alloc, self.blobs.as_slice())?,
        })
    }

    /// All tables, by level and then by number; and what holds of each version.
    pub fn all_tables(&self) -> &[NewTable]
        ensures value { result.now ≡ self.now.tables }
        ensures version { IsVersion self.now }
    {
        self.tables.as_slice()
    }

    /// All tables, by level and then by number, and the blob files by number.
    pub(crate) fn into_parts(self) -> (Vec<NewTable>, Vec<BlobMeta>)
        ensures tables { result.0.items ≡ self.tables }
        ensures blobs { result.1.items ≡ self.blobs }
        ensures version { IsVersion self }
    {
        (self.tables, self.blobs)
    }

    pub(crate) fn from_parts(tables: Vec<NewTable>, blobs: Vec<BlobMeta>) -> Version
        requires { IsVersion (record { tables = tables.items; blobs = blobs.items }) }
        ensures { result ≡ record { tables = tables.items; blobs = blobs.items } }
    {
        Version { tables, blobs }
    }
}
