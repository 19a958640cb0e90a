//! The blob file that is written now.

ghost use Rattle.std.specs.Prelude.{◌≡◌, ◌+◌, ◌^◌, ◌<◌, ◌≤◌, List, [], ◌∷◌, ◌++◌, length, true, IfOk, IfErr, IfSome, IsSome, IsErrOf, OnOk};
ghost use Rattle.bl_names.specs.Names.{IsNumber, name_of};
ghost use Rattle.bl_names.specs.declared.name.FileName.TheVariants.{Blob};
ghost use Rattle.bl_site.specs.Causes.{Rose};
ghost use Rattle.bl_site.specs.Quiet.{TellsNothing};
ghost use Rattle.bl_blob.specs.BlobFile.{IsRecord, Record, blob_file, given, totals_of};
ghost use Rattle.bl_out.specs.declared.error.JobErr.TheVariants.{Disk, OutOfMemory};
ghost use Rattle.bl_out.specs.Causes.{IsSealCause};
ghost use Rattle.bl_out.specs.Making.{Follows};
ghost use Rattle.bl_out.specs.Outputs.{addition_of};
ghost use Rattle.bl_out.specs.Quiet.{TouchesOnly};

use crate::append::append_record;
use crate::error::JobErr;
use bl_blob::{Totals, encode_footer};
use bl_edit::BlobAddition;
use bl_index::BlobIndex;
use bl_names::{FileName, print_name};
use bl_site::Site;
use std::alloc::Global;
use std::marker::Model;

/// The blob file that is written now, with its name, and the totals of its records.
#[derive(Drop)]
pub(crate) struct BlobInHand {
    name: String,
    number: u64,
    totals: Totals,
}

impl Model for BlobInHand {
    ghost use Rattle.std.specs.Prelude.{◌≡◌, string_bytes};
    ghost use Rattle.bl_names.specs.Names.{IsNumber, name_of};
    ghost use Rattle.bl_names.specs.declared.name.FileName.TheVariants.{Blob};
    ghost use Rattle.bl_out.specs.States.{BlobHand};

    ghost Value = { BlobHand };

    ghost view = { λ h. record { number = h.number; totals = h.totals } };

    ghost invariant = { λ h. IsNumber h.number × (string_bytes h.name ≡ name_of (Blob h.number)) };
}

impl BlobInHand {
    /// The blob file of this number, without a record.
    ///
    /// Errors: `OutOfMemory` alone.
    pub(crate) fn start(alloc: Global, number: u64) -> Result<BlobInHand, JobErr>
        requires { IsNumber number }
        ensures started { IfOk result (λ hand. hand ≡ record { number = number; totals = totals_of [] }) }
        ensures memory { IfErr result (λ e. e ≡ OutOfMemory) }
    {
        let name = print_name(alloc, &FileName::Blob(number))?;
        Ok(BlobInHand {
            name,
            number,
            totals: Totals { count: 0, bytes: 0 },
        })
    }

    /// The name of its file.
    pub(crate) fn name(&self) -> &str
        ensures { result.now ≡ name_of (Blob self.now.number) }
    {
        self.name.as_str()
    }

    /// How many bytes header and records have so far.
    pub(crate) fn size(&self) -> u128
        ensures { result ≡ 30 + self.now.totals.bytes }
    {
        30 + self.totals.bytes as u128
    }

    /// The totals with a record more, of a key and a value of so many bytes, unless their size would come to 2^63.
    pub(crate) fn totals_behind(&self, key: usize, value: usize) -> Option<Totals>
        ensures totals { IfSome result (λ totals. (rs : List Record) (r : Record) → self.now.totals ≡ totals_of rs → length r.key ≡ key → length r.value ≡ value → totals ≡ totals_of (rs ++ r ∷ [])) }
        ensures count { IfSome result (λ totals. totals.count ≡ self.now.totals.count + 1) }
        ensures bound { IfSome result (λ totals. (30 + totals.bytes < 2 ^ 63) × (self.now.totals.bytes + 32 + key + value ≡ totals.bytes)) }
    {
        let size = 32u64.checked_add(key as u64)?.checked_add(value as u64)?;
        let bytes = self.totals.bytes.checked_add(size)?;
        if bytes >= (1 << 63) - 30 {
            return None;
        }
        let count = self.totals.count.checked_add(1)?;
        Some(Totals { count, bytes })
    }

    /// The index of the next record's value, of a key and a value of so many bytes.
    pub(crate) fn next_index(&self, key: usize, value: usize) -> BlobIndex
        requires { 30 + (self.now.totals.bytes + 32 + key + value) < 2 ^ 63 }
        ensures { result ≡ record { file = self.now.number; offset = 30 + self.now.totals.bytes + 32 + key; size = value } }
    {
        let offset = 30 + self.totals.bytes + 32 + key as u64;
        BlobIndex {
            file: self.number,
            offset,
            size: value as u64,
        }
    }

    /// A record more follows in the file, which is in the folder; its totals are then these. Nothing is copied, and no memory
    /// taken.
    ///
    /// Errors: `Disk`, and `OutOfMemory` of the folder. Any bytes may then follow, at most as many as were to be appended.
    pub(crate) fn write<S: Site>(
        &mut self,
        site: &mut S,
        totals: Totals,
        key: &[u8],
        value: &[u8],
    ) -> Result<(), JobErr>
        requires bounds { IsRecord (record { key = key.now; value = value.now }) }
        requires there { S.shows → IsSome (S.disk site.old (name_of (Blob self.old.number))) }
        ensures totals { self.new ≡ record { number = self.old.number; totals = totals } }
        ensures appended { S.shows → OnOk result ((rs : List Record) → self.old.totals ≡ totals_of rs
            → Follows (name_of (Blob self.old.number)) (given rs) (given (rs ++ record { key = key.now; value = value.now } ∷ [])) (S.disk site.old) (S.disk site.new)) }
        ensures still { S.shows → OnOk result (IsSome (S.disk site.new (name_of (Blob self.old.number)))) }
        ensures certain { S.shows → S.certain site.old → S.certain site.new }
        ensures touches { TouchesOnly S.Site (name_of (Blob self.old.number) ∷ []) site.old site.new }
        ensures asked { Rose (S.changes site.old) (S.changes site.new) }
        ensures tells_nothing { TellsNothing S.Site site.old site.new }
        ensures causes { IfErr result IsSealCause }
        ensures disk { IsErrOf result Disk → Rose (S.disk_faults site.old) (S.disk_faults site.new) }
    {
        let is_first = self.totals.count == 0;
        self.totals = totals;
        append_record(site, self.name.as_str(), is_first, key, value)
    }

    /// What the file is named as once it is closed, and the footer, which is the rest of its bytes. It has some record.
    pub(crate) fn finish(&self) -> (BlobAddition, [u8; 32])
        ensures named { (rs : List Record) → self.now.totals ≡ totals_of rs → result.0 ≡ addition_of (record { number = self.now.number; records = rs; closed = true }) }
        ensures rest { (rs : List Record) → self.now.totals ≡ totals_of rs → 1 ≤ length rs → blob_file rs ≡ given rs ++ result.1 }
        ensures number { result.0.number ≡ self.now.number }
    {
        let addition = BlobAddition {
            number: self.number,
            count: self.totals.count,
            bytes: self.totals.bytes,
        };
        (addition, encode_footer(self.totals.count))
    }
}
