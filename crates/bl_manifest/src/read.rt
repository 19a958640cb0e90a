//! Reading a manifest.

ghost use Rattle.std.specs.Prelude.{◌≡◌, ℕ, ◌<◌, ◌≤◌, ◌^◌, List, [], ◌∷◌, length, Err, IfOk, IfErr, IsErrOf, IsTrue, false, None, Some, ◌⊎◌};
ghost use Rattle.bl_site.specs.Disk.{folder_of};
ghost use Rattle.bl_site.specs.Causes.{Rose};
ghost use Rattle.bl_site.specs.Quiet.{OnlyReads};
ghost use Rattle.bl_names.specs.Names.{IsNumber, manifest_name};
ghost use Rattle.bl_build.specs.Restoring.{last_given, standing_of as standing_spec};
ghost use Rattle.bl_manifest.specs.Restores.{HasRestored, IsDamaged, SequenceFits, Taken};

use crate::error::ManifestErr;
use bl_build::{BadVersion, Standing, Version, advance};
use bl_code::Octets;
use bl_edit::{BadEdit, Edit, decode_edit};
use bl_log::placed_records_are_records;
use bl_names::{FILE_LIMIT, FileName, print_name};
use bl_records::{NextRecord, RecordReader};
use bl_site::Site;
use std::alloc::Global;

/// What a manifest restores.
#[derive(Drop)]
pub struct Restored {
    pub version: Version,
    /// What stands beside the version, each field as it was given last.
    pub standing: Standing,
}

// Of the single fields, those that the edit gives take the place of those known before.
fn learn(known: &mut Edit, edit: &Edit)
    ensures { known.new ≡ last_given known.old (edit.now ∷ []) }
{
    known.comparator = edit.comparator || known.comparator;
    known.log_number = edit.log_number.or(known.log_number);
    known.next_file = edit.next_file.or(known.next_file);
    known.last_sequence = edit.last_sequence.or(known.last_sequence);
    known.options = edit.options.or(known.options);
}

// What stands beside the version, where every field is known and the next file number is not too great.
fn standing_of(known: &Edit) -> Option<Standing>
    ensures { result ≡ standing_spec known.now }
{
    if !known.comparator {
        return None;
    }
    let standing = Standing {
        log_number: known.log_number?,
        next_file: known.next_file?,
        last_sequence: known.last_sequence?,
        options: known.options?,
    };
    if standing.next_file <= FILE_LIMIT {
        Some(standing)
    } else {
        None
    }
}

// The version behind a record, where that is an edit that fits. The version before it is moved.
fn take_record(
    alloc: Global,
    version: Version,
    known: &mut Edit,
    payload: &[u8],
) -> Result<Option<Version>, ManifestErr>
    ensures taken { IfOk result (λ next. Taken next payload.now version known.old known.new) }
    ensures fits { SequenceFits known.old → SequenceFits known.new }
    ensures memory { IfErr result (λ e. e ≡ ManifestErr.OutOfMemory) }
{
    let edit = match decode_edit(alloc, payload) {
        Ok(edit) => edit,
        Err(BadEdit::At(_, _)) => return Ok(None),
        Err(BadEdit::OutOfMemory) => return Err(ManifestErr::OutOfMemory),
    };
    match advance(alloc, version, &edit) {
        Ok(next) => {
            learn(known, &edit);
            Ok(Some(next))
        }
        Err(BadVersion::OutOfMemory) => Err(ManifestErr::OutOfMemory),
        Err(_) => Ok(None),
    }
}

fn corrupt(alloc: Global, name: &str, place: u64) -> ManifestErr
    ensures { (result ≡ ManifestErr.OutOfMemory) ⊎ (result ≡ ManifestErr.Corrupt name.now place) }
{
    match Octets::from_slice(alloc, name.as_bytes()) {
        Ok(name) => ManifestErr::Corrupt(name, place),
        Err(_) => ManifestErr::OutOfMemory,
    }
}

/// Reads the manifest of this number, from 1 to 10^15 - 1: the version that its edits lead to from the empty one, and the single
/// fields as they were given last. The last sequence is below 2^56, and the next file number at most 10^15. A manifest that is cut,
/// or damaged, in a fragment ends there. It holds one version, whose tables each edit moves on, one record and one piece of the file
/// at a time.
///
/// Errors: `Corrupt` with the manifest's name: at 0 where it is not in the folder; behind a record that is no edit, or whose edit
/// does not fit the version; and at the place where reading ends where a field is not known, or the next file number is above
/// 10^15; of these the first by place. `Disk`; `OutOfMemory`. In each case nothing changed.
pub fn read_all<S: Site>(alloc: Global, site: &mut S, number: u64) -> Result<Restored, ManifestErr>
    requires { IsNumber number }
    ensures restored { S.shows → IfOk result (λ r. HasRestored (folder_of (S.disk site.old)) number (record { version = r.version; standing = r.standing })) }
    ensures corrupt { S.shows → (file : List ℕ) (place : ℕ) → result ≡ Err (ManifestErr.Corrupt file place) → (file ≡ manifest_name number) × IsDamaged (folder_of (S.disk site.old)) number place }
    ensures bounds { IfOk result (λ r. r.standing.last_sequence < 2 ^ 56) }
    ensures numbers { IfOk result (λ r. r.standing.next_file ≤ 10 ^ 15) }
    ensures named { (file : List ℕ) (place : ℕ) → result ≡ Err (ManifestErr.Corrupt file place) → file ≡ manifest_name number }
    ensures quiet { OnlyReads S.Site site.old site.new }
    ensures disk { IsErrOf result ManifestErr.Disk → Rose (S.disk_faults site.old) (S.disk_faults site.new) }
{
    let name = print_name(alloc, &FileName::Manifest(number))?;
    let mut records = RecordReader::open(alloc, name)?;
    let mut version = Version::empty(alloc);
    let mut known = Edit::new(alloc);
    placed_records_are_records();
    'records: for _ in 0..u64::MAX {
        match records.next(site)? {
            NextRecord::Record(payload) => {
                let taken = take_record(alloc, version, &mut known, payload.as_slice())?;
                let Some(next) = taken else {
                    return Err(corrupt(alloc, records.name(), records.place()));
                };
                version = next;
            }
            NextRecord::End(place, _) => {
                let Some(standing) = standing_of(&known) else {
                    return Err(corrupt(alloc, records.name(), place));
                };
                return Ok(Restored { version, standing });
            }
            NextRecord::Absent => return Err(corrupt(alloc, records.name(), 0)),
        }
    }
    Err(ManifestErr::OutOfMemory)
}
