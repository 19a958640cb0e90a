//! Bytes follow in a file. A record of a blob file is appended in pieces: nothing of it is copied, and no memory is taken.

ghost use Rattle.std.specs.Prelude.{◌≡◌, ◌≤◌, [], ◌∷◌, ◌++◌, List, ℕ, IsSome, IfErr, IsErrOf, OnErr, OnOk, if◌then◌else◌};
ghost use Rattle.bl_site.specs.Calls.{Appends};
ghost use Rattle.bl_site.specs.Causes.{Rose};
ghost use Rattle.bl_site.specs.Quiet.{TellsNothing};
ghost use Rattle.bl_blob.specs.BlobFile.{IsRecord, header, record_bytes};
ghost use Rattle.bl_out.specs.Causes.{IsSealCause};
ghost use Rattle.bl_out.specs.Quiet.{TouchesOnly};
ghost use Rattle.bl_out.specs.declared.error.JobErr.TheVariants.{Disk};

use crate::error::JobErr;
use bl_blob::{encode_header, record_head};
use bl_site::Site;

/// The bytes follow in the file, which is in the folder. It takes no memory of its own.
///
/// Errors: `Disk`, after which any bytes may follow, at most as many as these; `OutOfMemory` of the folder, after which none do.
pub(crate) fn append<S: Site>(site: &mut S, name: &str, bytes: &[u8]) -> Result<(), JobErr>
    requires { S.shows → IsSome (S.disk site.old name.now) }
    ensures appended { S.shows → OnOk result (Appends name.now bytes.now bytes.now (S.disk site.old) (S.disk site.new)) }
    ensures certain { S.shows → S.certain site.old → S.certain site.new }
    ensures touches { TouchesOnly S.Site (name.now ∷ []) site.old site.new }
    ensures asked { Rose (S.changes site.old) (S.changes site.new) }
    ensures tells_nothing { TellsNothing S.Site site.old site.new }
    ensures causes { IfErr result IsSealCause }
    ensures disk { IsErrOf result Disk → Rose (S.disk_faults site.old) (S.disk_faults site.new) }
{
    site.append(name, bytes)?;
    Ok(())
}

// Two pieces follow, one behind the other.
fn append_two<S: Site>(site: &mut S, name: &str, first: &[u8], second: &[u8]) -> Result<(), JobErr>
    requires { S.shows → IsSome (S.disk site.old name.now) }
    ensures appended { S.shows → OnOk result (Appends name.now (first.now ++ second.now) (first.now ++ second.now) (S.disk site.old) (S.disk site.new)) }
    ensures certain { S.shows → S.certain site.old → S.certain site.new }
    ensures touches { TouchesOnly S.Site (name.now ∷ []) site.old site.new }
    ensures asked { Rose (S.changes site.old) (S.changes site.new) }
    ensures tells_nothing { TellsNothing S.Site site.old site.new }
    ensures causes { IfErr result IsSealCause }
    ensures disk { IsErrOf result Disk → Rose (S.disk_faults site.old) (S.disk_faults site.new) }
{
    append(site, name, first)?;
    append(site, name, second)
}

// The header follows, if it is the first record, and the head of a record.
fn append_head<S: Site>(site: &mut S, name: &str, is_first: bool, head: &[u8]) -> Result<(), JobErr>
    requires { S.shows → IsSome (S.disk site.old name.now) }
    ensures appended { S.shows → (bytes : List ℕ) → bytes ≡ (if is_first then header else []) ++ head.now → OnOk result (Appends name.now bytes bytes (S.disk site.old) (S.disk site.new)) }
    ensures certain { S.shows → S.certain site.old → S.certain site.new }
    ensures touches { TouchesOnly S.Site (name.now ∷ []) site.old site.new }
    ensures asked { Rose (S.changes site.old) (S.changes site.new) }
    ensures tells_nothing { TellsNothing S.Site site.old site.new }
    ensures causes { IfErr result IsSealCause }
    ensures disk { IsErrOf result Disk → Rose (S.disk_faults site.old) (S.disk_faults site.new) }
{
    if is_first {
        append_two(site, name, &encode_header(), head)
    } else {
        append(site, name, head)
    }
}

/// A record follows in a blob file, which is in the folder, behind the header where it is the first. The value is
/// handed on as it is: nothing is copied, and no memory is taken.
///
/// Errors: `Disk`, and `OutOfMemory` of the folder. Any bytes may then follow, at most as many as were to be appended.
pub(crate) fn append_record<S: Site>(
    site: &mut S,
    name: &str,
    is_first: bool,
    key: &[u8],
    value: &[u8],
) -> Result<(), JobErr>
    requires bounds { IsRecord (record { key = key.now; value = value.now }) }
    requires there { S.shows → IsSome (S.disk site.old name.now) }
    ensures appended { S.shows → (bytes : List ℕ) → bytes ≡ (if is_first then header else []) ++ record_bytes (record { key = key.now; value = value.now })
        → OnOk result (Appends name.now bytes bytes (S.disk site.old) (S.disk site.new)) }
    ensures certain { S.shows → S.certain site.old → S.certain site.new }
    ensures touches { TouchesOnly S.Site (name.now ∷ []) site.old site.new }
    ensures asked { Rose (S.changes site.old) (S.changes site.new) }
    ensures tells_nothing { TellsNothing S.Site site.old site.new }
    ensures causes { IfErr result IsSealCause }
    ensures disk { IsErrOf result Disk → Rose (S.disk_faults site.old) (S.disk_faults site.new) }
{
    append_head(site, name, is_first, &record_head(key, value))?;
    append_two(site, name, key, value)
}
