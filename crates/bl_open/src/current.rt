//! How an opening lets CURRENT name its manifest.

ghost use Rattle.std.specs.Prelude.{◌≡◌, [], ◌∷◌, length, IsSome, OnOk};
ghost use Rattle.bl_site.specs.Calls.{DoneOrNot, LeavesOnly, Renames};
ghost use Rattle.bl_site.specs.Quiet.{TellsNothing};
ghost use Rattle.bl_names.specs.declared.name.FileName.TheVariants.{Current, Temp};
ghost use Rattle.bl_names.specs.Names.{IsNumber, name_of};
ghost use Rattle.bl_records.specs.Writing.{MakesSynced};
ghost use Rattle.bl_out.specs.Quiet.{TouchesOnly};
ghost use Rattle.bl_open.specs.Causes.{FailsByFolder};
ghost use Rattle.bl_open.specs.Steady.{Maps, Steady, accepted};
ghost use Rattle.bl_open.specs.Found.{Found, IsLeftAs, RestsAs};
ghost use Rattle.bl_open.specs.SteadyCalls.{HasText, IsReady};
ghost use Rattle.bl_open.specs.SteadyCuts.{LeavesStanding};

use crate::error::OpenErr;
use crate::laws::barriers_let_disks_rest;
use crate::steady::{renames_make_disks_steady, steady_disks_are_left};
use bl_site::Site;

/// Makes a temporary file of this text, which CURRENT is to have, and syncs it. It takes no memory of its own.
///
/// Errors: `Disk`, and `OutOfMemory` of the folder, after which no other file has changed.
pub(crate) fn write_temp<S: Site>(site: &mut S, name: &str, text: &[u8]) -> Result<(), OpenErr>
    ensures made { S.shows → OnOk result (MakesSynced name.now text.now (S.disk site.old) (S.disk site.new)) }
    ensures touches { TouchesOnly S.Site (name.now ∷ []) site.old site.new }
    ensures certain { S.shows → OnOk result (S.certain site.new) }
    ensures tells_nothing { TellsNothing S.Site site.old site.new }
    ensures fails { FailsByFolder S.Site result site.old site.new }
{
    site.create(name)?;
    site.append(name, text)?;
    site.sync(name)?;
    Ok(())
}

/// Renames the temporary file of this number, which is in the folder, to CURRENT. It is done at `Ok`, and done or not
/// done otherwise. Where CURRENT's text stands in it and all else is there that a store stands on, a cut meanwhile
/// leaves the map that was found. It takes no memory of its own.
///
/// Errors: `Disk`, and `OutOfMemory` of the folder.
pub(crate) fn rename_current<S: Site>(
    site: &mut S,
    from: &str,
    to: &str,
    temp: u64,
) -> Result<(), OpenErr>
    requires number { IsNumber temp }
    requires from_named { from.now ≡ name_of (Temp temp) }
    requires to_named { to.now ≡ name_of Current }
    requires there { S.shows → IsSome (S.disk site.old from.now) }
    ensures done { S.shows → OnOk result (Renames from.now to.now (S.disk site.old) (S.disk site.new)) }
    ensures either { S.shows → DoneOrNot (Renames from.now to.now) (S.disk site.old) (S.disk site.new) }
    ensures touches { TouchesOnly S.Site (from.now ∷ to.now ∷ []) site.old site.new }
    ensures cuts { S.shows → S.certain site.old → (maps : Maps) (s : Steady) (found : Found) → RestsAs found (maps (accepted s)) (S.disk site.old) → IsReady maps s (S.disk site.old)
        → HasText temp s.manifest.number (S.disk site.old) → s.synced ≡ length s.own
        → LeavesOnly S.clock S.left_since site.old site.new (LeavesStanding (IsLeftAs found (maps (accepted s))) (S.told site.old)) }
    ensures certain { S.shows → OnOk result (S.certain site.new) }
    ensures tells_nothing { TellsNothing S.Site site.old site.new }
    ensures fails { FailsByFolder S.Site result site.old site.new }
{
    steady_disks_are_left();
    renames_make_disks_steady();
    barriers_let_disks_rest();
    site.rename(from, to)?;
    Ok(())
}
