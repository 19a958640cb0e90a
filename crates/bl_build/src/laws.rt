//! What holds of the definitions: a caller that needs one of these calls it.

ghost use Rattle.bl_build.specs.Laws.{FoldsAreVersions, ReachesExactly};
ghost use Rattle.bl_build.specs.Versions.{IsVersion};

use crate::version::Version;

/// What edits lead to is a version; and where its accounts are exact, a table entry names each of its blob files.
pub fn versions_reach_exactly()
    ensures versions { FoldsAreVersions }
    ensures reach { ReachesExactly }
{}

/// The numbers of a version are in bounds and come once, its lists are in order, no tables of a level from 1 on overlap, and
/// its blob files have their links and at most their totals of garbage, and are still needed. It takes no memory.
pub fn version_is_in_order(version: &Version)
    ensures { IsVersion version.now }
{
    let _tables = version.all_tables();
}
