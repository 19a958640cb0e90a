//! What a compaction has to show for its installation, as laws of steady disks.

ghost use Rattle.bl_store.specs.CompactionLaws.{CompactedStayBelow, DoneCompactionsInstall, DueMayInstall, JobsAreCompactions, NumbersAreFresh, SnapshotsSeeTheSame, SteadyAreHeld};

use bl_compacted::{
    compactions_install, compactions_keep, folders_are_held, jobs_compact, plans_are_closed,
};
use bl_open::{steady_disks_stand, tables_are_installed};

/// What a steady disk holds has all that a compaction asks for; a plan that is due of it may be carried out and installed there, where the
/// numbers of what it makes are new; and what a job did that may be installed is a compaction of what is held.
pub fn jobs_may_be_installed()
    ensures held { SteadyAreHeld }
    ensures due { DueMayInstall }
    ensures jobs { JobsAreCompactions }
    ensures fresh { NumbersAreFresh }
{
    steady_disks_stand();
    folders_are_held();
    plans_are_closed();
    jobs_compact();
}

/// A compaction whose tables and blob files are on a steady disk, and synced, may be installed there, for the same maps. Behind it the
/// numbers of the version are below the next one, and each snapshot of the plan sees what it saw.
pub fn compactions_are_installed()
    ensures install { DoneCompactionsInstall }
    ensures below { CompactedStayBelow }
    ensures values { SnapshotsSeeTheSame }
{
    jobs_may_be_installed();
    compactions_keep();
    compactions_install();
    tables_are_installed();
}
