//! What holds of the definitions: a caller that needs one of these calls it.

ghost use Rattle.bl_compacted.specs.Laws.{CompactionsInstall, CompactionsKeep, DuePlansAreClosed, DuePlansFit, FlushesKeepClosed, FlushesKeepInstall, FullPlansAreClosed, FullPlansFit, FullPlansLeaveNoGarbage, HeldByFolders, OutputsAreLinkedBehind, OutputsReachExactly, RewritesCompact};

use bl_entry::batches_join;
use bl_folder::live_parts_have_a_version;
use bl_table::tables_are_read_block_by_block;

/// The edit of a compaction is accepted: it meets no refusal of a version's step, and leads to the version of
/// the tables and blob files that are there then.
pub fn compactions_install()
    ensures { CompactionsInstall }
{}

/// What is held after a compaction is sound and stands for the same map. Each snapshot of the plan, and each
/// sequence that no input is ahead of, reads as before.
pub fn compactions_keep()
    ensures { CompactionsKeep }
{}

/// No reference that comes out is to a file below the cutoff, unless the compaction made it; and where all
/// tables went in and every file is below the cutoff, no blob file has garbage after.
pub fn compactions_reach_exactly()
    ensures outputs { OutputsReachExactly }
    ensures linked { OutputsAreLinkedBehind }
    ensures full { FullPlansLeaveNoGarbage }
{}

/// What is due may be carried out: each table that stays keeps its place to the inputs. So it is of the plan for
/// all tables, which leaves none; and so it stays where flushes put tables into level 0 meanwhile.
pub fn plans_are_closed()
    ensures due { DuePlansAreClosed }
    ensures full { FullPlansAreClosed }
    ensures flushes { FlushesKeepClosed }
{}

/// The inputs of such a plan are tables of the version, at least one, in ascending order of number, and its
/// output level is one of the seven.
pub fn plans_fit()
    ensures due { DuePlansFit }
    ensures full { FullPlansFit }
{}

/// What a folder holds, where its tables are as the version names them, has the files that the version lists, the entries of each table
/// within its range, and its batches behind the last sequence of the manifest.
pub fn folders_are_held()
    ensures { HeldByFolders }
{
    tables_are_read_block_by_block();
    live_parts_have_a_version();
    batches_join();
}

/// What a job did with its inputs alone is a compaction of what is held where its edit is installed: where its
/// plan may still be carried out, its inputs and what they name are as they were, and its numbers are new. So it
/// stays where a flush is installed meanwhile.
pub fn jobs_compact()
    ensures compact { RewritesCompact }
    ensures flushes { FlushesKeepInstall }
{}
