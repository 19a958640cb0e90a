//! What holds of flushes: a caller that needs one of these calls it.

ghost use Rattle.bl_folder.specs.FlushLaws.{FlushedAreThere, FlushesApply, FlushesAreHeld, FlushesKeepFiles, FlushesKeepFronts, FlushesKeepMaps, FlushesStand, FlushesStandFirst, HeldAreWhole, LogsAlike, LogsSplit};
ghost use Rattle.bl_folder.specs.Installing.{FlushesRestore, OneEditMore};
ghost use Rattle.bl_folder.specs.Memories.{BatchesAreInBounds, HeldIsMemory};
ghost use Rattle.bl_folder.specs.Quiet.{OthersKeepNeeded, QuietCutsAreLike, QuietCutsKeepNeeded};

use crate::laws::live_parts_have_a_version;
use bl_code::blob_indexes_are_unique;
use bl_edit::edits_are_read;
use bl_entry::{batches_are_read, batches_join, entries_are_revisions, kept_tell_the_same};
use bl_index::index_is_read_again;

/// What a folder holds is whole: its tables and blob files are those of its version, and its batches follow
/// each other behind the last sequence of its version.
pub fn held_are_whole()
    ensures { HeldAreWhole }
{
    live_parts_have_a_version();
    batches_join();
}

/// The edit of a flush is never refused, and leaves no file of the version out. What is held then is sound for
/// the same map, and so it is with each front of the batches that remain; and each snapshot that the flush was
/// given, and each sequence from the last flushed one on, sees the same values.
pub fn flushes_keep_maps()
    ensures apply { FlushesApply }
    ensures files { FlushesKeepFiles }
    ensures maps { FlushesKeepMaps }
    ensures fronts { FlushesKeepFronts }
{
    index_is_read_again();
    blob_indexes_are_unique();
    kept_tell_the_same();
}

/// With one record more that is an edit which is applied, a manifest restores the version behind it, with each
/// field that the edit gives; so behind the edit of a flush it restores what is installed then.
pub fn edits_are_restored()
    ensures more { OneEditMore }
    ensures flushes { FlushesRestore }
{
    index_is_read_again();
    blob_indexes_are_unique();
    edits_are_read();
}

/// A folder that has the files of a flush beside those of the version has all files of what is installed. One that
/// has the edit too, and in its logs the batches that remain, holds what is
/// installed, so that each snapshot sees in it what it saw; it stands for the same map, and with each front of these batches for the map that it stood for with the flushed ones too.
pub fn flushed_folders_stand()
    ensures there { FlushedAreThere }
    ensures held { FlushesAreHeld }
    ensures stand { FlushesStand }
    ensures first { FlushesStandFirst }
{
    index_is_read_again();
    blob_indexes_are_unique();
    kept_tell_the_same();
    live_parts_have_a_version();
    batches_join();
}

/// Where the first logs have the first batches, those behind them have the batches that remain; and folders of
/// whose logs the same is read have the same batches.
pub fn logs_have_the_batches_that_remain()
    ensures split { LogsSplit }
    ensures alike { LogsAlike }
{
    batches_join();
}

/// A memory table that holds batches in bounds is a memory of these: so it may be flushed. The batches of records
/// are in bounds.
pub fn memories_tell_what_was_inserted()
    ensures bounds { BatchesAreInBounds }
    ensures memory { HeldIsMemory }
{
    batches_are_read();
    entries_are_revisions();
}

/// A cut during a call that touches only files of some names, none of them needed, leaves what is needed as a cut of
/// the disk before the call would; and the call leaves what is needed.
pub fn quiet_cuts_keep_needed()
    ensures cuts { QuietCutsAreLike }
    ensures keep { QuietCutsKeepNeeded }
    ensures needed { OthersKeepNeeded }
{}
