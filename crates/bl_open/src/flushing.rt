//! What holds of the flush of an opening: a caller that needs one of these calls it.

ghost use Rattle.bl_open.specs.Flushing.{CutsBesideRest, DrawnAreUnneeded, FlushedAreBelow, FlushedHaveTables, JobEditsApply, OthersKeepRest, SnapshotsRestore};

use bl_code::blob_indexes_are_unique;
use bl_folder::{
    flushed_folders_stand, flushes_keep_maps, folders_stand_for_one_map, live_parts_have_a_version,
    other_files_do_not_matter, quiet_cuts_keep_needed, synced_disks_keep_their_map,
};
use bl_index::index_is_read_again;
use bl_names::names_one;

/// Files whose numbers are drawn behind those of the version are not needed: while no others change, a disk that rests stays what
/// was found, and a power cut leaves it for its map.
pub fn drawn_files_let_disks_rest()
    ensures unneeded { DrawnAreUnneeded }
    ensures rest { OthersKeepRest }
    ensures cuts { CutsBesideRest }
{
    names_one();
    folders_stand_for_one_map();
    other_files_do_not_matter();
    quiet_cuts_keep_needed();
    synced_disks_keep_their_map();
    live_parts_have_a_version();
}

/// Behind a flush of all batches that the logs held, the tables and the blob files alone make the map, and the edit of the flush leads
/// to them; a manifest of one edit restores them.
pub fn flushed_tables_make_the_map()
    ensures tables { FlushedHaveTables }
    ensures applies { JobEditsApply }
    ensures below { FlushedAreBelow }
    ensures snapshots { SnapshotsRestore }
{
    names_one();
    index_is_read_again();
    blob_indexes_are_unique();
    flushed_folders_stand();
    flushes_keep_maps();
}
