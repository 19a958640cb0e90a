//! What holds of the definitions: a caller that needs one of these calls it.

ghost use Rattle.bl_open.specs.OpeningLaws.{CutsOfRestsAs, FreshHasTables, FreshRests, LogsBegin, ManifestsMakeReady, NewFilesStay, NewNumbersAreSpare, OpeningsLeaveMaps, RestsAreSettled, RestsAreRests, SettledRestAs, SparesCut, SparesStay, SparesTouched};

use crate::steady::{renames_make_disks_steady, tables_are_installed};
use bl_entry::batches_join;
use bl_folder::{
    folders_stand_for_one_map, live_parts_have_a_version, other_files_do_not_matter,
    quiet_cuts_keep_needed, synced_disks_keep_their_map,
};
use bl_manifest::synced_manifests_are_left;
use bl_names::names_one;
use bl_records::cut_files_read_as_fronts;
use bl_wal::{logs_are_read, records_are_batches};

/// Past the barrier a settled disk rests, and it does while files are made and written that are not needed, and a
/// new log is made: a power cut leaves it for the map that it stands for, with its needed logs whole.
pub fn barriers_let_disks_rest()
    ensures settled { SettledRestAs }
    ensures fresh { FreshRests }
    ensures rests { RestsAreRests }
    ensures spares { SparesStay }
    ensures touched { SparesTouched }
    ensures files { NewFilesStay }
    ensures left { SparesCut }
    ensures cuts { CutsOfRestsAs }
    ensures stay_settled { RestsAreSettled }
    ensures numbers { NewNumbersAreSpare }
{
    names_one();
    folders_stand_for_one_map();
    live_parts_have_a_version();
    other_files_do_not_matter();
    quiet_cuts_keep_needed();
    synced_disks_keep_their_map();
    renames_make_disks_steady();
}

/// Tables, a new log and a manifest that restores them are all that a store stands on, but for CURRENT.
pub fn stores_begin()
    ensures logs { LogsBegin }
    ensures ready { ManifestsMakeReady }
    ensures fresh { FreshHasTables }
{
    names_one();
    live_parts_have_a_version();
    synced_manifests_are_left();
    tables_are_installed();
}

/// Where a disk was steady and no call had failed, a power cut during an opening of it leaves, unless a torn fragment's checksum
/// matches by chance, a folder that stands for the map after some first writes, all durable ones among them.
pub fn openings_leave_maps()
    ensures { OpeningsLeaveMaps }
{
    batches_join();
    logs_are_read();
    records_are_batches();
    cut_files_read_as_fronts();
    synced_manifests_are_left();
}
