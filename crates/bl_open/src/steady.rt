//! What holds of the definitions: a caller that needs one of these calls it.

ghost use Rattle.bl_open.specs.SteadyLaws.{BackedStay, BatchesMakeMaps, BeginningsAreBacked, CutsOfInstalling, CutsOfRest, CutsOfResting, CutsOfSteady, EditsRestore, FilesStay, FlushesInstall, FrontsFollow, InstallsKeepCounts, InstallsKeepSteady, LogsAreWhole, NewLogsAreQuiet, NewLogsKeepRest, QuietKeepsRest, QuietKeepsSteady, ReadsAreCuts, RenamesAreQuiet, RenamesMakeSteady, RewritesInstall, SettledRest, SparesKeepRest, SteadyAreSettled, SteadyHold, SteadyHoldWritten, SteadyStand, SteadyStandFirst, StepsFollow, SwitchesKeepSteady, SyncedAreLeft, SyncsKeepSettled, SyncsKeepSteady, SyncsSync, TempsKeepReady, TempsKeepRest, TornInstallsAreSettled, UnneededAreQuiet, UnneededByName, WritesKeepSteady};

use bl_entry::{batches_join, operations_change_the_map};
use bl_folder::{
    folders_stand_for_one_map, fresh_folders_stand_for_the_empty_map, live_parts_have_a_version,
    other_files_do_not_matter, synced_disks_keep_their_map,
};
use bl_manifest::{cut_manifests_read_as_fronts, manifests_are_read, synced_manifests_are_left};
use bl_names::names_one;
use bl_wal::{cut_logs_read_as_fronts, logs_are_read, records_are_batches, synced_logs_are_left};

/// While no call has failed, the folder of a steady disk holds what is held, and stands for its maps; the disk is
/// settled. Whether or not, its files hold that as they are written, and its logs are whole: wherever one has a
/// byte, no needed one of a lower number has an unsynced byte.
pub fn steady_disks_stand()
    ensures hold { SteadyHold }
    ensures written { SteadyHoldWritten }
    ensures first { SteadyStandFirst }
    ensures stand { SteadyStand }
    ensures settled { SteadyAreSettled }
    ensures whole { LogsAreWhole }
{
    batches_join();
    logs_are_read();
    records_are_batches();
    manifests_are_read();
    synced_manifests_are_left();
}

/// Unless a torn fragment's checksum matches by chance, a power cut leaves of a steady disk a folder that stands
/// for the map after some first writes, all durable ones among them; and for the last map where all are synced,
/// whatever checksum may match by chance.
pub fn steady_disks_are_left()
    ensures cuts { CutsOfSteady }
    ensures synced { SyncedAreLeft }
    ensures reads { ReadsAreCuts }
{
    batches_join();
    logs_are_read();
    records_are_batches();
    cut_logs_read_as_fronts();
    synced_logs_are_left();
    synced_manifests_are_left();
}

/// A call that changes no needed name, and makes no log but an empty one behind the log in use, keeps a disk
/// steady.
pub fn quiet_calls_keep_disks_steady()
    ensures keeps { QuietKeepsSteady }
    ensures names { UnneededByName }
    ensures unneeded { UnneededAreQuiet }
    ensures renames { RenamesAreQuiet }
    ensures logs { NewLogsAreQuiet }
{
    names_one();
    logs_are_read();
    live_parts_have_a_version();
    synced_manifests_are_left();
}

/// A write keeps a disk steady with one batch more, and so does a sync of the log in use; once that log is synced
/// and the next one is made, the next one is in use. This holds also where the folder fails.
pub fn writes_keep_disks_steady()
    ensures sound { BatchesMakeMaps }
    ensures writes { WritesKeepSteady }
    ensures syncs { SyncsKeepSteady }
    ensures switches { SwitchesKeepSteady }
{
    names_one();
    batches_join();
    operations_change_the_map();
    logs_are_read();
    records_are_batches();
    live_parts_have_a_version();
    synced_manifests_are_left();
}

/// While an edit is appended to the manifest and synced, a power cut leaves a folder for the map after the same writes, unless the
/// checksum of a torn fragment matches by chance; then the disk is steady with what was installed.
pub fn installations_keep_disks_steady()
    ensures cuts { CutsOfInstalling }
    ensures settled { TornInstallsAreSettled }
    ensures counts { InstallsKeepCounts }
    ensures keeps { InstallsKeepSteady }
{
    names_one();
    batches_join();
    logs_are_read();
    records_are_batches();
    cut_logs_read_as_fronts();
    live_parts_have_a_version();
    cut_manifests_read_as_fronts();
    synced_manifests_are_left();
}

/// What a flush and a compaction have to show for an installation: that their tables are there, and alone make the
/// map behind which the batches follow that are left in logs; and what an opening has to show.
pub fn tables_are_installed()
    ensures edits { EditsRestore }
    ensures steps { StepsFollow }
    ensures fronts { FrontsFollow }
    ensures files { FilesStay }
    ensures backed { BackedStay }
    ensures flushes { FlushesInstall }
    ensures rewrites { RewritesInstall }
    ensures beginnings { BeginningsAreBacked }
{
    names_one();
    batches_join();
    operations_change_the_map();
    logs_are_read();
    records_are_batches();
}

/// A sync keeps a disk settled. Past the barrier of an opening a settled disk rests: a power cut leaves it for the
/// map that it stands for, also while files that are not needed are made and changed. Once CURRENT is renamed to
/// name a manifest that is ready, the disk is steady.
pub fn renames_make_disks_steady()
    ensures rest { QuietKeepsRest }
    ensures before { CutsOfRest }
    ensures resting { CutsOfResting }
    ensures syncs { SyncsSync }
    ensures kept { SyncsKeepSettled }
    ensures settled { SettledRest }
    ensures spares { SparesKeepRest }
    ensures logs { NewLogsKeepRest }
    ensures temps { TempsKeepRest }
    ensures ready { TempsKeepReady }
    ensures after { RenamesMakeSteady }
{
    names_one();
    logs_are_read();
    folders_stand_for_one_map();
    live_parts_have_a_version();
    fresh_folders_stand_for_the_empty_map();
    other_files_do_not_matter();
    synced_disks_keep_their_map();
    synced_manifests_are_left();
}
