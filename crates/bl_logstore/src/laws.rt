//! What holds of the definitions: a caller that needs one of these calls it.

ghost use Rattle.bl_logstore.specs.Laws.{BatchesAreOnce, BatchesMakeMap, CutsStand, DamagedDoNotStand, OlderLogsAreSynced, StoresStand, SyncedStoresAreLeft, UnsyncedLogsAreNotWhole};

use bl_entry::{batches_join, operations_change_the_map};
use bl_log::placed_records_are_records;
use bl_wal::{cut_logs_read_as_fronts, logs_are_read, records_are_batches, synced_logs_are_left};

/// A folder with a fault does not stand.
pub fn damaged_do_not_stand()
    ensures { DamagedDoNotStand }
{
    batches_join();
    placed_records_are_records();
}

/// The logs of a folder hold one list of batches at most.
pub fn batches_are_once()
    ensures { BatchesAreOnce }
{}

/// The batches, written one after another, make the map of the folder.
pub fn batches_make_the_map()
    ensures { BatchesMakeMap }
{
    operations_change_the_map();
}

/// A disk that an unbroken store stands on is a folder of its batches.
pub fn stores_stand()
    ensures { StoresStand }
{
    batches_join();
    logs_are_read();
}

/// Unless a torn fragment's checksum matches by chance, a power cut leaves of a store's disk a folder of the older batches and of the
/// first ones of the log in use, at least the synced ones.
pub fn cuts_stand()
    ensures { CutsStand }
{
    batches_join();
    cut_logs_read_as_fronts();
    records_are_batches();
}

/// A power cut leaves all batches of a store whose log in use is synced, whatever checksum may match by chance.
pub fn synced_stores_are_left()
    ensures { SyncedStoresAreLeft }
{
    batches_join();
    logs_are_read();
    synced_logs_are_left();
}

/// Where a store stands on a disk and one of its logs has data, no log of a lower number has an unsynced byte.
pub fn older_logs_are_synced()
    ensures { OlderLogsAreSynced }
{}

/// A disk with an unsynced byte below a log with data, as a store that makes its next log too early leaves it, is not whole.
pub fn unsynced_logs_are_not_whole()
    ensures { UnsyncedLogsAreNotWhole }
{}
