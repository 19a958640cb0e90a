//! What holds of the definitions: a caller that needs one of these calls it.

ghost use Rattle.bl_wal.specs.Laws.{CutLogsReadAsFronts, SyncedLogsAreLeft, LogsAreRead, FrontsAreRead, NextBatchIsRead};

use bl_entry::batches_join;
use bl_records::{cut_files_read_as_fronts, files_are_read, synced_files_are_left};

/// Unless a torn fragment's checksum matches by chance, what a power cut leaves of a log reads as the first of its batches, and has
/// each that was synced.
pub fn cut_logs_read_as_fronts()
    ensures { CutLogsReadAsFronts }
{
    cut_files_read_as_fronts();
}

/// A power cut leaves a log whose batches are all synced as it was written.
pub fn synced_logs_are_left()
    ensures { SyncedLogsAreLeft }
{
    synced_files_are_left();
}

/// A log reads as its batches.
pub fn logs_are_read()
    ensures { LogsAreRead }
{
    files_are_read();
}

/// Where records are batches, one behind the other, the first so many of them are the first so many batches; and the next batch may
/// follow.
pub fn records_are_batches()
    ensures fronts { FrontsAreRead }
    ensures next { NextBatchIsRead }
{
    batches_join();
}
