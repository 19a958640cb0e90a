//! What holds of the definitions: a caller that needs one of these calls it.

ghost use Rattle.bl_records.specs.Laws.{CutAppendsReadAsFronts, CutFilesReadAsFronts, FilesAreRead, RemnantsReadAsFronts, SyncedFilesAreLeft, SyncedRemnantsAreWhole};

use bl_log::{log_is_read, log_is_read_first, only_written_is_read_first, written_is_log};

/// A file reads as the records written to it.
pub fn files_are_read()
    ensures { FilesAreRead }
{
    written_is_log();
    log_is_read();
}

/// Unless a torn fragment's checksum matches by chance, what a power cut leaves of a file reads as the first of its records, and has
/// each that was synced; while one more is appended and synced, as the records without it or with it.
pub fn cut_files_read_as_fronts()
    ensures remnants { RemnantsReadAsFronts }
    ensures fronts { CutFilesReadAsFronts }
    ensures during { CutAppendsReadAsFronts }
{
    written_is_log();
    log_is_read();
    log_is_read_first();
    only_written_is_read_first();
}

/// A power cut leaves a file whose records are all synced as it was written.
pub fn synced_files_are_left()
    ensures remnants { SyncedRemnantsAreWhole }
    ensures files { SyncedFilesAreLeft }
{}
