//! What holds of the definitions: a caller that needs one of these calls it.

ghost use Rattle.bl_manifest.specs.Laws.{BytesAreDecided, CutAppendsReadAsFronts, CutManifestsReadAsFronts, FaultsHaveOnePlace, FaultyDoNotRestore, ManifestsAreRead, SyncedManifestsAreLeft};

use bl_log::placed_records_are_records;
use bl_records::{cut_files_read_as_fronts, files_are_read, synced_files_are_left};

/// Unless a torn fragment's checksum matches by chance, what a power cut leaves of a manifest reads as the first of its edits, and has
/// each that was synced; during an append, as the edits without the new one or with it.
pub fn cut_manifests_read_as_fronts()
    ensures fronts { CutManifestsReadAsFronts }
    ensures during { CutAppendsReadAsFronts }
{
    cut_files_read_as_fronts();
}

/// A power cut leaves a manifest whose edits are all synced as it was written.
pub fn synced_manifests_are_left()
    ensures { SyncedManifestsAreLeft }
{
    files_are_read();
    synced_files_are_left();
}

/// A manifest reads as its edits.
pub fn manifests_are_read()
    ensures { ManifestsAreRead }
{
    files_are_read();
}

/// The bytes of a manifest restore something, or have a first fault at one place, and not both.
pub fn bytes_are_decided()
    ensures decided { BytesAreDecided }
    ensures not_both { FaultyDoNotRestore }
    ensures one_place { FaultsHaveOnePlace }
{
    placed_records_are_records();
}
