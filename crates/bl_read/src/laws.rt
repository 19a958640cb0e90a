//! What holds of what is given to readers: a caller that needs one of these calls it.

ghost use Rattle.bl_read.specs.Laws.{GivenAreWhole, GivenMapsAreOne};
ghost use Rattle.bl_read.specs.Sound.{SoundFoldersGiveTheirMap};
ghost use Rattle.bl_read.specs.Turns.{PairsAreToldInTurn};

use bl_cache::{named_are_read, runs_are_tables};
use bl_folder::held_are_whole;

/// What a version and the memories beside it give at a sequence makes one map.
pub fn given_maps_are_one()
    ensures { GivenMapsAreOne }
{}

/// Where a version gives a map, no table or blob file of it is damaged: so no reading call answers Corrupt there.
pub fn given_versions_are_whole()
    ensures { GivenAreWhole }
{
    runs_are_tables();
    named_are_read();
}

/// Where a folder stands for a map, its version and the memories that have what the batches in its logs write, and perhaps
/// further ones, give readers exactly that map at its last sequence: so a reading call answers by it, and never Corrupt.
pub fn sound_folders_give_their_map()
    ensures { SoundFoldersGiveTheirMap }
{
    held_are_whole();
}

/// The pairs of a map from a bound on are its first pair, and those behind that: so who asks for the first one, then for the
/// first one behind it, and so on, is told exactly these, in their order.
pub fn pairs_are_told_in_turn()
    ensures { PairsAreToldInTurn }
{}
