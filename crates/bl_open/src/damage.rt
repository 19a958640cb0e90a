//! What holds of damage: a caller that needs one of these calls it.

ghost use Rattle.bl_open.specs.DamageLaws.{DamageIsOne, FailingDoNotPass, FailureIsOne, FirstNumberIs, FreshAreNotDamaged, FullAreNotRefused, LackingAreNotFresh, LackingAreNotLive, PassingAreNotDamaged, RefusalIsOne, SoundAreNotDamaged, SoundAreNotRefused};

use bl_entry::batches_join;
use bl_folder::{folders_stand_for_one_map, live_parts_have_a_version};
use bl_log::placed_records_are_records;
use bl_manifest::bytes_are_decided;
use bl_names::text_names_one;
use bl_table::tables_are_read_block_by_block;

/// A version's files do not both pass and fail, and the first that fails is one, at one place.
pub fn files_fail_or_pass()
    ensures not_both { FailingDoNotPass }
    ensures one { FailureIsOne }
{}

/// A folder with a fault in CURRENT or its manifest, or without CURRENT and with a file that no fresh folder has, is neither
/// fresh nor has it a live part.
pub fn lacking_folders_are_not_live()
    ensures fresh { LackingAreNotFresh }
    ensures live { LackingAreNotLive }
{
    bytes_are_decided();
    text_names_one();
}

/// The damage of a folder is one name and one place. A fresh folder has none, nor has a folder with a live part whose files pass
/// and in whose logs are batches behind its last sequence; so a sound folder has none.
pub fn damage_is_one()
    ensures one { DamageIsOne }
    ensures fresh { FreshAreNotDamaged }
    ensures passing { PassingAreNotDamaged }
    ensures sound { SoundAreNotDamaged }
{
    batches_join();
    bytes_are_decided();
    folders_stand_for_one_map();
    live_parts_have_a_version();
    placed_records_are_records();
    tables_are_read_block_by_block();
    text_names_one();
}

/// One reason at most refuses an opening with some words. No damage refuses that of a sound folder, and nothing that of a folder which would take
/// more numbers than are left.
pub fn refusals_are_one()
    ensures one { RefusalIsOne }
    ensures sound { SoundAreNotRefused }
    ensures full { FullAreNotRefused }
{
    damage_is_one();
    folders_stand_for_one_map();
    lacking_folders_are_not_live();
}

/// Where a version's files pass their checks, and the next file number is at least 1 or CURRENT is there, the first number that an
/// opening may take is the next file number, or one more than the greatest number of a name, whichever is greater.
pub fn first_number_is_behind_all()
    ensures { FirstNumberIs }
{}
