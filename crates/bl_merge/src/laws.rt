//! What holds of merged lists: a caller that needs one of these calls it.

ghost use Rattle.bl_merge.specs.Laws.{MergedIsAll, MergedIsInOrder, TiesStay, LatestTellsTheValue};

/// A merged list has the entries of all lists, in key order; those that pass a test stand in it as they do where
/// they alone are put in order.
pub fn merged_lists_are_in_order()
    ensures all { MergedIsAll }
    ensures order { MergedIsInOrder }
    ensures ties { TiesStay }
{}

/// In a list in key order the first entry of a user key up to a sequence tells the key's value at this sequence,
/// whatever the entries put.
pub fn latest_tells_the_value()
    ensures { LatestTellsTheValue }
{}
