//! What holds of memory tables and of the definitions: a caller that needs one of these calls it.

ghost use Rattle.std.specs.List.{AllByRecursion};
ghost use Rattle.bl_entry.specs.Entries.{IsAscending};
ghost use Rattle.bl_entry.specs.Keys.{IsKey};
ghost use Rattle.bl_memtab.specs.Filled.{BatchesAreHeld, HeldIsTheValue, LaterIsFree, NoneIsHeld, OneMoreIsHeld, OperationsAreHeld};
ghost use Rattle.bl_memtab.specs.Laws.{AfterIsAtTheNextPlace, AfterIsNext, FirstIsFromLeast};

use crate::table::MemTable;
use bl_entry::{entries_are_revisions, keys_are_read, latest_is_the_value};

/// The keys of a memory table have the lengths and sequences that keys have, and ascend strictly.
pub fn ascends(table: &MemTable)
    ensures ascending { IsAscending table.now }
    ensures keys { AllByRecursion (λ e. IsKey e.key) table.now }
{
    table.show_order();
}

/// In an ascending list the first entry behind the key of one of them is the next one; the first of all is
/// found from the least key on.
pub fn after_is_next()
    ensures first { FirstIsFromLeast }
    ensures next { AfterIsNext }
    ensures at { AfterIsAtTheNextPlace }
{}

/// A key of a later sequence than all entries of a list is free in it.
pub fn later_is_free()
    ensures { LaterIsFree }
{}

/// A table that is filled with the entries of batches, each of which begins behind the last sequence, has
/// each of them at a free key, ascends, and has exactly these; so it is for each operation, and each list of
/// operations.
pub fn batches_are_held()
    ensures none { NoneIsHeld }
    ensures one { OneMoreIsHeld }
    ensures operations { OperationsAreHeld }
    ensures batches { BatchesAreHeld }
{
    keys_are_read();
}

/// A table that holds batches tells of each key at each sequence what they tell.
pub fn held_is_the_value()
    ensures { HeldIsTheValue }
{
    entries_are_revisions();
    latest_is_the_value();
}
