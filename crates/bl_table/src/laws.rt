//! What holds of the definitions: a caller that needs one of these calls it.

ghost use Rattle.bl_table.specs.Grammar.{ReadsTables};
ghost use Rattle.bl_table.specs.Laws.{ReadsBuilt};

/// The table that a builder gave of ascending entries, of fewer than 2^64 bytes, is read as exactly these
/// entries.
pub fn tables_are_read_again()
    ensures { ReadsBuilt }
{}

/// A whole table is read as a list of entries exactly where its footer and its blocks, each read by itself, are
/// those of a table of this list: one block after another, with keys that ascend.
pub fn tables_are_read_block_by_block()
    ensures { ReadsTables }
{}
