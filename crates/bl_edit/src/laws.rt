//! What holds of the definitions: a caller that needs one of these calls it.

ghost use Rattle.bl_edit.specs.Laws.{ReadsInBounds, ReadsWritten};

/// An edit that is written is read again, and one that is read is in bounds.
pub fn edits_are_read()
    ensures written { ReadsWritten }
    ensures bounds { ReadsInBounds }
{}
