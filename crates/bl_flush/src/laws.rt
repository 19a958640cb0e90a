//! What holds of flushes: a caller that needs one of these calls it.

ghost use Rattle.bl_flush.specs.Laws.{FlushesMakeKept};

use bl_out::outputs_write_what_they_are_given;

/// What is added of a memory are its kept entries: each large value is the next record of a blob file, with its index in
/// the one table, and all else stands in the table as it is.
pub fn flushes_make_what_is_kept()
    ensures { FlushesMakeKept }
{
    outputs_write_what_they_are_given();
}
