//! What holds of the definitions: a caller that needs one of these calls it.

ghost use Rattle.bl_out.specs.Laws.{ApartInAnyOrder, OnceInAnyOrder, ValuesAreReadAt, ValuesInAnyOrder};
ghost use Rattle.bl_out.specs.Made.{AddedIsMade, BegunIsMade, SealsNext, SealsToTheEnd};
ghost use Rattle.bl_out.specs.Reads.{OutputsAreRead, OutputsFit};

use bl_code::blob_indexes_are_unique;
use bl_entry::keys_are_read;
use bl_index::index_is_read_again;
use bl_table::tables_are_read_again;

/// Where an index resolves to a value of a blob file, its record stands in the file: it begins 32 bytes and the
/// key before the index's offset, and is a whole record of this key and size.
pub fn values_are_read_at()
    ensures { ValuesAreReadAt }
{}

/// The order of entries does not matter: where no user key and sequence occur twice, entries in another order
/// tell the same values; that none occurs twice, and that no record is referenced twice, holds in each order.
pub fn order_does_not_matter()
    ensures values { ValuesInAnyOrder }
    ensures once { OnceInAnyOrder }
    ensures apart { ApartInAnyOrder }
{}

/// An output has made no file as it begins. With each proper entry that is added it goes on to write what it was given:
/// each large value is the next record of a blob file, with its index in the table, and all else stands in a table as it
/// is. Its files have some contents and ascending numbers, and its blob files are closed exactly where they have reached
/// their size.
pub fn outputs_write_what_they_are_given()
    ensures begun { BegunIsMade }
    ensures added { AddedIsMade }
{}

/// Sealing file by file closes and seals the next one each time, and ends with all closed and sealed.
pub fn outputs_are_sealed_file_by_file()
    ensures next { SealsNext }
    ensures end { SealsToTheEnd }
{}

/// The files of a finished output are read by the grammars of tables and blob files: they are in the folder and synced,
/// the edit names them, and they write what the output was given. The edit is in bounds.
pub fn finished_outputs_are_read()
    ensures read { OutputsAreRead }
    ensures fit { OutputsFit }
{
    index_is_read_again();
    blob_indexes_are_unique();
    keys_are_read();
    tables_are_read_again();
}
