//! What holds of reading: a caller that needs one of these calls it.

ghost use Rattle.bl_cache.specs.Laws.{NamedAreRead, RunsAreTables, TablesAreRuns};

/// A run has the entries of the table that the file is, and a table whose entries are in bounds is read as a run.
pub fn runs_are_tables()
    ensures table { RunsAreTables }
    ensures run { TablesAreRuns }
{}

/// The value that an index names in a blob file is the one that is read.
pub fn named_are_read()
    ensures { NamedAreRead }
{}
