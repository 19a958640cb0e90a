//! Versions: which tables are in which level, and which blob files there are, with their accounts; one edit
//! after another.
#![tactic(auto)]

mod blobs;
mod checks;
mod error;
mod laws;
mod meta;
mod overlap;
mod plan;
mod snapshot;
mod step;
mod table;
#[cfg(test)]
mod tests;
mod version;

/// A list as edits and plans have it, with the calls that make and read it.
pub use bl_edit::Items;
pub use error::{BadVersion, BuildErr};
pub use laws::{version_is_in_order, versions_reach_exactly};
pub use meta::{BlobMeta, Standing};
pub use plan::CompactionPlan;
pub use snapshot::snapshot_edit;
pub use step::{advance, apply};
pub use version::Version;
