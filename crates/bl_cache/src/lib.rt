//! Tables and blob files as they are read: a table as a run of its entries, the blocks of tables, and the values that blob
//! indexes name.
#![tactic(auto)]

mod entries;
mod fault;
mod files;
mod laws;
mod part;
mod table_run;

pub use files::Files;
pub use laws::{named_are_read, runs_are_tables};
pub use table_run::TableRun;
