//! The memory table: the ascending list of the entries that were inserted.
#![tactic(auto)]

mod laws;
mod rows;
mod table;
#[cfg(test)]
mod tests;

pub use laws::{after_is_next, ascends, batches_are_held, held_is_the_value, later_is_free};
pub use table::MemTable;
