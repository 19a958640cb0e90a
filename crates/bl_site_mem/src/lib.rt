//! A folder and its output in memory, with a record of all calls, and a source over bytes.
#![tactic(auto)]

mod applied;
mod cuts;
mod files;
mod memory;
mod record;
mod site;
mod source;

pub use memory::MemSite;
pub use source::MemSource;

#[cfg(test)]
mod tests;
