//! The store: an ordered map on tables, blob files and logs. What is written stands in a log and in a memory table, which is flushed
//! once it is full.
#![tactic(auto)]

mod compacted;
mod error;
mod finish;
mod flush;
mod opening;
mod pairs;
mod read;
mod reopen;
mod report;
mod store;
mod switch;
mod write;

pub use bl_read::{Bound, Pair, Pairs};
pub use compacted::{compactions_are_installed, jobs_may_be_installed};
pub use error::StoreErr;
pub use finish::durable_stores_are_left;
pub use read::{At, stores_give_their_map};
pub use report::Report;
pub use store::Store;
