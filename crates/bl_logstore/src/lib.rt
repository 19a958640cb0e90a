//! A store: a map in memory whose writes stand in logs. Opening a folder replays them.
#![tactic(auto)]

mod error;
mod laws;
mod memory;
mod names;
mod open;
mod store;

pub use error::StoreErr;
pub use laws::{
    batches_are_once, batches_make_the_map, cuts_stand, damaged_do_not_stand,
    older_logs_are_synced, stores_stand, synced_stores_are_left, unsynced_logs_are_not_whole,
};
pub use store::Store;
