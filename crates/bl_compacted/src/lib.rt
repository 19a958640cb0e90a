//! What a compaction keeps of a folder: its map and its soundness, whatever value moves and whatever entry goes.
#![tactic(auto)]

mod laws;

pub use laws::{
    compactions_install, compactions_keep, compactions_reach_exactly, folders_are_held,
    jobs_compact, plans_are_closed, plans_fit,
};
