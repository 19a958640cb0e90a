//! Sorted runs merged: the entries of all of them in key order.
#![tactic(auto)]

mod head;
mod laws;
mod load;
mod merged;

pub use laws::{latest_tells_the_value, merged_lists_are_in_order};
pub use merged::Merged;
