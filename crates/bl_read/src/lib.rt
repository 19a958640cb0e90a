//! What readers are told of a version and the memories beside it.
#![tactic(auto)]

mod bound;
mod first;
mod laws;
mod lookup;
mod memories;
mod pairs;
mod put;
mod tables;
mod told;

pub use bound::Bound;
pub use laws::{
    given_maps_are_one, given_versions_are_whole, pairs_are_told_in_turn,
    sound_folders_give_their_map,
};
pub use lookup::find;
pub use memories::Memories;
pub use pairs::{Pair, Pairs, next_pair};
