//! The machine: an ordered map, what its lines may tell, and what they may leave of files.
#![tactic(auto)]

mod laws;

pub use laws::{
    acknowledged_writes_have_begun, lines_change_what_they_say, memories_are_switched,
    scripts_tell_the_rows, the_machine_is_never_stuck, told_replies_decide, writes_make_the_map,
};
