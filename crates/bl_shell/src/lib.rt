//! The top call: a script in, replies and a folder out.
#![tactic(auto)]

mod batch;
mod laws;
mod lines;
mod obey;
mod scan;
mod serve;
mod status;
mod stop;
mod top;

pub use laws::{no_reply_is_before_the_barrier, told_syncs_are_kept};
pub use status::Status;
pub use top::run;
