//! The flush: what is kept of a memory becomes a table and its blob files.
#![tactic(auto)]

mod flush;
mod laws;
mod stripes;

pub use flush::flush_all;
pub use laws::flushes_make_what_is_kept;
