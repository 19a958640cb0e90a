//! What a job writes: tables and blob files, with the numbers that it draws for them; and what the table files and
//! blob files of a folder hold, and how their entries refer to each other.
#![tactic(auto)]

mod append;
mod blob;
mod error;
mod laws;
mod make;
mod numbers;
mod seal;
mod sealed;
mod table;
mod writer;

pub use error::JobErr;
pub use laws::{
    finished_outputs_are_read, order_does_not_matter, outputs_are_sealed_file_by_file,
    outputs_write_what_they_are_given, values_are_read_at,
};
pub use numbers::Numbers;
pub use sealed::Sealed;
pub use writer::Output;
