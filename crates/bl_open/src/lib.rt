//! Opening: a fresh folder is made a store's, and a folder with CURRENT is recovered. What a steady disk is, and what
//! every power cut leaves of one.
#![tactic(auto)]

mod asked;
mod barrier;
mod begin;
mod checks;
mod current;
mod damage;
mod error;
mod files;
mod flush;
mod flushing;
mod install;
mod laws;
mod names;
mod opening;
mod options;
mod read;
mod replay;
mod steady;

pub use asked::Asked;
pub use begin::Opened;
pub use damage::{
    damage_is_one, files_fail_or_pass, first_number_is_behind_all, lacking_folders_are_not_live,
    refusals_are_one,
};
pub use error::OpenErr;
pub use flushing::{drawn_files_let_disks_rest, flushed_tables_make_the_map};
pub use laws::{barriers_let_disks_rest, openings_leave_maps, stores_begin};
pub use opening::{create, recover};
pub use steady::{
    installations_keep_disks_steady, quiet_calls_keep_disks_steady, renames_make_disks_steady,
    steady_disks_are_left, steady_disks_stand, tables_are_installed, writes_keep_disks_steady,
};
