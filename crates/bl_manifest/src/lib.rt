//! Manifests: one record for each version edit, appended, synced, and read into a version.
#![tactic(auto)]

mod error;
mod laws;
mod manifest;
mod read;

pub use error::ManifestErr;
pub use laws::{
    bytes_are_decided, cut_manifests_read_as_fronts, manifests_are_read, synced_manifests_are_left,
};
pub use manifest::Manifest;
pub use read::{Restored, read_all};
