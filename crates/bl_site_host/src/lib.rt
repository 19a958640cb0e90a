//! The real folder with standard output as a site, and standard input as a source.
//!
//! This is the trusted edge: what the system does with a file is stated by no clause, so the site and the source show no
//! content. The loops that move bytes are generic over a reader or a writer, and say which bytes they moved.
#![tactic(auto)]

mod failure;
mod faults;
mod folder;
mod guard;
mod handles;
mod host;
mod input;
mod keeper;
mod moving;
mod output;
mod site;
mod system;

pub use failure::Failure;
pub use guard::{Door, FolderLock, LockErr, Streams};
pub use host::HostDoor;
pub use input::HostSource;
pub use site::HostSite;

#[cfg(test)]
mod held;
#[cfg(test)]
mod recorder;
#[cfg(test)]
mod tests;
