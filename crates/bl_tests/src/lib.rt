//! Tests that go through all crates: scripts and stores over a folder in memory, with calls that fail and power cuts;
//! logs, manifests and blob files.
#![tactic(auto)]

#[cfg(test)]
mod blobs;
#[cfg(test)]
mod flushes;
#[cfg(test)]
mod jobs;
#[cfg(test)]
mod logs;
#[cfg(test)]
mod manifests;
#[cfg(test)]
mod outputs;
#[cfg(test)]
mod records;
#[cfg(test)]
mod scripts;
#[cfg(test)]
mod stores;
