//! Tests of openings, over folders in memory whose bytes another program computed.
#![tactic(auto)]

#[cfg(test)]
mod damage;
#[cfg(test)]
mod faults;
#[cfg(test)]
mod folders;
#[cfg(test)]
mod fresh;
#[cfg(test)]
mod logs;
#[cfg(test)]
mod numbers;
#[cfg(test)]
mod samples;
#[cfg(test)]
mod stores;
#[cfg(test)]
mod words;
