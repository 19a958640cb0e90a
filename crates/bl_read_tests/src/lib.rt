//! Tests of reading: tables merged, values of blob files, and what versions and memories tell, over folders in memory.
#![tactic(auto)]

#[cfg(test)]
mod damage;
#[cfg(test)]
mod finds;
#[cfg(test)]
mod folders;
#[cfg(test)]
mod merged;
#[cfg(test)]
mod samples;
#[cfg(test)]
mod scans;
#[cfg(test)]
mod tables;
#[cfg(test)]
mod values;
