//! The rows that the crates together are to answer: over a root in memory, and on real files.
#![tactic(auto)]

#[cfg(test)]
mod answers;
#[cfg(test)]
mod real_host_rows;
