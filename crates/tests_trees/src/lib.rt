//! Trees of packages at their limits, in memory and on real files: what is read of them, or the fault.
#![tactic(auto)]

#[cfg(test)]
mod limit_rows;
#[cfg(test)]
mod real_rows;
