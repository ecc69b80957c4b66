//! The rows of dependencies and conflicts, at the level of `check_unpack` and the calls on sets.
#![tactic(auto)]

#[cfg(test)]
mod rows;
