//! What is found under a root in memory whose device failed, stopped or lost power within a command.
#![tactic(auto)]

#[cfg(test)]
mod machine;
