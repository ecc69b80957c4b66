//! Rows over a root in memory that they leave as it was: what is found over it, and below.
#![tactic(auto)]

#[cfg(test)]
mod root;
#[cfg(test)]
mod rows;
