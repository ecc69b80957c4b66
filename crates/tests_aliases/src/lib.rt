//! Aliases above a path, read from a root in memory, and the place of the path behind them.
#![tactic(auto)]

#[cfg(test)]
mod place_rows;
#[cfg(test)]
mod root;
