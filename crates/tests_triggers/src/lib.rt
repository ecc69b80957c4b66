//! What files `triggers` of Debian's own packages declare, read from a root in memory, and which of
//! their triggers paths hit; and what the journal of activations asks for.
#![tactic(auto)]

#[cfg(test)]
mod declared_rows;
#[cfg(test)]
mod journal_rows;
#[cfg(test)]
mod root;
