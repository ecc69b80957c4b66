//! The table of conffiles, row by row, over a root in memory, and texts of MD5 digests beside those of others.
#![tactic(auto)]

#[cfg(test)]
mod digest_rows;
#[cfg(test)]
mod table_rows;
