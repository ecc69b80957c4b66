//! Every choice of how a command's calls end, over a root in memory: what the program prints and leaves is what the tables of
//! Policy 6.6 to 6.8 give.
#![tactic(auto)]

#[cfg(test)]
mod packages;
#[cfg(test)]
mod tables;
