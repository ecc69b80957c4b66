//! What a verification tells of a root in memory: a package with each kind of difference, packages with which work was cut off,
//! and a look at which the device fails. The digests are those that `md5sum` tells.
#![tactic(auto)]

#[cfg(test)]
mod rows;
