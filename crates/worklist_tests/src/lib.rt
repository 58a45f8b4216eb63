//! Tests of what the public calls of `obim_bags` and `obim_pool` do that no contract says.
//!
//! A crate of tests is apart, since a crate with tests is proved once more for them.

#![tactic(auto)]

#[cfg(test)]
mod bags;
#[cfg(test)]
mod pools;
