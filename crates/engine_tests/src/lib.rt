//! Tests of what the public calls of `obim_engine` do that no contract says.
//!
//! A crate of tests is apart, since a crate with tests is proved once more for them.

#![tactic(auto)]

#[cfg(test)]
mod runs;
