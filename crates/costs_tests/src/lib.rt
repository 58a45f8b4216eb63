//! Tests of what the public calls of `least_costs` do that no contract says.
//!
//! A crate of tests is apart, since a crate with tests is proved once more for them.

#![tactic(auto)]

#[cfg(test)]
mod asked;
#[cfg(test)]
mod task_queue;
#[cfg(test)]
mod walks;
