//! Tests of what the public calls of `hierarchy`, `contraction` and `elimination` do that no contract says, and of the search of `near_labels` that it asks.
//!
//! A crate of tests is apart, since a crate with tests is proved once more for them.
#![tactic(auto)]

#[cfg(test)]
mod above;
#[cfg(test)]
mod costs;
#[cfg(test)]
mod makers;
#[cfg(test)]
mod making;
#[cfg(test)]
mod plain;
#[cfg(test)]
mod spoiled;
#[cfg(test)]
mod toward;
