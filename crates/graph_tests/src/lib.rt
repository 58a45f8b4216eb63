//! Tests of what the public calls on graphs, labels and walks do that no contract says: of `route_walks`, `csr_graph`,
//! `relax_core`, `label_words`, `walk_report` and `near_labels`.
//!
//! A crate of tests is apart, since a crate with tests is proved once more for them.

#![tactic(auto)]

#[cfg(test)]
mod events;
#[cfg(test)]
mod near;
#[cfg(test)]
mod reports;
#[cfg(test)]
mod rows;
#[cfg(test)]
mod walks;
#[cfg(test)]
mod words;
