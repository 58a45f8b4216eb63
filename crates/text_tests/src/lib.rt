//! Tests of what the public calls of `answer_lines`, `dimacs_text`, `job_reader` and `request_reader` do that no
//! contract says.
//!
//! A crate of tests is apart, since a crate with tests is proved once more for them.

#![tactic(auto)]

#[cfg(test)]
mod requests;
#[cfg(test)]
mod texts;
