//! Tests of what `answer`, `answer_session` and `parse_options` do that no contract says: of `job_answer`,
//! `session_answer` and `command_line`, and of the counts of `job_messages`.
//!
//! A crate of tests is apart, since a crate with tests is proved once more for them.

#![tactic(auto)]

#[cfg(test)]
mod answers;
#[cfg(test)]
mod kept;
#[cfg(test)]
mod words;
