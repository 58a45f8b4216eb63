//! The options that the words of a command line ask for.
//!
//! `parse_options` returns the `Options` that the words ask for, or a `Refusal`: the help, the version, or a sentence
//! of what is wrong. Its contract says which value of each option was asked for, and that words refused in a sentence
//! ask for no options.
//!
//! ```text
//! let options = parse_options(rt.alloc(), &["obim_query", "-a", "levels", "--within", "3"])?;
//! options.asked.answer;      // Answer::Levels
//! options.asked.lines;       // those of the vertices that at most 3 arcs lead to
//! options.asked.settings;    // two workers, and buckets that get wider as costs rise
//! ```
//!
//! Nothing is printed here. The contract of `clap` says which words are values of which option.
#![tactic(auto)]

mod command;
pub mod laws;
mod lines;
mod options;
mod parse;
mod refusals;
mod values;

pub use options::Options;
pub use parse::parse_options;
pub use refusals::Refusal;
