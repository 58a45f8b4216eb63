//! The texts of a job on standard error.
//!
//! `ProgressReport` prints how far a job is, and keeps its `Figures` and its fault's explanation. A `Counter` is a gate
//! that counts visits. `print_stats` prints both, and `print_explanation` a fault, for example of `p sp 2 1`, `a 1 3 7`:
//!
//! ```text
//! obim_query: why: line 2 is 'a 1 3 7'
//! obim_query: why: field 3 is wrong: expected a vertex from 1 to 2
//! obim_query: why: it stands in place of arc 1 of 1 of the section that line 1 begins
//! ```
//!
//! No contract says what is printed: `tests/explanations.tsv` does, and tests of the program.
#![tactic(auto)]

mod counter;
mod explain;
mod figures;
mod guess;
mod progress;
mod stats;

pub use counter::Counter;
pub use explain::print_explanation;
pub use figures::Figures;
pub use progress::{ProgressMode, ProgressReport};
pub use stats::print_stats;
