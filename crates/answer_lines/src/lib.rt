//! The bytes of each line of an answer.
//!
//! Each `put_` call appends exactly its lines to a vector, or leaves the vector as it was and returns `Memory`.
//! Vertices are counted from 0 in calls, and from 1 in lines. By `put_distances(&mut out, 0, &[0, 7, INF])` a vector
//! gets
//!
//! ```text
//! s 1
//! d 1 0
//! d 2 7
//! d 3 inf
//! ```
#![tactic(auto)]

mod digits;
mod groups;
mod lines;
mod raw;
mod totals;
mod walks;

pub use groups::{put_components, put_distances, put_labels};
pub use lines::{
    put_arc, put_grown, put_label, put_pair, put_ready, put_refusal, put_removed, put_source,
};
pub use raw::put_raw;
pub use totals::{Totals, put_totals};
pub use walks::put_walk;
