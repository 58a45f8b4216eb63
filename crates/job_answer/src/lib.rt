//! Bytes in, bytes out: the answer of a job.
//!
//! `answer` reads a job text and writes exactly the bytes that the least labels of the job make, for all settings and
//! however workers' steps interleave. Its contract also says what was read and written at each fault. `answer_question`
//! answers by networks that a caller keeps.
//!
//! The answer to a text in memory, by two workers:
//!
//! ```text
//! let settings = Settings::new(2, 0, 64).expect(rt, "settings within their limits");
//! let settings = settings.with_widening_buckets();
//! let asked = Asked::new(Answer::Distances, settings, false, MAX_BYTES).expect(rt, "no walks");
//! let text = b"p sp 2 1\na 1 2 7\np aux sp ss 1\ns 1\n";
//! let bytes = answer_bytes(rt, rt.alloc(), text, &asked, &OpenGate)?; // s 1, d 1 0 and d 2 7
//! ```
#![tactic(auto)]

mod answering;
mod fault;
pub mod laws;
mod output;
mod question;
mod solving;
mod watch;

pub use answering::{answer, answer_bytes, answer_question, answer_watched, is_unasked};
pub use fault::{Fault, status};
pub use job_reader::ReadWatch;
pub use least_costs::{AtOnce, HierarchyUse, MAX_LANDMARKS, USUAL_LANDMARKS};
pub use output::sink::write_whole;
pub use question::Question;
pub use question::asked::{Answer, Asked, Lines, MAX_AT_ONCE, MAX_BYTES};
pub use question::env::Context;
pub use question::graphs::{Graphs, GrownNetwork, graphs_by, graphs_for, plan_of};
pub use watch::{NoWatch, Phase, Watch};
