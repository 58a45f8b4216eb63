//! The words of a run, which many seats share, one atomic step at a time.
//!
//! The words are the pending total, a label and a mark for each vertex. A call of a `WorkSeat` is one atomic step,
//! without lock, memory or wait. Between two steps words and seats are a lawful core of `relax_core`.
//!
//! A worker's turn at vertex `u`:
//!
//! ```text
//! if words.take(&mut seat, u) {
//!     words.read(&mut seat, &csr);
//!     loop {
//!         match words.relax(&mut seat, &csr) {
//!             Step::Lowered { head, label } => {
//!                 if seat.credits() == 1 {
//!                     words.raise(&mut seat);
//!                 }
//!                 words.set_mark(&mut seat); // and the worklist is told of `head` at `label`
//!             }
//!             Step::Kept => {}
//!             Step::RowEnd => break,
//!         }
//!     }
//!     words.finish(&mut seat, &csr);
//! }
//! ```
//!
//! A worker without a vertex is done if `see` returns true. No seat sees 0 while one keeps credits for later marks
//! (`raise_by`, `keep`), so it calls `give_back` before.
#![tactic(auto)]

mod closed;
mod known;
pub mod laws;
mod layout;
mod opening;
mod pause;
mod plays;
mod seat;
mod words;

pub use closed::Closed;
pub use known::Known;
pub use pause::Paused;
pub use seat::WorkSeat;
pub use words::{Step, Words};
