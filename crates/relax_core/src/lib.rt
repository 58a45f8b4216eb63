//! The events of a run, and why every arc stays covered.
//!
//! A core is the state of a run: labels, marks, the pending total, and what each seat holds. An event is a step of one
//! seat.
//!
//! Cover: each arc is relaxed, or its tail is marked, or a worker holds it. Account: the pending total is the number of
//! marks plus all credits in hands. So whoever sees 0 knows that every arc is relaxed.
//!
//! `laws` has both for layers whose words change one at a time.
#![tactic(auto)]

mod events;
pub mod laws;
mod runs;
mod state;
mod steps;
mod views;

pub use events::Event;
pub use runs::{ReplayFault, replay};
pub use state::{Core, open_core};
pub use steps::{CoreFault, apply};
pub use views::{Hand, SHARES, View};
