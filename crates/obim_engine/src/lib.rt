//! Workers, the end of a run, and its labels.
//!
//! `run` gives least labels by any number of workers, whatever the pool, the gate and the settings do, in whichever
//! order threads step. `run_for` and `resume` work in pieces, and `grow` adds arcs between two. `run_until` and
//! `resume_until` may stop once the wanted labels are least.
//!
//! No contract promises that workers return.
#![tactic(auto)]

mod budget;
mod gate;
mod gates;
mod goal;
mod group;
mod growing;
mod hints;
mod opened;
mod operators;
mod runs;
mod settings;
mod shared;
mod until;
mod worker;

pub use csr_graph::{Bounds, FINITE_CELLS};
pub use gate::{Gate, OpenGate};
pub use gates::Recorder;
pub use goal::{Goal, GoalResult};
pub use growing::grow;
pub use hints::widths::{Widths, widths_of};
pub use label_words::{Closed, Paused};
pub use obim_pool::Worklist;
pub use operators::{components, distances, levels};
pub use runs::{RunFault, resume, run, run_for};
pub use settings::{Buckets, MAX_CHUNK, MAX_SHIFT, MAX_WORKERS, Settings, Setup};
pub use until::{resume_until, run_until};
