//! The job of a reader, read by several threads.
//!
//! `read_job_from` takes a text up to its end, or to one byte past a limit. It returns the job or the first fault of
//! this very text. A `ReadWatch` sees how far it is.
//!
//! ```text
//! let mut text = b"p sp 2 1\na 1 2 7\n".as_slice();
//! let job = read_job_from(&rt, alloc, &mut text, 17, 4, &mut watch)?; // two vertices, and an arc from 0 to 1
//! ```
//!
//! One piece is fed to a `JobReader` while the next bytes are taken. Further threads read arcs ahead, as long as that
//! is faster. `read_arcs_from` never waits for a byte that may come after the graph, so a reader can stay open.
#![tactic(auto)]

mod arcs;
mod fault;
mod piece;
mod pieces;
mod read;
mod readers;
mod step;
mod watch;

pub use arcs::read_arcs_from;
pub use fault::ReadFault;
pub use read::read_job_from;
pub use watch::ReadWatch;
