//! The vertex that a worker takes next.
//!
//! A pool is a hint: no label depends on what it keeps, drops, repeats or invents. `ObimPool` has a bag for each
//! metric. A side, which one worker uses, draws from the lowest that it knows, softly. By its own contracts nothing is
//! lost or comes twice.
//!
//! ```text
//! let (pool, mut sides) = ObimPool::open(alloc, workers, 64)?;
//! pool.push(&rt, &mut sides[0], 12, 3);
//! pool.push(&rt, &mut sides[0], 13, 1);
//! pool.pop(&rt, &mut sides[0]); // Some(13)
//! pool.pop(&rt, &mut sides[0]); // Some(12)
//! let left = pool.settle(&rt, alloc, sides)?; // the chunks that no side got
//! ```
//!
//! A chunk that isn't full waits for its side, which pops until it has nothing. `WideningPool` has a bag for each
//! bucket of metrics, and `LockedPool` one lock over all.
#![tactic(auto)]

mod bags;
mod bucket;
mod chunk_maker;
mod chunks;
pub mod laws;
mod locked;
mod obim;
mod order;
mod pool;
mod pop;
mod push;
mod recent;
mod scale;
mod side;
mod widening;
mod worklist;

pub use bucket::{BUCKETS, bucket_of};
pub use locked::{LockedPool, LockedSide};
pub use obim::ObimPool;
pub use pool::WorkPool;
pub use scale::{MOST_BUCKETS, Scale};
pub use side::ObimSide;
pub use widening::WideningPool;
pub use worklist::Worklist;
