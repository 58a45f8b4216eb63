//! Chunks in bags: nothing lost, nothing twice, one bag a metric.
//!
//! A `Bag` is a queue of chunks without a lock, of which each worker has a `BagPass`. A `BagLog` is the list of all
//! bags. Each worker has a `Mirror` of it, and takes the log's slot only for a metric that the mirror lacks, or to
//! catch up.
//!
//! ```text
//! let (log, mut mirrors) = BagLog::open(alloc, 2)?;
//! let place = log.find_or_append(&rt, alloc, &mut mirrors[0], 5)?;
//! let mut chunk = Chunk::new(ChunkId { worker: 0, serial: 0 }, 16);
//! chunk.push(7); // and more, until it is `Full`
//! log.put_at(&rt, &mut mirrors[0], place, chunk);
//! log.catch_up(&rt, alloc, &mut mirrors[1])?;
//! log.get_at(&rt, &mut mirrors[1], place) // the chunk, unless another worker got it
//! ```
//!
//! The chunks that passes put are those that they got and those in the bag. No clause says that a put succeeds, or
//! which chunk a get finds.
#![tactic(auto)]

mod access;
mod accesses;
mod bag;
mod bag_rule;
mod chunk;
mod entries;
mod fault;
mod index;
mod log;
mod log_rule;
mod mirror;
mod passes;
mod settle;

pub use bag::Bag;
pub use bag_rule::Tally;
pub use chunk::{Chunk, ChunkId, Full, MAX_SIZE};
pub use fault::{LogFault, SettleFault};
pub use log::BagLog;
pub use log_rule::LogKnown;
pub use mirror::Mirror;
pub use passes::BagPass;
