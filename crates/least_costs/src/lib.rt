//! Least costs in a network.
//!
//! A `Network` is made once, of arcs and of what an arc costs: its weight, one, or nothing and both ways. A `Solver`
//! asks it, as often as one likes: `from` one source, `between` pairs, `within` a bound, from everywhere for
//! components, and after arcs were added. The costs from `each` of many sources are worked out at the same time, and
//! come in the order of the sources.
//!
//! It gives `Costs`. The cost `to` a vertex is the least cost of a walk, and `None` exactly if there is no walk.
//! `Costs::walks` gives the vertices of least walks with the fewest arcs. A call that solves fails only if memory is
//! refused. A `Plan` says how many workers there are and how they share the work; no cost depends on it.
//!
//! ```text
//! let network = Network::new(&rt, alloc, 3, arcs, Cost::Weight, 2)?; // 0 to 1 costs 7, 1 to 2 costs 5
//! let solver = Solver::new(&network, Plan::usual(2));
//! let costs = solver.from(&rt, alloc, 0)?;
//! costs.to(2); // Some(12)
//! let mut each = solver.each(alloc, &[1, 2]);
//! while let Some(found) = each.next(&rt, alloc) {
//!     found?.to(2); // Some(5), and then Some(0)
//! }
//! ```
//!
//! A network can be given landmarks: vertices from which it is solved once. By them the costs of far pairs are found with
//! a fraction of the visits. A hierarchy finds them by a few hundred, if the network has small cuts, as a map.
//! `Workspace::prepare` gives it either once that saves time.
//!
//! `Each` is made of a `TaskQueue`: tasks of any kind that teams do at the same time, before their turn. `Workers` keep
//! their pool, a `WarmPool`, from one task to the next. Asked for the costs that serve a goal, they go no further, and
//! give `CostsBelow`: labels that are least up to a limit.
//!
//! Stands on `obim_engine`, whose workers give the costs, on its pools in `obim_pool`, and on `near_labels` for near
//! vertices. Far pairs are asked of a `hierarchy`. Walks come from `walk_report`, rows from `csr_graph`, and pauses from `label_words`; `route_walks` says
//! what walks cost. A call starts threads, and returns only if its workers do, which no contract promises.
#![tactic(auto)]

mod cost;
mod costs;
mod each;
mod fault;
pub mod laws;
mod near;
mod network;
mod pairs;
mod plan;
mod preparing;
mod progress;
mod solver;
mod start;
mod workers;

pub use cost::Cost;
pub use costs::Costs;
pub use costs::below::CostsBelow;
pub use costs::walks::Walks;
pub use costs::within::CostsWithin;
pub use each::Each;
pub use fault::NetworkFault;
pub use near_labels::WalksFound;
pub use network::growth::NetworkGrowth;
pub use network::landmarks::MAX_LANDMARKS;
pub use network::{MOST_ARCS, Network};
pub use pairs::PairCosts;
pub use plan::{AtOnce, CHUNK_OF_TWO, HierarchyUse, Plan, SHARED_CHUNK, USUAL_LANDMARKS};
pub use preparing::count_sources;
pub use progress::{Progress, Unwatched};
pub use solver::Solver;
pub use start::Start;
pub use workers::Workers;
pub use workers::task_queue::{FinishedTask, TaskQueue, Tasks};
pub use workers::teams::{Team, TeamGate};
pub use workers::warm_pool::WarmPool;
pub use workers::workspace::Workspace;
