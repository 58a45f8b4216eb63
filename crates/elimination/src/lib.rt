//! The parts of contraction hierarchies by elimination.
//!
//! `eliminated` makes an order by minimum degree, whatever arcs weigh, and then lowers the weights of the arcs that it leaves.
//! On graphs with small cuts, as road networks have them, it takes a small part of the time of contraction. `parts_of`
//! contracts the graph where elimination gives up.
//!
//! Nothing is claimed of the parts but that they come: `hierarchy` checks them.
//!
//! Stands on `contraction`, on rows of `csr_graph`, and on `route_walks`.
#![tactic(auto)]

mod completion;
mod customizing;
mod degrees;
mod elimination;
mod metric;
mod order;
mod parts;
mod quotient;
mod rows;
mod tree;
mod way;

pub use elimination::eliminated;
pub use parts::parts_of;
