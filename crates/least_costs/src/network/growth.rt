//! A network before and after arcs are added.

use crate::network::Network;

/// A network, and what it grew to by `Network::with_arcs`.
#[derive(Drop)]
pub struct NetworkGrowth<'a> {
    pub network: &'a Network,
    pub grown: &'a Network,
}
