//! The making of a hierarchy. Who makes it is a hint, and what was made is checked.

ghost use Rattle.std.specs.Prelude.{◌≡◌, IfSome};
ghost use Rattle.least_costs.specs.Network.{graph_of};

use crate::network::Network;
use csr_graph::Csr;
use hierarchy::{Hierarchy, parts_of};
use std::alloc::Global;

impl Network {
    /// Makes a hierarchy in place of the one that the network had, and checks it. By it the costs of pairs are found in the
    /// time of two short searches. Returns true if there is one now.
    ///
    /// It gives up a network that grows too dense as it is contracted, or takes a look at more than `most_steps` edges, and
    /// if memory is refused. Takes some 300 bytes a vertex for a while. No cost depends on it.
    pub fn make_hierarchy(&mut self, alloc: Global, most_steps: usize) -> bool
        ensures { self.new ≡ self.old }
    {
        let made = hierarchy_of(alloc, &self.rows, most_steps);
        self.keep_hierarchy(made);
        self.has_hierarchy()
    }
}

/// Makes the parts of a hierarchy, and checks them.
fn hierarchy_of(alloc: Global, rows: &Csr, most_steps: usize) -> Option<Hierarchy>
    ensures { IfSome result (λ hierarchy. hierarchy.graph ≡ rows.now) }
{
    let Ok(Some(parts)) = parts_of(alloc, rows, most_steps) else {
        return None;
    };
    Hierarchy::checked(alloc, rows, parts)
}
