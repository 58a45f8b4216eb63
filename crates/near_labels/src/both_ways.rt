//! A graph for searches from both ends.

ghost use Rattle.std.specs.Prelude.{◌≡◌};
ghost use Rattle.near_labels.specs.Meeting.{AreAtLeast, AreBothWays, IsReversed};

use csr_graph::Csr;

/// A graph, and the same with each arc reversed.
#[derive(Clone, Copy, Debug)]
pub struct BothWays<'a> {
    pub csr: &'a Csr,
    pub reversed: &'a Csr,
    /// No arc weighs less. The greater it is, the sooner a search ends.
    pub least_weight: u32,
}

impl<'a> BothWays<'a> {
    /// Looks at all arcs for the least weight, which is `u32::MAX` if there is no arc.
    pub fn of(csr: &'a Csr, reversed: &'a Csr) -> BothWays<'a>
        requires { IsReversed csr.now reversed.now }
        ensures ways { AreBothWays result }
        ensures csr { result.csr.now ≡ csr.now }
        ensures reversed { result.reversed.now ≡ reversed.now }
    {
        let least_weight = least_weight(reversed);
        BothWays {
            csr,
            reversed,
            least_weight,
        }
    }
}

fn least_weight(rows: &Csr) -> u32
    ensures { AreAtLeast result rows.now.arcs }
{
    let mut least = u32::MAX;
    for place in 0..rows.arc_count() {
        least = rows.target(place).weight.min(least);
    }
    least
}
