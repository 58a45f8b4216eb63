//! Faults of networks.

use route_walks::Memory;
use std::error::Error;
use std::fmt;

/// The reason for which no network was made.
#[derive(Clone, Copy, Debug, PartialEq, Eq)]
pub enum NetworkFault {
    /// There are more vertices than `MAX_VERTICES`.
    Vertices,
    /// There are more arcs than `MOST_ARCS`, or with the added ones than the rows hold.
    Arcs,
    /// The arc at this place of the list has an end that is no vertex, and none before it has.
    Outside(usize),
    /// The system refused memory.
    Memory,
}

impl fmt::Display for NetworkFault {
    fn fmt<W: fmt::Write>(&self, f: &mut fmt::Formatter<W>) -> fmt::Result {
        match self {
            NetworkFault::Vertices => f.write_str("too many vertices"),
            NetworkFault::Arcs => f.write_str("too many arcs"),
            NetworkFault::Outside(place) => write!(f, "arc {place}: an end is no vertex"),
            NetworkFault::Memory => f.write_str("out of memory"),
        }
    }
}

impl Error for NetworkFault {}

impl From<Memory> for NetworkFault {
    ghost use Rattle.std.specs.Prelude.{◌≡◌};
    ghost use Rattle.least_costs.specs.declared.fault.NetworkFault.TheVariants as fault;

    ghost from_gives = { λ _ given. given ≡ fault.Memory };

    fn from(_refused: Memory) -> NetworkFault {
        NetworkFault::Memory
    }
}
