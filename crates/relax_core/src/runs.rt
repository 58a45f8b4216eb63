//! A list of events from the opening on.

ghost use Rattle.std.specs.Prelude.{◌≡◌, ℕ, Err, IfOk};
ghost use Rattle.route_walks.specs.Walk.{AreSeeds};
ghost use Rattle.relax_core.specs.Runs.{IsReached, StopsAt};
ghost use Rattle.relax_core.specs.State.{IsLawful};

use crate::events::Event;
use crate::state::{Core, open_core};
use crate::steps::{CoreFault, apply};
use csr_graph::Csr;
use route_walks::Seed;
use std::alloc::Global;
use std::error::Error;
use std::fmt;

/// The reason why a list of events gives no core.
#[derive(Clone, Copy, Debug, PartialEq, Eq)]
pub enum ReplayFault {
    /// There was no memory for the core, or for the new seat of a `Split`.
    Memory,
    /// The place, from 0, of the first event that isn't enabled.
    At(usize),
}

impl fmt::Display for ReplayFault {
    fn fmt<W: fmt::Write>(&self, f: &mut fmt::Formatter<W>) -> fmt::Result {
        match self {
            ReplayFault::Memory => f.write_str("out of memory"),
            ReplayFault::At(i) => write!(f, "event {i} is not enabled"),
        }
    }
}

impl Error for ReplayFault {}

/// Returns the core after a list of events from the opening on, or the first event that isn't enabled.
pub fn replay(
    alloc: Global,
    csr: &Csr,
    seeds: &[Seed],
    events: &[Event],
) -> Result<Core, ReplayFault>
    requires { AreSeeds csr.now.n seeds.now }
    ensures run { IfOk result (λ core. IsReached csr.now seeds.now events.now core) }
    ensures lawful { IfOk result (λ core. IsLawful csr.now seeds.now core) }
    ensures at { (i : ℕ) → result ≡ Err (ReplayFault.At i) → StopsAt csr.now seeds.now events.now i }
{
    let Ok(mut core) = open_core(alloc, csr, seeds) else {
        return Err(ReplayFault::Memory);
    };
    for (i, event) in events.iter().enumerate() {
        match apply(alloc, &mut core, csr, *event) {
            Ok(()) => {}
            Err(CoreFault::NotEnabled) => return Err(ReplayFault::At(i)),
            Err(CoreFault::Memory) => return Err(ReplayFault::Memory),
        }
    }
    Ok(core)
}
