//! The reasons for which a call on bags is refused.

ghost use Rattle.std.specs.Prelude.{◌≡◌};
ghost use Rattle.obim_bags.specs.declared.fault.SettleFault.TheVariants.{Memory};

use route_walks::Memory;
use std::alloc::{AllocError, AllocFailed};
use std::error::Error;
use std::fmt;

/// The reason why a bag or a log wasn't settled.
#[derive(Clone, Copy, Debug, PartialEq, Eq)]
pub enum SettleFault {
    /// The passes handed in aren't all.
    Missing,
    /// The system refused memory.
    Memory,
}

impl fmt::Display for SettleFault {
    fn fmt<W: fmt::Write>(&self, f: &mut fmt::Formatter<W>) -> fmt::Result {
        f.write_str(match self {
            SettleFault::Missing => "passes are missing",
            SettleFault::Memory => "out of memory",
        })
    }
}

impl Error for SettleFault {}

impl From<AllocError> for SettleFault {
    ghost from_gives = { λ _ fault. fault ≡ Memory };

    fn from(_refused: AllocError) -> SettleFault {
        SettleFault::Memory
    }
}

impl<T: Drop> From<AllocFailed<T>> for SettleFault {
    ghost from_gives = { λ _ fault. fault ≡ Memory };

    fn from(_refused: AllocFailed<T>) -> SettleFault {
        SettleFault::Memory
    }
}

/// The reason why a mirror didn't learn of a bag. The mirror is unchanged.
#[derive(Clone, Copy, Debug, PartialEq, Eq)]
pub enum LogFault {
    /// The system refused memory. The log may have the new bag.
    Memory,
    /// The log has no pass of the bag for this worker: `drain` took it.
    Taken,
}

impl fmt::Display for LogFault {
    fn fmt<W: fmt::Write>(&self, f: &mut fmt::Formatter<W>) -> fmt::Result {
        f.write_str(match self {
            LogFault::Memory => "out of memory",
            LogFault::Taken => "the log was drained",
        })
    }
}

impl Error for LogFault {}

impl From<Memory> for LogFault {
    ghost use Rattle.std.specs.Prelude.{◌≡◌};
    ghost use Rattle.obim_bags.specs.declared.fault.LogFault.TheVariants.{Memory};

    ghost from_gives = { λ _ fault. fault ≡ Memory };

    fn from(_refused: Memory) -> LogFault {
        LogFault::Memory
    }
}

impl From<AllocError> for LogFault {
    ghost use Rattle.std.specs.Prelude.{◌≡◌};
    ghost use Rattle.obim_bags.specs.declared.fault.LogFault.TheVariants.{Memory};

    ghost from_gives = { λ _ fault. fault ≡ Memory };

    fn from(_refused: AllocError) -> LogFault {
        LogFault::Memory
    }
}

impl From<Memory> for SettleFault {
    ghost from_gives = { λ _ fault. fault ≡ Memory };

    fn from(_refused: Memory) -> SettleFault {
        SettleFault::Memory
    }
}
