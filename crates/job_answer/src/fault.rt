//! Faults, and the status after each.

ghost use Rattle.std.specs.Prelude.{◌≡◌};
ghost use Rattle.job_answer.specs.declared.fault.Fault.TheVariants as fault;
ghost use Rattle.job_answer.specs.Choices.{fault_of_reading, status_of};

use dimacs_text::LineKind;
use job_reader::ReadFault;
use std::alloc::AllocError;
use thiserror::Error;

/// The reason why there is no answer, or only a prefix.
#[derive(Clone, Copy, Debug, PartialEq, Eq, Error)]
pub enum Fault {
    /// The reader failed. Nothing was written.
    #[error("read failed")]
    Read,
    /// The text has more bytes than may be read. Nothing was written.
    #[error("input too long")]
    TooLong,
    /// The first fault of the text, in this line, counted from 1. Nothing was written.
    #[error("line {line}: {kind}")]
    Text { line: u64, kind: LineKind },
    /// Distances or levels were asked for, of a text without a section of queries. Nothing was written.
    #[error("no sources or pairs")]
    NoAsk,
    /// Vertices within a bound were asked for, of a text with pairs. Nothing was written.
    #[error("no sources, which a bound needs")]
    NoSources,
    /// The system refused memory. A prefix may have been written.
    #[error("out of memory")]
    Memory,
    /// The system refused a thread. A prefix may have been written.
    #[error("cannot start a thread")]
    Spawn,
    /// The writer failed. A prefix may have been written.
    #[error("write failed")]
    Write,
}

impl From<ReadFault> for Fault {
    ghost from_gives = { λ refused given. given ≡ fault_of_reading refused };

    fn from(refused: ReadFault) -> Fault {
        match refused {
            ReadFault::Read => Fault::Read,
            ReadFault::TooLong => Fault::TooLong,
            ReadFault::Text { line, kind } => Fault::Text { line, kind },
            ReadFault::Memory => Fault::Memory,
        }
    }
}

impl From<route_walks::Memory> for Fault {
    ghost from_gives = { λ _ given. given ≡ fault.Memory };

    fn from(_refused: route_walks::Memory) -> Fault {
        Fault::Memory
    }
}

impl From<AllocError> for Fault {
    ghost from_gives = { λ _ given. given ≡ fault.Memory };

    fn from(_refused: AllocError) -> Fault {
        Fault::Memory
    }
}

/// The program's status after a fault: 2 for a text that can't be answered, 3 for memory, 4 for reading and writing, 5
/// for a thread.
pub fn status(fault: &Fault) -> u8
    ensures { result ≡ status_of fault.now }
{
    match fault {
        Fault::TooLong | Fault::Text { .. } | Fault::NoAsk | Fault::NoSources => 2,
        Fault::Memory => 3,
        Fault::Read | Fault::Write => 4,
        Fault::Spawn => 5,
    }
}
