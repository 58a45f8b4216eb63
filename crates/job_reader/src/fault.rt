//! The reasons why a reader gives no job.

ghost use Rattle.std.specs.Prelude.{◌≡◌};
ghost use Rattle.job_reader.specs.declared.fault.ReadFault.TheVariants as fault;
ghost use Rattle.job_reader.specs.Request.{fault_of};

use dimacs_text::{LineKind, TextFault};
use thiserror::Error;

/// The reason why a reader gave no job.
#[derive(Clone, Copy, Debug, PartialEq, Eq, Error)]
pub enum ReadFault {
    /// The reader failed.
    #[error("read failed")]
    Read,
    /// The text has more bytes than may be read.
    #[error("input too long")]
    TooLong,
    /// The first fault of the text, in this line, counted from 1.
    #[error("line {line}: {kind}")]
    Text { line: u64, kind: LineKind },
    /// The system refused memory.
    #[error("out of memory")]
    Memory,
}

impl From<TextFault> for ReadFault {
    ghost from_gives = { λ refused given. given ≡ fault_of refused };

    fn from(refused: TextFault) -> ReadFault {
        match refused {
            TextFault::Memory => ReadFault::Memory,
            TextFault::Line { line, kind } => ReadFault::Text { line, kind },
        }
    }
}

impl From<route_walks::Memory> for ReadFault {
    ghost from_gives = { λ _ given. given ≡ fault.Memory };

    fn from(_refused: route_walks::Memory) -> ReadFault {
        ReadFault::Memory
    }
}
