//! Faults of a text.

ghost use Rattle.std.specs.Prelude.{◌≡◌};
ghost use Rattle.dimacs_text.specs.declared.fault.TextFault.TheVariants.{Memory};

use std::alloc::{AllocError, AllocFailed};
use std::error::Error;
use std::fmt;

/// The kind of a fault in a line. Within a line the kinds are looked for in this order.
#[derive(Clone, Copy, Debug, PartialEq, Eq)]
pub enum LineKind {
    /// The first fields are those of no form of line.
    Unknown,
    /// The number of fields isn't that of the form.
    Fields,
    /// A field in a number's place isn't a run of decimal digits.
    Number,
    /// A number is above its limit, or a vertex isn't in 1 to the number of vertices.
    Range,
    /// No line of this form can stand here, whatever the counts in the heads were.
    Misplaced,
    /// One line more than the head of its section counted.
    TooMany,
    /// A section begins, or the text ends, before the counted lines of the section before are all there.
    TooFew,
    /// The text ends without a problem line.
    NoProblem,
}

impl LineKind {
    ghost use Rattle.dimacs_text.specs.Faults.{words_of};

    /// The fault, in words.
    pub fn words(self) -> &'static str
        ensures { result.now ≡ words_of self }
    {
        match self {
            LineKind::Unknown => "unknown line",
            LineKind::Fields => "wrong number of fields",
            LineKind::Number => "not a number",
            LineKind::Range => "out of range",
            LineKind::Misplaced => "misplaced line",
            LineKind::TooMany => "too many lines",
            LineKind::TooFew => "too few lines",
            LineKind::NoProblem => "no problem line",
        }
    }
}

impl fmt::Display for LineKind {
    fn fmt<W: fmt::Write>(&self, f: &mut fmt::Formatter<W>) -> fmt::Result {
        f.write_str(self.words())
    }
}

/// The reason for which a text gave no job.
#[derive(Clone, Copy, Debug, PartialEq, Eq)]
pub enum TextFault {
    /// The system refused memory.
    Memory,
    /// The first line that is wrong, counted from 1, and what is wrong with it. If something is
    /// missing at the end of the text, the line is one past the last.
    Line { line: u64, kind: LineKind },
}

impl fmt::Display for TextFault {
    fn fmt<W: fmt::Write>(&self, f: &mut fmt::Formatter<W>) -> fmt::Result {
        match self {
            TextFault::Memory => f.write_str("out of memory"),
            TextFault::Line { line, kind } => write!(f, "line {line}: {kind}"),
        }
    }
}

impl Error for TextFault {}

impl From<AllocError> for TextFault {
    ghost from_gives = { λ _ fault. fault ≡ Memory };

    fn from(_refused: AllocError) -> TextFault {
        TextFault::Memory
    }
}

impl<T: Drop> From<AllocFailed<T>> for TextFault {
    ghost from_gives = { λ _ fault. fault ≡ Memory };

    fn from(_refused: AllocFailed<T>) -> TextFault {
        TextFault::Memory
    }
}
