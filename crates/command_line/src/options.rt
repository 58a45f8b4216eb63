//! The options of a command line.

use job_answer::Asked;

/// The options that a command line asks for.
#[derive(Clone, Copy)]
pub struct Options {
    /// The kind of answer, its lines and the settings.
    pub asked: Asked,
    /// True if requests follow the graph, each answered at once.
    pub session: bool,
    /// True if figures are asked for.
    pub stats: bool,
    /// True if progress is asked for.
    pub progress: bool,
    /// True if faults are explained.
    pub explain: bool,
    /// True if the argument `-` lets the job come from a terminal.
    pub typed: bool,
}
