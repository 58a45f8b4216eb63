//! A question to networks that are kept: its kind and lines, the networks, and the workers that answer it.

pub(crate) mod asked;
pub(crate) mod env;
pub(crate) mod graphs;
pub(crate) mod saving;

ghost use Rattle.job_answer.specs.Choices.{IsLinesAsked};

use crate::question::asked::Lines;
use crate::question::graphs::Graphs;
use dimacs_text::Ask;

/// A question to kept networks, and the lines of its sources. Pairs have their walks if these lines have walks.
#[derive(Clone, Copy)]
pub struct Question<'a> {
    pub graphs: &'a Graphs,
    pub ask: &'a Ask,
    pub lines: Lines,
    ghost bound: { IsLinesAsked lines },
}
