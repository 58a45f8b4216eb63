//! The tasks of an answer to sources.

ghost use Rattle.std.specs.Prelude.{◌<◌, All};

use crate::question::Question;
use crate::solving::team_watch::SolveCount;

/// The sources whose blocks are asked for, a task for each.
#[derive(Drop)]
pub struct SourceTasks<'a> {
    pub question: Question<'a>,
    pub sources: &'a [u32],
    pub solves: SolveCount,
    ghost within: { All (λ source. source < question.graphs.now.network.n) sources.now },
}
