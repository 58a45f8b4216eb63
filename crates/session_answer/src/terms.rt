//! The terms of a request: the kind of labels and the lines of its answer.

ghost use Rattle.std.specs.Prelude.{◌≡◌, ◌<◌, IfSome};
ghost use Rattle.route_walks.specs.declared.graph.TheConstants.{INF};
ghost use Rattle.dimacs_text.specs.AfterGraph.{IsHeadWithin};
ghost use Rattle.dimacs_text.specs.Jobs.{question_of};
ghost use Rattle.job_answer.specs.Choices.{IsLinesAsked};
ghost use Rattle.session_answer.specs.Terms.{kind_by, lines_by, lines_for, terms_by, terms_of, word_for};

use dimacs_text::{Ask, HeadForm, HeadKind, HeadLines, SectionHead};
use job_answer::{Answer, Asked, Lines};

/// Returns what a request asks for by its head: what its words name, and else what the session asks for.
pub(crate) fn asked_by(head: SectionHead, asked: &Asked) -> Asked
    requires head { IsHeadWithin head }
    ensures terms { terms_of result ≡ terms_by head (terms_of asked.now) }
{
    let kind = kind_by(head.kind, asked.answer);
    let lines = match kind {
        Answer::Components => Lines::Each { walks: false },
        _ => lines_by(word_for(head), head.bound, asked.lines),
    };
    asked.with_answer(kind, lines)
}

/// Returns the kind that a head names, or that of the session.
fn kind_by(word: Option<HeadKind>, kind: Answer) -> Answer
    ensures { result ≡ kind_by word kind }
{
    match word {
        None => kind,
        Some(HeadKind::Distances) => Answer::Distances,
        Some(HeadKind::Levels) => Answer::Levels,
        Some(HeadKind::Components) => Answer::Components,
    }
}

/// Returns the word for lines of a head. A section of walks needs none.
fn word_for(head: SectionHead) -> Option<HeadLines>
    ensures { result ≡ word_for head.form head.lines }
{
    match head.form {
        HeadForm::Walk => Some(HeadLines::Walks),
        _ => head.lines,
    }
}

/// Returns the lines that a word names, within a bound if there is one. Without a word they are those of the session.
fn lines_by(word: Option<HeadLines>, bound: Option<u64>, lines: Lines) -> Lines
    requires bound { IfSome bound (λ bound. bound < INF) }
    requires lines { IsLinesAsked lines }
    ensures lines { result ≡ lines_by word bound lines }
    ensures asked { IsLinesAsked result }
{
    let walks = match word {
        None if bound.is_none() => return lines,
        None => lines.has_walks(),
        Some(HeadLines::Each) => false,
        Some(HeadLines::Walks) => true,
        Some(HeadLines::Raw) => return Lines::Raw { pairs: true },
        Some(HeadLines::Totals) => return Lines::Totals,
    };
    match bound {
        None => Lines::Each { walks },
        Some(bound) => Lines::Within { walks, bound },
    }
}

/// The lines of the answer to a question, if these are asked for.
pub(crate) fn lines_for(lines: Lines, ask: &Ask) -> Lines
    requires lines { IsLinesAsked lines }
    ensures lines { result ≡ lines_for lines (question_of ask.now) }
    ensures asked { IsLinesAsked result }
{
    match ask {
        Ask::Absent => Lines::Each { walks: false },
        Ask::Sources(_) => lines,
        Ask::Pairs(_) => match lines {
            Lines::Raw { pairs: true } => lines,
            Lines::Each { walks } | Lines::Within { walks, .. } => Lines::Each { walks },
            Lines::Raw { pairs: false } | Lines::Totals => Lines::Each { walks: false },
        },
    }
}
