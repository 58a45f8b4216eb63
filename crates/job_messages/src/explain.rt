//! Lines that `--explain` prints on standard error after a fault.

use crate::guess::guess;
use dimacs_text::{Explanation, LineKind, MAX_KEPT_BYTES};
use job_answer::{Fault, MAX_BYTES};
use std::{fmt, io};

/// Prints at most four lines that explain a fault: by a text's explanation, or the system's error. Without these it
/// prints nothing.
pub fn print_explanation<H: Eprint>(
    rt: &H,
    fault: Fault,
    explanation: Option<Explanation>,
    failure: Option<io::Error>,
) {
    match fault {
        Fault::Text { .. } => {
            if let Some(explanation) = &explanation {
                print_line(rt, explanation);
            }
        }
        Fault::Read | Fault::Write => {
            if let Some(failure) = &failure {
                say(rt, ExplainedText::System(failure));
            }
        }
        Fault::TooLong => say(rt, ExplainedText::Limit),
        Fault::NoAsk => say(rt, ExplainedText::Advice(NO_ASK)),
        Fault::NoSources => say(rt, ExplainedText::Advice(NO_SOURCES)),
        Fault::Memory => say(rt, ExplainedText::Advice(NO_MEMORY)),
        Fault::Spawn => {}
    }
}

const NO_ASK: &str =
    "expected 'p aux sp ss K' or 'p aux sp p2p K' after the arcs, or --answer components";

const NO_SOURCES: &str =
    "--within takes 'p aux sp ss K', sources; without it pairs say what each target costs";

const NO_MEMORY: &str = "--at-once 1 takes least: MEMORY in the manual says how much";

fn print_line<H: Eprint>(rt: &H, explanation: &Explanation) {
    say(rt, ExplainedText::Line(explanation));
    say(rt, ExplainedText::Expected(explanation));
    if explanation.place.is_some() {
        say(rt, ExplainedText::Place(explanation));
    }
    if let Some(advice) = guess(explanation) {
        say(rt, ExplainedText::Advice(advice));
    }
}

/// Prints a line. A closed standard error doesn't matter.
fn say<H: Eprint>(rt: &H, words: ExplainedText) {
    let _ = eprintln!(rt; "obim_query: why: {words}");
}

#[derive(Clone, Copy)]
enum ExplainedText<'a> {
    /// The line, or that there is no line.
    Line(&'a Explanation),
    /// The text that belongs in which field.
    Expected(&'a Explanation),
    /// The line's place in its section.
    Place(&'a Explanation),
    /// The system's reason.
    System(&'a io::Error),
    /// The most bytes of a text.
    Limit,
    Advice(&'static str),
}

impl fmt::Display for ExplainedText<'_> {
    fn fmt<W: fmt::Write>(&self, f: &mut fmt::Formatter<W>) -> fmt::Result {
        match *self {
            ExplainedText::Line(explanation) => write_line(f, explanation),
            ExplainedText::Expected(explanation) => write_expected(f, explanation),
            ExplainedText::Place(explanation) => write_place(f, explanation),
            ExplainedText::System(error) => write!(f, "{error}"),
            ExplainedText::Limit => write!(f, "a job has at most {MAX_BYTES} bytes"),
            ExplainedText::Advice(advice) => f.write_str(advice),
        }
    }
}

fn write_line<W: fmt::Write>(f: &mut fmt::Formatter<W>, explanation: &Explanation) -> fmt::Result {
    let line = explanation.line;
    match &explanation.text {
        None => write!(f, "the text ends before line {line}"),
        Some(text) if text.length() > MAX_KEPT_BYTES => {
            let length = text.length();
            write!(f, "line {line} has {length} bytes and begins '{text}'")
        }
        Some(text) => write!(f, "line {line} is '{text}'"),
    }
}

fn write_expected<W: fmt::Write>(
    f: &mut fmt::Formatter<W>,
    explanation: &Explanation,
) -> fmt::Result {
    if let Some(field) = explanation.field {
        let wrong = if field > explanation.fields {
            "missing"
        } else if explanation.kind == LineKind::Fields {
            "one too many"
        } else {
            "wrong"
        };
        write!(f, "field {field} is {wrong}: ")?;
    }
    let expected = &explanation.expected;
    write!(f, "expected {expected}")
}

fn write_place<W: fmt::Write>(f: &mut fmt::Formatter<W>, explanation: &Explanation) -> fmt::Result {
    let Some(place) = &explanation.place else {
        return Ok(());
    };
    if explanation.text.is_none() || place.came >= place.announced {
        return write!(f, "{place}");
    }
    let item = place.section.item_name();
    let number = place.came.saturating_add(1);
    let (all, head) = (place.announced, place.head);
    write!(
        f,
        "it stands in place of {item} {number} of {all} of the section that line {head} begins"
    )
}
