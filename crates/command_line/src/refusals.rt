//! Refusals of a command line.

ghost use Rattle.std.specs.Prelude.{◌≡◌, ◌≢◌};
ghost use Rattle.clap.specs.Words.{kind_of};
ghost use Rattle.clap.specs.declared.error.kind.ErrorKind.TheVariants.{OutOfMemory};
ghost use Rattle.command_line.specs.CommandLine.{IsLine, IsText, IsTextKind};
ghost use Rattle.command_line.specs.Misuses.{refusal_of};
ghost use Rattle.command_line.specs.declared.refusals.Refusal.TheVariants as refusal;

use crate::values::{AT_ONCE, CHUNK, Misuse, Numbers, SHIFT, WORKERS};
use clap::Error;
use clap::error::ErrorKind;
use std::alloc::{AllocError, Global};
use std::convert::AsStr;

/// The reason why a command line asks for no answer.
#[derive(Drop)]
pub enum Refusal {
    /// The text asked for: help or version.
    Text(Error),
    /// The fault, in a sentence.
    Line(String),
    /// The system refused memory.
    Memory,
}

impl From<AllocError> for Refusal {
    ghost from_gives = { λ _ given. given ≡ refusal.Memory };

    fn from(_refused: AllocError) -> Refusal {
        Refusal::Memory
    }
}

impl From<Misuse> for Refusal {
    ghost from_gives = { λ misuse given. given ≡ refusal_of misuse };

    fn from(misuse: Misuse) -> Refusal {
        match misuse {
            Misuse::Line(line) => Refusal::Line(line),
            Misuse::Memory => Refusal::Memory,
        }
    }
}

pub(crate) fn refused_by<S: AsStr>(alloc: Global, error: Error, arguments: &[S]) -> Refusal
    ensures text { IsText result → IsTextKind (kind_of error) }
    ensures line { IsLine result → kind_of error ≢ OutOfMemory }
{
    match error.kind() {
        ErrorKind::OutOfMemory => Refusal::Memory,
        ErrorKind::DisplayHelp | ErrorKind::DisplayVersion => Refusal::Text(error),
        kind => match line_of(alloc, &error, kind, arguments) {
            Ok(line) => Refusal::Line(line),
            Err(_) => Refusal::Memory,
        },
    }
}

fn line_of<S: AsStr>(
    alloc: Global,
    error: &Error,
    kind: ErrorKind,
    arguments: &[S],
) -> Result<String, AllocError> {
    match negative_in(arguments) {
        Some((numbers, text)) if kind == ErrorKind::UnknownArgument => numbers.refuse(alloc, text),
        _ => sentence_of(alloc, error),
    }
}

/// The first negative number that stands for an option's number, and the option. clap takes such a word for an option.
fn negative_in<S: AsStr>(arguments: &[S]) -> Option<(Numbers, &str)> {
    let mut before: Option<Numbers> = None;
    for argument in arguments {
        let text = argument.as_str();
        match before {
            Some(numbers) if is_negative(text) => return Some((numbers, text)),
            _ => before = numbers_of(text),
        }
    }
    None
}

fn is_negative(text: &str) -> bool {
    match text.strip_prefix("-") {
        Some(digits) => !digits.is_empty() && digits.bytes().all(|byte| byte.is_ascii_digit()),
        None => false,
    }
}

fn numbers_of(text: &str) -> Option<Numbers> {
    match text {
        "--workers" | "-w" => Some(WORKERS),
        "--at-once" => Some(AT_ONCE),
        "--shift" | "-s" => Some(SHIFT),
        "--chunk" | "-c" => Some(CHUNK),
        _ => None,
    }
}

/// Gives clap's fault, and its tip of a similar argument or a look at the help.
fn sentence_of(alloc: Global, error: &Error) -> Result<String, AllocError> {
    let text = format!(in alloc; "{error}")?;
    let wrong = wrong_in(&text);
    match similar_in(&text) {
        Some(tip) => format!(in alloc; "{wrong}: {tip}"),
        None => format!(in alloc; "{wrong}: try '--help'"),
    }
}

/// Gives clap's fault: its first line, without the words that begin and end each.
fn wrong_in(text: &str) -> &str {
    let first = first_line(text);
    let wrong = first.strip_prefix("error: ").unwrap_or(first);
    wrong.strip_suffix(" found").unwrap_or(wrong)
}

fn first_line(text: &str) -> &str {
    match text.split_once('\n') {
        Some((first, _)) => first,
        None => text,
    }
}

/// Gives clap's tip, if it has one.
fn similar_in(text: &str) -> Option<&str> {
    let (_, tip) = text.split_once("\n  tip: ")?;
    let (tip, _) = tip.split_once('\n')?;
    if tip.starts_with("a similar argument") {
        Some(tip)
    } else {
        None
    }
}
