//! The lines that a command line asks for.

ghost use Rattle.std.specs.Prelude.{codes};
ghost use Rattle.clap.specs.Words.{first_value, found_of};
ghost use Rattle.command_line.specs.CommandLine.{AsksLines};
ghost use Rattle.command_line.specs.Misuses.{AreLines, Finds, SuitsKind};

use crate::values::{Misuse, has_flag, has_raw_labels, within_in};
use clap::ArgMatches;
use job_answer::{Answer, Lines};
use std::alloc::Global;

/// The lines that are asked for. Raw labels and totals have neither walks nor a bound, and components have no costs.
pub(crate) fn lines_in(
    alloc: Global,
    matches: &ArgMatches,
    answer: Answer,
    walks: bool,
) -> Result<Lines, Misuse>
    ensures { Finds (AsksLines (first_value (found_of matches.now) (codes "within"))
        (first_value (found_of matches.now) (codes "labels")) (first_value (found_of matches.now) (codes "totals"))
        answer walks) result }
{
    let within = within_in(alloc, matches)?;
    let raw = has_raw_labels(alloc, matches)?;
    let totals = has_flag(matches, "totals");
    refuse_components(alloc, answer, within, raw, totals)?;
    lines_of(alloc, walks, within, raw, totals)
}

fn lines_of(
    alloc: Global,
    walks: bool,
    within: Option<u64>,
    raw: bool,
    totals: bool,
) -> Result<Lines, Misuse>
    ensures { Finds (AreLines walks within raw totals) result }
{
    if raw {
        if walks || totals || within.is_some() {
            return Err(Misuse::Line(format!(in alloc;
                "--labels raw takes no --walks, --within or --totals"
            )?));
        }
        return Ok(Lines::Raw { pairs: false });
    }
    if totals {
        if walks || within.is_some() {
            return Err(Misuse::Line(format!(in alloc; "--totals takes no --walks or --within")?));
        }
        return Ok(Lines::Totals);
    }
    Ok(Lines::of(walks, within))
}

/// Refuses what components don't have.
fn refuse_components(
    alloc: Global,
    answer: Answer,
    within: Option<u64>,
    raw: bool,
    totals: bool,
) -> Result<(), Misuse>
    ensures { Finds (λ _. SuitsKind answer within raw totals) result }
{
    if !matches!(answer, Answer::Components) {
        return Ok(());
    }
    if within.is_some() {
        return Err(Misuse::Line(format!(in alloc; "--within needs distances or levels")?));
    }
    if raw {
        return Err(Misuse::Line(format!(in alloc; "--labels raw needs distances or levels")?));
    }
    if totals {
        return Err(Misuse::Line(format!(in alloc; "--totals needs distances or levels")?));
    }
    Ok(())
}
