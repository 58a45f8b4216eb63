//! The values of options.

ghost use Rattle.std.specs.Prelude.{◌≡◌, ℕ, [], codes, map, option_map, unwrap_or, MatchOption};
ghost use Rattle.clap.specs.Words.{first_value, found_of, matched_of, raw_values};
ghost use Rattle.command_line.specs.CommandLine.{AreHyphens, AsksAtOnce, AsksCost, AsksNumber, AsksSettings, IsAuto};
ghost use Rattle.command_line.specs.CommandLine.{AsksLandmarks, IsFlag, IsNumberIn, NamesKind, NamesLabels, NamesUse, usual_chunk};
ghost use Rattle.command_line.specs.Misuses.{Finds};
ghost use Rattle.command_line.specs.declared.values.Misuse.TheVariants as misuse;

use clap::ArgMatches;
use job_answer::{Answer, AtOnce, HierarchyUse, MAX_AT_ONCE, MAX_LANDMARKS, USUAL_LANDMARKS};
use least_costs::{CHUNK_OF_TWO, SHARED_CHUNK};
use obim_engine::{MAX_CHUNK, MAX_SHIFT, MAX_WORKERS, Settings};
use route_walks::INF;
use std::alloc::{AllocError, Global};
use std::fmt;

/// The values of `--answer`.
pub(crate) const KINDS: &str = "distances, levels or components";

/// The values of `--labels`.
pub(crate) const LABELS: &str = "text, or raw: 8 bytes each";

/// The values of `--hierarchy`.
pub(crate) const HIERARCHY_USES: &str = "Shortcuts for far pairs: auto, no, now";

pub(crate) const WORKERS: Numbers = Numbers {
    option: "workers",
    least: 1,
    most: MAX_WORKERS,
    has_auto: true,
};

pub(crate) const AT_ONCE: Numbers = Numbers {
    option: "at-once",
    least: 1,
    most: MAX_AT_ONCE,
    has_auto: true,
};

pub(crate) const LANDMARKS: Numbers = Numbers {
    option: "landmarks",
    least: 0,
    most: MAX_LANDMARKS as u32,
    has_auto: false,
};

pub(crate) const SHIFT: Numbers = Numbers {
    option: "shift",
    least: 0,
    most: MAX_SHIFT,
    has_auto: true,
};

pub(crate) const CHUNK: Numbers = Numbers {
    option: "chunk",
    least: 1,
    most: MAX_CHUNK as u32,
    has_auto: false,
};

/// The greatest value of `--within`: `INF` is no cost.
pub(crate) const MAX_COST: u64 = INF - 1;

/// The reason why values of options ask for no answer.
#[derive(Drop)]
pub(crate) enum Misuse {
    /// The fault, in a sentence.
    Line(String),
    /// The system refused memory.
    Memory,
}

impl From<AllocError> for Misuse {
    ghost from_gives = { λ _ given. given ≡ misuse.Memory };

    fn from(_refused: AllocError) -> Misuse {
        Misuse::Memory
    }
}

pub(crate) fn has_flag(matches: &ArgMatches, flag: &str) -> bool
    ensures { IsFlag (first_value (found_of matches.now) flag.now) result }
{
    matches.get_str(flag) == Some("true")
}

/// Tells if the operand `-`, standard input, is there. Refuses each other operand.
pub(crate) fn has_hyphen(alloc: Global, matches: &ArgMatches) -> Result<bool, Misuse>
    ensures { Finds (AreHyphens (unwrap_or
        (option_map raw_values (matched_of (found_of matches.now) (codes "operand"))) [])) result }
{
    match matches.get_strs("operand") {
        Some(operands) => are_hyphens(alloc, operands),
        None => Ok(false),
    }
}

fn are_hyphens(alloc: Global, operands: &[&str]) -> Result<bool, Misuse>
    ensures { Finds (AreHyphens (map (λ operand. operand.now) operands.now)) result }
{
    for operand in operands {
        if *operand != "-" {
            return Err(Misuse::Line(format!(in alloc;
                "unexpected argument '{operand}': \
                 the job comes on standard input: obim_query [OPTIONS] < {operand}"
            )?));
        }
    }
    Ok(!operands.is_empty())
}

/// The numbers that an option takes, and true if it takes `auto`.
#[derive(Clone, Copy)]
pub(crate) struct Numbers {
    option: &'static str,
    least: u32,
    most: u32,
    has_auto: bool,
}

impl Numbers {
    /// The number that is asked for; `None` if it is left out or `auto`.
    fn asked_in(self, alloc: Global, matches: &ArgMatches) -> Result<Option<u32>, Misuse>
        ensures { Finds (AsksNumber self.has_auto self.least self.most
            (first_value (found_of matches.now) self.option.now)) result }
    {
        let Some(text) = matches.get_str(self.option) else {
            return Ok(None);
        };
        if self.has_auto && text == "auto" {
            return Ok(None);
        }
        match number_in(text, u64::from(self.least), u64::from(self.most)) {
            Some(number) => Ok(Some(number as u32)),
            None => Err(Misuse::Line(self.refuse(alloc, text)?)),
        }
    }

    pub(crate) fn refuse(self, alloc: Global, text: &str) -> Result<String, AllocError> {
        let option = self.option;
        format!(in alloc; "invalid value '{text}' for '--{option}': a number from {self}")
    }
}

impl fmt::Display for Numbers {
    fn fmt<W: fmt::Write>(&self, f: &mut fmt::Formatter<W>) -> fmt::Result {
        let auto = if self.has_auto { ", or auto" } else { "" };
        write!(f, "{} to {}{auto}", self.least, self.most)
    }
}

fn number_in(text: &str, least: u64, most: u64) -> Option<u64>
    ensures { MatchOption result ((number : ℕ) → IsNumberIn least most text.now number → ⊥)
        (IsNumberIn least most text.now) }
{
    match text.parse::<u64>() {
        Ok(number) if least <= number && number <= most => Some(number),
        Ok(_) => None,
        Err(_) => None,
    }
}

pub(crate) fn settings_in(alloc: Global, matches: &ArgMatches) -> Result<Settings, Misuse>
    ensures { Finds (AsksSettings (first_value (found_of matches.now) (codes "workers"))
        (first_value (found_of matches.now) (codes "shift")) (first_value (found_of matches.now) (codes "chunk")))
        result }
{
    let workers = WORKERS.asked_in(alloc, matches)?.unwrap_or(2);
    let chunk = chunk_of(CHUNK.asked_in(alloc, matches)?, workers);
    let shift = SHIFT.asked_in(alloc, matches)?;
    let Some(settings) = Settings::new(workers, shift.unwrap_or(0), chunk) else {
        return Err(Misuse::Line(format!(in alloc; "a setting is outside its limits")?));
    };
    match shift {
        Some(_) => Ok(settings),
        None => Ok(settings.with_widening_buckets()),
    }
}

/// Tells if the number of workers is left to the program, which saves workers in a small graph.
pub(crate) fn saves_workers(matches: &ArgMatches) -> bool
    ensures { IsAuto (first_value (found_of matches.now) (codes "workers")) result }
{
    match matches.get_str("workers") {
        Some(text) => text == "auto",
        None => true,
    }
}

pub(crate) fn at_once_in(alloc: Global, matches: &ArgMatches) -> Result<AtOnce, Misuse>
    ensures { Finds (AsksAtOnce (first_value (found_of matches.now) (codes "at-once"))) result }
{
    Ok(match AT_ONCE.asked_in(alloc, matches)? {
        Some(count) => AtOnce::Most(count),
        None => AtOnce::Auto,
    })
}

/// The most landmarks that a network is given; 0 for none.
pub(crate) fn landmarks_in(alloc: Global, matches: &ArgMatches) -> Result<u32, Misuse>
    ensures { Finds (AsksLandmarks (first_value (found_of matches.now) (codes "landmarks"))) result }
{
    Ok(
        LANDMARKS
            .asked_in(alloc, matches)?
            .unwrap_or(USUAL_LANDMARKS),
    )
}

/// The pairs that are given a hierarchy.
pub(crate) fn hierarchy_in(alloc: Global, matches: &ArgMatches) -> Result<HierarchyUse, Misuse>
    ensures { Finds (NamesUse (first_value (found_of matches.now) (codes "hierarchy"))) result }
{
    match matches.get_str("hierarchy") {
        None | Some("auto") => Ok(HierarchyUse::Auto),
        Some("no") => Ok(HierarchyUse::Never),
        Some("now") => Ok(HierarchyUse::Now),
        Some(text) => Err(Misuse::Line(format!(in alloc;
            "invalid value '{text}' for '--hierarchy': auto, no or now"
        )?)),
    }
}

fn chunk_of(asked: Option<u32>, workers: u32) -> usize
    ensures { result ≡ unwrap_or asked (usual_chunk workers) }
{
    match asked {
        Some(chunk) => chunk as usize,
        None => usual_chunk(workers),
    }
}

/// The usual chunk. One worker shares nothing, so its chunks are as large as they can be.
fn usual_chunk(workers: u32) -> usize
    ensures { result ≡ usual_chunk workers }
{
    match workers {
        1 => MAX_CHUNK,
        2 => CHUNK_OF_TWO,
        _ => SHARED_CHUNK,
    }
}

pub(crate) fn within_in(alloc: Global, matches: &ArgMatches) -> Result<Option<u64>, Misuse>
    ensures { Finds (AsksCost (first_value (found_of matches.now) (codes "within"))) result }
{
    let Some(text) = matches.get_str("within") else {
        return Ok(None);
    };
    match number_in(text, 0, MAX_COST) {
        Some(cost) => Ok(Some(cost)),
        None => Err(Misuse::Line(format!(in alloc;
            "invalid value '{text}' for '--within': a cost from 0 to {MAX_COST}"
        )?)),
    }
}

pub(crate) fn answer_in(alloc: Global, matches: &ArgMatches) -> Result<Answer, Misuse>
    ensures { Finds (NamesKind (first_value (found_of matches.now) (codes "answer"))) result }
{
    match matches.get_str("answer") {
        None | Some("distances") => Ok(Answer::Distances),
        Some("levels") => Ok(Answer::Levels),
        Some("components") => Ok(Answer::Components),
        Some(text) => Err(Misuse::Line(format!(in alloc;
            "invalid value '{text}' for '--answer': {KINDS}"
        )?)),
    }
}

pub(crate) fn has_raw_labels(alloc: Global, matches: &ArgMatches) -> Result<bool, Misuse>
    ensures { Finds (NamesLabels (first_value (found_of matches.now) (codes "labels"))) result }
{
    match matches.get_str("labels") {
        None | Some("text") => Ok(false),
        Some("raw") => Ok(true),
        Some(text) => Err(Misuse::Line(format!(in alloc;
            "invalid value '{text}' for '--labels': text or raw"
        )?)),
    }
}
