//! The way from words to options.

ghost use Rattle.std.specs.Prelude.{◌↔◌, map, IfErr, IfOk, IsTrue};
ghost use Rattle.clap.specs.Words.{found_of, rows_of};
ghost use Rattle.command_line.specs.CommandLine.{AskForNothing, AskForText, AsksFor, IsAlone, IsLine, IsText};
ghost use Rattle.command_line.specs.CommandLine.{WordsAskFor};
ghost use Rattle.command_line.specs.Misuses.{Finds};

use crate::command::{Limits, command};
use crate::lines::lines_in;
use crate::options::Options;
use crate::refusals::{Refusal, refused_by};
use crate::values::{
    Misuse, answer_in, at_once_in, has_flag, has_hyphen, hierarchy_in, landmarks_in, saves_workers,
    settings_in,
};
use clap::ArgMatches;
use job_answer::{Asked, MAX_BYTES};
use std::alloc::Global;
use std::convert::AsStr;

/// Returns the options that the arguments ask for. The first argument is the program's name.
///
/// # Errors
/// `Refusal::Text` if they ask for help or the version, `Refusal::Line` with their first fault, `Refusal::Memory` if
/// memory is refused.
pub fn parse_options<'a, S: AsStr>(alloc: Global, arguments: &'a [S]) -> Result<Options, Refusal>
    ensures asked { IfOk result (WordsAskFor (map S.text arguments.entry.now)) }
    ensures text { IfErr result (λ refusal. IsText refusal → AskForText (map S.text arguments.entry.now)) }
    ensures refused { IfErr result (λ refusal. IsLine refusal → AskForNothing (map S.text arguments.entry.now)) }
{
    let limits = Limits::new(alloc)?;
    match command(alloc, &limits)?.try_get_matches_from(arguments) {
        Ok(matches) => Ok(options_in(alloc, &matches)?),
        Err(error) => Err(refused_by(alloc, error, arguments)),
    }
}

fn options_in(alloc: Global, matches: &ArgMatches) -> Result<Options, Misuse>
    ensures { Finds (AsksFor (rows_of (found_of matches.now))) result }
{
    let typed = has_hyphen(alloc, matches)?;
    let answer = answer_in(alloc, matches)?;
    let settings = settings_in(alloc, matches)?;
    let at_once = at_once_in(alloc, matches)?;
    let landmarks = landmarks_in(alloc, matches)?;
    let hierarchy = hierarchy_in(alloc, matches)?;
    let saves = saves_workers(matches);
    let walks = has_flag(matches, "walks");
    let lines = lines_in(alloc, matches, answer, walks)?;
    let session = has_flag(matches, "session");
    let stats = has_flag(matches, "stats");
    let progress = has_flag(matches, "progress");
    if !is_alone(session, stats, progress) {
        return Err(Misuse::Line(format!(in alloc;
            "--stats and --progress are for jobs, not for --session"
        )?));
    }
    let Some(asked) = Asked::by_lines(answer, settings, lines, MAX_BYTES) else {
        return Err(Misuse::Line(format!(in alloc; "--walks needs distances or levels")?));
    };
    Ok(Options {
        asked: asked
            .with_at_once(at_once)
            .with_landmarks(landmarks)
            .with_hierarchy(hierarchy)
            .with_saving(saves),
        session,
        stats,
        progress,
        explain: has_flag(matches, "explain"),
        typed,
    })
}

fn is_alone(session: bool, stats: bool, progress: bool) -> bool
    ensures { IsTrue result ↔ IsAlone session stats progress }
{
    !session || !(stats || progress)
}
