//! The program `obim_query`.
//!
//! It reads a job from standard input and writes its answer, by the contracts of `answer` and `answer_session`. It
//! prints help and faults, and returns the status.
#![tactic(auto)]

ghost use Rattle.std.specs.Prelude.{◌≡◌, map};
ghost use Rattle.job_answer.specs.Choices.{status_of};
ghost use Rattle.job_answer.specs.Outcome.{IsReply};
ghost use Rattle.obim_query.specs.Replied.{HasReplied, HasRun, HasServed, IsEndOf};

mod input;
mod output;

use command_line::{Options, Refusal, parse_options};
use dimacs_text::Explanation;
use input::Input;
use job_answer::{Fault, Phase, Watch, answer_watched, status};
use job_messages::{Counter, ProgressMode, ProgressReport, print_explanation, print_stats};
use obim_engine::OpenGate;
use output::Output;
use session_answer::answer_session;
use std::convert::AsStr;
use std::env::Env;
use std::io::{self, ErrorKind, IsTerminal, Read, Write};
use std::process::ExitCode;
use std::sync::Wait;
use std::thread::Threads;
use std::time::Clock;
use std::{env, fmt};

/// The status of a refused command line.
const USAGE_STATUS: u8 = 1;

const REFUSED_STATUS: u8 = 2;

/// The refusal to read a job from a terminal.
const NO_JOB: &str = "no job: obim_query [OPTIONS] < JOB, or - to type it (see obim_query --help)";

/// The line after the fault of a text, at a terminal.
const HINT: &str = "--explain says more";

#[derive(Clone, Copy)]
struct Terminals {
    input: bool,
    error: bool,
}

/// The end of a run of the program.
#[derive(Drop)]
enum Ran {
    Status(u8),
    /// The help or the version, which is still to be printed.
    Text(clap::Error),
}

fn main(rt: HostRuntime) -> ExitCode {
    let terminals = Terminals {
        input: rt.stdin().is_terminal(),
        error: rt.stderr().is_terminal(),
    };
    let mut input = Input::new(rt.stdin());
    let mut output = Output::new(rt.stdout());
    let ran = match arguments(&rt) {
        Ok(words) => run(&rt, &words, &mut input, &mut output, terminals),
        Err(status) => Ran::Status(status),
    };
    let code = match ran {
        Ran::Status(status) => status,
        Ran::Text(text) => print_text(&rt, &text),
    };
    ExitCode::from(code)
}

/// The words of the command line; or the status, after an error is printed.
fn arguments<H: AllocGlobal + Env + Eprint>(rt: &H) -> Result<Vec<String>, u8> {
    match env::args(rt) {
        Ok(arguments) => match arguments.collect(rt.alloc()) {
            Ok(words) => Ok(words),
            Err(_) => Err(print_fault(rt, Fault::Memory)),
        },
        Err(error) if error.kind() == ErrorKind::InvalidData => Err(print_error(
            rt,
            "the command line is not UTF-8 text",
            USAGE_STATUS,
        )),
        Err(_) => Err(print_fault(rt, Fault::Memory)),
    }
}

/// Runs the program on these words, and returns the status, or the text that they ask for. `main` gives it the process's
/// own words and streams. It can't print on standard output: its bounds have no `Print`.
fn run<H: AllocGlobal + Eprint + Threads + Wait + Clock + Sync, S: AsStr, R: Read, W: Write>(
    rt: &H,
    words: &[S],
    input: &mut Input<R>,
    output: &mut Output<W>,
    terminals: Terminals,
) -> Ran
    ensures { HasRun (map S.text words.now) terminals.input (R.remaining input.old.inner) (R.remaining input.new.inner)
        (W.contents output.old.inner) (W.contents output.new.inner) result }
{
    match parse_options(rt.alloc(), words) {
        Ok(options) if !options.typed && terminals.input => {
            Ran::Status(print_error(rt, NO_JOB, USAGE_STATUS))
        }
        Ok(options) if options.session => {
            Ran::Status(serve(rt, input, output, &options, terminals.error))
        }
        Ok(options) => Ran::Status(run_job(rt, input, output, &options, terminals.error)),
        Err(refusal) => refused(rt, refusal),
    }
}

/// Returns the text that the command line asks for, or prints why it asks for no answer and returns the status.
fn refused<H: Eprint>(rt: &H, refusal: Refusal) -> Ran
    ensures { IsEndOf refusal result }
{
    match refusal {
        Refusal::Text(text) => Ran::Text(text),
        Refusal::Line(line) => Ran::Status(print_error(rt, line, USAGE_STATUS)),
        Refusal::Memory => Ran::Status(print_fault(rt, Fault::Memory)),
    }
}

/// Prints the help or the version, and returns the status.
fn print_text<H: Print + Eprint>(rt: &H, text: &clap::Error) -> u8 {
    match text.print(rt) {
        Ok(()) => 0,
        Err(_) => print_fault(rt, Fault::Write),
    }
}

fn progress_mode(options: &Options, is_terminal: bool) -> ProgressMode {
    if !options.progress {
        ProgressMode::Off
    } else if is_terminal {
        ProgressMode::Terminal
    } else {
        ProgressMode::Lines
    }
}

/// Answers a job, and returns the status. If the pipe of the answer is closed, nothing is printed.
fn run_job<H: AllocGlobal + Eprint + Threads + Wait + Clock + Sync, R: Read, W: Write>(
    rt: &H,
    input: &mut Input<R>,
    output: &mut Output<W>,
    options: &Options,
    is_terminal: bool,
) -> u8
    ensures { HasReplied options.now.asked (R.remaining input.old.inner) (R.remaining input.new.inner)
        (W.contents output.old.inner) (W.contents output.new.inner) result }
{
    let mut progress = ProgressReport::new(rt, progress_mode(options, is_terminal));
    let replied = reply(rt, input, output, options, &mut progress);
    match replied {
        Ok(()) => 0,
        Err(fault) if output.has_no_reader => status(&fault),
        Err(fault) => {
            let failure = input.failure.or(output.failure);
            let explanation = progress.explanation;
            print_whole_fault(rt, fault, explanation, failure, options, is_terminal)
        }
    }
}

/// Replies to a graph and its requests, and returns the status. If the pipe of the replies is closed, nothing is
/// printed.
fn serve<H: AllocGlobal + Eprint + Threads + Wait + Clock + Sync, R: Read, W: Write>(
    rt: &H,
    input: &mut Input<R>,
    output: &mut Output<W>,
    options: &Options,
    is_terminal: bool,
) -> u8
    ensures { HasServed options.now.asked (R.remaining input.old.inner) (R.remaining input.new.inner)
        (W.contents output.old.inner) (W.contents output.new.inner) result }
{
    match answer_session(rt, rt.alloc(), input, output, &options.asked, &OpenGate) {
        Ok(()) => 0,
        Err(unread) if output.has_no_reader => status(&unread),
        Err(fault) => {
            let failure = input.failure.or(output.failure);
            print_whole_fault(rt, fault, None, failure, options, is_terminal)
        }
    }
}

/// Answers, with figures and progress if asked.
fn reply<H: AllocGlobal + Eprint + Threads + Wait + Clock + Sync, R: Read, W: Write>(
    rt: &H,
    reader: &mut R,
    writer: &mut W,
    options: &Options,
    progress: &mut ProgressReport<H>,
) -> Result<(), Fault>
    ensures { IsReply options.now.asked.limit options.now.asked.answer options.now.asked.lines
        (R.remaining reader.old) (R.remaining reader.new)
        (W.contents writer.old) (W.contents writer.new) result }
{
    if options.stats || options.progress {
        return answer_with_figures(rt, reader, writer, options, progress);
    }
    let (asked, gate) = (&options.asked, &OpenGate);
    answer_watched(rt, rt.alloc(), reader, writer, asked, gate, progress)
}

/// Answers, and prints progress, and figures after the answer.
fn answer_with_figures<H: AllocGlobal + Eprint + Threads + Wait + Clock + Sync, R: Read, W: Write>(
    rt: &H,
    reader: &mut R,
    writer: &mut W,
    options: &Options,
    progress: &mut ProgressReport<H>,
) -> Result<(), Fault>
    ensures { IsReply options.now.asked.limit options.now.asked.answer options.now.asked.lines
        (R.remaining reader.old) (R.remaining reader.new)
        (W.contents writer.old) (W.contents writer.new) result }
{
    let (asked, alloc) = (&options.asked, rt.alloc());
    let counter = Counter::open(alloc, asked.settings.workers)?;
    let replied = answer_watched(rt, alloc, reader, writer, asked, &counter, progress);
    progress.clear();
    replied?;
    progress.end(rt, Phase::Writing);
    progress.tell_end();
    if options.stats {
        print_stats(rt, asked, &progress.figures, &counter);
    }
    Ok(())
}

/// Prints a fault, explained if asked, and returns its status. A terminal gets a hint at `--explain`.
fn print_whole_fault<H: Eprint>(
    rt: &H,
    fault: Fault,
    explanation: Option<Explanation>,
    failure: Option<io::Error>,
    options: &Options,
    is_terminal: bool,
) -> u8
    ensures { result ≡ status_of fault }
{
    let status = print_fault(rt, fault);
    if options.explain {
        print_explanation(rt, fault, explanation, failure);
    } else if is_terminal && status == REFUSED_STATUS {
        print_error(rt, HINT, status);
    }
    status
}

fn print_fault<H: Eprint>(rt: &H, fault: Fault) -> u8
    ensures { result ≡ status_of fault }
{
    print_error(rt, fault, status(&fault))
}

/// Prints a text on standard error, after the program's name.
fn print_error<H: Eprint, T: fmt::Display + Drop>(rt: &H, text: T, status: u8) -> u8
    ensures { result ≡ status }
{
    // If standard error is closed too, the status has to say it.
    let _ = eprintln!(rt; "obim_query: {text}");
    status
}
