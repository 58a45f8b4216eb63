//! The command and its arguments, as `clap` takes them.

ghost use Rattle.std.specs.Prelude.{◌≡◌, codes, false, IfOk};
ghost use Rattle.clap.specs.Words.{app_of, rule_of, with_rule};
ghost use Rattle.command_line.specs.CommandLine.{answer_rule, at_once_rule, chunk_rule, hierarchy_rule, operand_rule, shift_rule};
ghost use Rattle.command_line.specs.CommandLine.{bare_program, flag, labels_rule, landmarks_rule, program, valued};
ghost use Rattle.command_line.specs.CommandLine.{walks_rule, within_rule, workers_rule};

use crate::values::{AT_ONCE, CHUNK, HIERARCHY_USES, KINDS, LABELS, LANDMARKS, SHIFT, WORKERS};
use clap::{Arg, ArgAction, Command};
use std::alloc::{AllocError, Global};

/// The version that `--version` prints: that of `python/pyproject.toml`.
const VERSION: &str = "0.2.0";

const USAGE: &str = "obim_query [OPTIONS] < JOB";

const ABOUT: &str = "Answers a job: a directed graph with whole-number weights, and queries.";

const AFTER: &str = "\
Workers, sources at once, landmarks, hierarchy, shift and chunk change how long
an answer takes, and no byte of it. The defaults serve every kind of graph, from
paths to maps of 24 million vertices. With --workers auto there are two, and one
works alone in a small graph, where the other would gain less than it takes; so
it does in a session by any --workers. With --at-once auto sources are solved
side by side, up to one for each worker, and one by one if the graph is large
and vertices have many arcs; each source at once takes memory of its own.
Landmarks are vertices from which a graph is solved once many pairs are far from
each other: by their costs such pairs take a fraction of the time. Each takes 2
bytes a vertex; without --landmarks there are 16 at most, and with 0 none. A
hierarchy has shortcuts over less important vertices, by which a far pair takes
a fraction of a millisecond on a map. With --hierarchy auto one is made once far
pairs took as long, with now before the first pair, with no never; it is
checked, and given up on graphs that are unlike maps. Walks don't use it. With
--shift auto the buckets of vertices get wider as costs rise, up to a width that
fits the graph; with --shift BITS each spans 2^BITS costs. Without --chunk a
chunk has 256 vertices with one worker, 128 with two, and 64 with more. If an
option is given twice, the last one counts.

A job is one text on standard input (which the argument - stands for): a graph
in the .gr format of the 9th DIMACS Implementation Challenge, and after it its
sources in the .ss format, or pairs of a source and a target in the .p2p format.
Vertices count from 1.

  c a comment
  p sp N M           N vertices and M arcs; M lines follow:
  a U V W            an arc from U to V of weight W, from 0 to 4294967295
  p aux sp ss K      K sources; K lines follow:
  s V                the source V
  p aux sp p2p K     or K pairs; K lines follow:
  q S T              the pair of the source S and the target T
  p aux sp add K     perhaps K added arcs, last; K lines `a U V W` follow

For each source the answer has the line `s V`, and for each vertex a line
`d V COST`: the least cost of a walk there, or the fewest arcs for levels, or
`inf` if there is no walk. With --within COST only vertices that cost at most
COST have a line, and sources are solved no further; that is for sources alone.
For each pair the answer has the line `q S T COST`. With --walks a line
`w V COST U .. V` follows if there is a walk: its vertices in order. For
components, which are the weak ones, the answer has for each vertex `k V LABEL`:
the least vertex that arcs join to V, whichever way they point.
With --labels raw 8 bytes for each vertex follow the line `s V`, little end
first, 2^64 - 1 if there is no walk. With --totals a source has the one line
`t V REACHED SUM GREATEST FARTHEST`: how many vertices a walk reaches, the sum
of their costs, the greatest, and the least vertex that has it. Pairs stay as
they are with both.
With added arcs the line `g K` follows the lines of each source, each pair or
the components, and then the same lines for the graph with these arcs.

With --session requests follow the graph, each a section of a line and K more:

  p aux sp [KIND] [LINES] ss K            sources
  p aux sp [KIND] [LINES] within COST K   sources, and vertices of at most COST
  p aux sp [KIND] [LINES] p2p K           pairs
  p aux sp [KIND] walk K                  pairs, and the walk of each
  p aux sp add K      arcs that are added: `g K`
  p aux sp cut K      pairs `q U V` whose arcs from U to V are removed: `x C`
  p aux sp set K      arcs in place of all between their ends: `x C`, `g K`
  p aux sp arcs K     pairs whose arcs are listed, each by a line `a U V W`

KIND is distances, levels or components, and LINES each, walks, raw or totals;
without a word the options decide. A request is answered as soon as its last
line has come, on the graph as it was changed before, and the answer ends with
the line `r N M LINE`: the graph has N vertices and M arcs, and the request ends
on that line. So is the graph itself. A request with a line that is wrong is
answered by the line `e LINE WORDS` alone, and nothing of it is done.

Example:
  $ printf 'p sp 2 1\\na 1 2 7\\np aux sp ss 1\\ns 1\\n' | obim_query
  s 1
  d 1 0
  d 2 7

Status: 0 answered, 1 the command line is refused, 2 the text is refused,
3 memory is refused, 4 reading or writing failed, 5 a thread is refused.";

/// The help's sentence on each setting.
#[derive(Drop)]
pub(crate) struct Limits {
    workers: String,
    at_once: String,
    landmarks: String,
    shift: String,
    chunk: String,
}

impl Limits {
    pub(crate) fn new(alloc: Global) -> Result<Limits, AllocError> {
        Ok(Limits {
            workers: format!(in alloc; "How many workers, {WORKERS}")?,
            at_once: format!(in alloc; "Sources at once, {AT_ONCE}")?,
            landmarks: format!(in alloc; "Landmarks for far pairs, at most: {LANDMARKS}")?,
            shift: format!(in alloc; "Bucket width 2^BITS, {SHIFT}")?,
            chunk: format!(in alloc; "Vertices in a chunk, the unit of shared work, {CHUNK}")?,
        })
    }
}

/// The command. No setting changes how clap reads words, so its contract says which words are values.
pub(crate) fn command<'a>(alloc: Global, limits: &'a Limits) -> Result<Command<'a>, AllocError>
    ensures { IfOk result (λ command. app_of command ≡ program) }
{
    let answers = with_forms(alloc, with_answers(alloc)?)?;
    let command = with_settings(alloc, answers, limits)?;
    with_flags(alloc, with_session(alloc, command)?)
}

fn with_answers<'a>(alloc: Global) -> Result<Command<'a>, AllocError>
    ensures { IfOk result (λ with. app_of with ≡ with_rule (with_rule (with_rule bare_program answer_rule)
        walks_rule) within_rule) }
{
    let command = texts(alloc).arg(answer_option(alloc))?;
    let command = command.arg(walks_option(alloc))?;
    Ok(command.arg(within_option(alloc))?)
}

fn with_forms<'a>(alloc: Global, command: Command<'a>) -> Result<Command<'a>, AllocError>
    ensures { IfOk result (λ with. app_of with ≡ with_rule (with_rule (app_of command.entry) labels_rule)
        (flag (codes "totals"))) }
{
    let command = command.arg(labels_option(alloc))?;
    let help = "Print one line a source: how many, sum, greatest";
    with_flag(alloc, command, "totals", help)
}

fn with_session<'a>(alloc: Global, command: Command<'a>) -> Result<Command<'a>, AllocError>
    ensures { IfOk result (λ with. app_of with ≡ with_rule (app_of command.entry) (flag (codes "session"))) }
{
    let help = "Answer requests after the graph, each at once";
    with_flag(alloc, command, "session", help)
}

/// The command with its texts. Of an option the last one counts.
fn texts<'a>(alloc: Global) -> Command<'a>
    ensures { app_of result ≡ bare_program }
{
    Command::new(alloc, "obim_query")
        .version(VERSION)
        .override_usage(USAGE)
        .about(ABOUT)
        .after_help(AFTER)
        .args_override_self(true)
}

fn with_settings<'a>(
    alloc: Global,
    command: Command<'a>,
    limits: &'a Limits,
) -> Result<Command<'a>, AllocError>
    ensures { IfOk result (λ with. app_of with ≡ with_rule (with_rule (with_rule (with_rule (with_rule (with_rule
        (app_of command.entry) workers_rule) at_once_rule) landmarks_rule) hierarchy_rule) shift_rule) chunk_rule) }
{
    let command = with_plan(alloc, command, limits)?
        .arg(shift_option(alloc, &limits.shift))?
        .arg(chunk_option(alloc, &limits.chunk))?;
    Ok(command)
}

fn with_plan<'a>(
    alloc: Global,
    command: Command<'a>,
    limits: &'a Limits,
) -> Result<Command<'a>, AllocError>
    ensures { IfOk result (λ with. app_of with ≡ with_rule (with_rule (with_rule (with_rule
        (app_of command.entry) workers_rule) at_once_rule) landmarks_rule) hierarchy_rule) }
{
    let command = command
        .arg(workers_option(alloc, &limits.workers))?
        .arg(at_once_option(alloc, &limits.at_once))?
        .arg(landmarks_option(alloc, &limits.landmarks))?
        .arg(hierarchy_option(alloc))?;
    Ok(command)
}

fn with_flags<'a>(alloc: Global, command: Command<'a>) -> Result<Command<'a>, AllocError>
    ensures { IfOk result (λ with. app_of with ≡ with_rule (with_rule (with_rule (with_rule
        (app_of command.entry) (flag (codes "progress"))) (flag (codes "stats"))) (flag (codes "explain")))
        operand_rule) }
{
    let help = "Print on standard error how far the answer is";
    let command = with_flag(alloc, command, "progress", help)?;
    let help = "Print figures on standard error after the answer";
    let command = with_flag(alloc, command, "stats", help)?;
    let help = "Explain a fault: the line, the field, what was expected";
    let command = with_flag(alloc, command, "explain", help)?;
    Ok(command.arg(operand(alloc))?)
}

fn with_flag<'a>(
    alloc: Global,
    command: Command<'a>,
    name: &'a str,
    help: &'a str,
) -> Result<Command<'a>, AllocError>
    ensures { IfOk result (λ with. app_of with ≡ with_rule (app_of command.entry) (flag name.entry.now)) }
{
    Ok(command.arg(flag(alloc, name, help))?)
}

fn answer_option<'a>(alloc: Global) -> Arg<'a>
    ensures rule { rule_of result ≡ answer_rule }
    ensures local { result.global ≡ false }
{
    option(alloc, "answer", "KIND", KINDS)
        .short('a')
        .default_value("distances")
}

fn walks_option<'a>(alloc: Global) -> Arg<'a>
    ensures rule { rule_of result ≡ walks_rule }
    ensures local { result.global ≡ false }
{
    let help = "Print a shortest path for each cost, of fewest arcs";
    flag(alloc, "walks", help).short('W')
}

fn within_option<'a>(alloc: Global) -> Arg<'a>
    ensures rule { rule_of result ≡ within_rule }
    ensures local { result.global ≡ false }
{
    option(alloc, "within", "COST", "Leave out vertices that cost more")
}

fn labels_option<'a>(alloc: Global) -> Arg<'a>
    ensures rule { rule_of result ≡ labels_rule }
    ensures local { result.global ≡ false }
{
    option(alloc, "labels", "FORM", LABELS).default_value("text")
}

fn workers_option<'a>(alloc: Global, help: &'a str) -> Arg<'a>
    ensures rule { rule_of result ≡ workers_rule }
    ensures local { result.global ≡ false }
{
    option(alloc, "workers", "COUNT", help)
        .short('w')
        .default_value("auto")
}

fn at_once_option<'a>(alloc: Global, help: &'a str) -> Arg<'a>
    ensures rule { rule_of result ≡ at_once_rule }
    ensures local { result.global ≡ false }
{
    option(alloc, "at-once", "COUNT", help).default_value("auto")
}

fn landmarks_option<'a>(alloc: Global, help: &'a str) -> Arg<'a>
    ensures rule { rule_of result ≡ landmarks_rule }
    ensures local { result.global ≡ false }
{
    option(alloc, "landmarks", "MAX", help)
}

fn hierarchy_option<'a>(alloc: Global) -> Arg<'a>
    ensures rule { rule_of result ≡ hierarchy_rule }
    ensures local { result.global ≡ false }
{
    option(alloc, "hierarchy", "USE", HIERARCHY_USES).default_value("auto")
}

fn shift_option<'a>(alloc: Global, help: &'a str) -> Arg<'a>
    ensures rule { rule_of result ≡ shift_rule }
    ensures local { result.global ≡ false }
{
    option(alloc, "shift", "BITS", help)
        .short('s')
        .default_value("auto")
}

fn chunk_option<'a>(alloc: Global, help: &'a str) -> Arg<'a>
    ensures rule { rule_of result ≡ chunk_rule }
    ensures local { result.global ≡ false }
{
    option(alloc, "chunk", "SIZE", help).short('c')
}

/// The words that are no options.
fn operand<'a>(alloc: Global) -> Arg<'a>
    ensures rule { rule_of result ≡ operand_rule }
    ensures local { result.global ≡ false }
{
    Arg::new(alloc, "operand")
        .action(ArgAction::Append)
        .num_args(0..)
        .hide(true)
}

fn option<'a>(alloc: Global, name: &'a str, value: &'a str, help: &'a str) -> Arg<'a>
    ensures rule { rule_of result ≡ valued name.entry.now }
    ensures local { result.global ≡ false }
{
    Arg::new(alloc, name)
        .long(name)
        .value_name(value)
        .help(help)
}

fn flag<'a>(alloc: Global, name: &'a str, help: &'a str) -> Arg<'a>
    ensures rule { rule_of result ≡ flag name.entry.now }
    ensures local { result.global ≡ false }
{
    Arg::new(alloc, name)
        .long(name)
        .action(ArgAction::SetTrue)
        .help(help)
}
