//! The graph that a session begins with.

ghost use Rattle.std.specs.Prelude.{◌≡◌, ◌+◌, ◌<◌, ◌≤◌, ◌^◌, ◌++◌, None, List, ℕ, length, true, false, IfErr, IfOk, OnErr};
ghost use Rattle.std.specs.Bool.{OnTrue};
ghost use Rattle.dimacs_text.specs.Faults.{IsFaultOf};
ghost use Rattle.dimacs_text.specs.GraphTexts.{HasGraph, IsGraphOver, IsGraphText};
ghost use Rattle.dimacs_text.specs.Lines.{lines};
ghost use Rattle.dimacs_text.specs.Reading.{HasRead};
ghost use Rattle.std.specs.Io.KnownBytes.{ReadConsumes};
ghost use Rattle.dimacs_text.specs.Jobs.{absent, content_of, IsWithinLimits};
ghost use Rattle.session_answer.specs.Conversations.{HasInitialGraph};
ghost use Rattle.session_answer.specs.Cuts.{EndsBy, IsFaultOfGraph, TakesSome};

use dimacs_text::{Ask, Job, JobReader, TextFault};
use job_answer::Fault;
use job_reader::read_arcs_from;
use std::alloc::Global;
use std::io::Read;
use std::thread::Threads;
use std::time::Clock;

/// A graph, and what comes after it.
#[derive(Drop)]
pub(crate) struct InitialGraph {
    pub(crate) graph: Job,
    /// The number of the next line.
    pub(crate) line: u64,
    /// The place in the bytes that were read last from which on they come after the graph.
    pub(crate) at: usize,
    /// The place up to which they do.
    pub(crate) end: usize,
    /// The input ended with the graph.
    pub(crate) has_ended: bool,
}

/// Reads a graph by single reads, and of what they give no more than `limit` bytes. A fault of the graph is found as soon
/// as its line has come. While many arcs are missing several threads read in larger pieces, of bytes that surely are the
/// graph's; there a fault is found a few pieces later.
pub(crate) fn read_initial_graph<H: Threads + Clock + Sync, R: Read>(
    rt: &H,
    alloc: Global,
    reader: &mut R,
    buffer: &mut [u8],
    limit: u64,
    threads: usize,
) -> Result<InitialGraph, Fault>
    requires limit { limit ≤ 2 ^ 36 }
    requires room { 0 < length buffer.old }
    ensures places { IfOk result (λ initial. (initial.at ≤ initial.end) × (initial.end ≤ length buffer.new)) }
    ensures initial { IfOk result (λ initial.
        HasInitialGraph limit initial buffer.new (R.remaining reader.old) (R.remaining reader.new)) }
    ensures limits { IfOk result (λ initial. IsWithinLimits (content_of initial.graph)) }
    ensures cut { OnErr result (TakesSome (R.remaining reader.old) (R.remaining reader.new)) }
    ensures says { IfErr result (EndsBy limit (R.remaining reader.old) (R.remaining reader.new)) }
{
    let mut job = JobReader::new(alloc);
    let mut left = limit as usize;
    for _ in 0..u64::MAX {
        let count = read_some(reader, buffer)?;
        if count == 0 {
            return ended_initial_graph(job);
        }
        let within = count.min(left);
        let at = job.feed_graph(&buffer[..within])?;
        if is_over(&job, at, within) {
            return open_initial_graph(job, at, count);
        }
        if count > left {
            return Err(Fault::TooLong);
        }
        left -= count;
        let more = read_arcs_from(rt, alloc, reader, &mut job, left, threads)?;
        left -= more;
        if job.missing_lines() == 0 {
            return Err(stopped_graph(job));
        }
    }
    Err(Fault::TooLong)
}

/// The fault for which threads read no more of a graph.
fn stopped_graph(job: JobReader) -> Fault
    ensures says { (text more : List ℕ) → HasRead job text → IsFaultOfGraph (text ++ more) result }
{
    if !job.is_refused() {
        // They stop before the graph's last line, so this never comes.
        return Fault::Memory;
    }
    let Err(fault) = job.finish_graph() else {
        return Fault::Memory;
    };
    fault_of(fault)
}

/// Tells if no more bytes are to be read of the graph, of which this many were fed and this many came.
fn is_over(job: &JobReader, fed: usize, came: usize) -> bool
    requires { fed < came → IsGraphOver job.now }
    ensures fed { result ≡ false → came ≤ fed }
    ensures over { result ≡ true → IsGraphOver job.now }
    ensures none { result ≡ false → HasGraph job.now → ⊥ }
{
    fed < came || job.is_refused() || job.has_graph()
}

/// The graph that was read. Of the bytes that were read last, those from one place up to another come after it.
fn open_initial_graph(job: JobReader, at: usize, end: usize) -> Result<InitialGraph, Fault>
    requires over { IsGraphOver job }
    ensures places { IfOk result (λ initial. (initial.at ≡ at) × (initial.end ≡ end) × (initial.has_ended ≡ false)) }
    ensures limits { (text : List ℕ) → HasRead job text → IfOk result (λ initial. IsWithinLimits (content_of initial.graph)) }
    ensures graph { (text : List ℕ) → HasRead job text
        → IfOk result (λ initial. IsGraphText text (content_of initial.graph)) }
    ensures next { (text : List ℕ) → HasRead job text → IfOk result (λ initial. initial.line ≡ length (lines text) + 1) }
    ensures joined { (text more : List ℕ) → HasRead job text
        → IfOk result (λ initial. lines (text ++ more) ≡ lines text ++ lines more) }
    ensures says { (text more : List ℕ) → HasRead job text → IfErr result (IsFaultOfGraph (text ++ more)) }
{
    match job.finish_graph() {
        Err(fault) => Err(fault_of(fault)),
        Ok((graph, line)) => Ok(InitialGraph {
            graph,
            line,
            at,
            end,
            has_ended: false,
        }),
    }
}

/// The graph of an input that ends there.
fn ended_initial_graph(job: JobReader) -> Result<InitialGraph, Fault>
    ensures places { IfOk result (λ initial. (initial.at ≡ 0) × (initial.end ≡ 0) × (initial.has_ended ≡ true)) }
    ensures limits { (text : List ℕ) → HasRead job text → IfOk result (λ initial. IsWithinLimits (content_of initial.graph)) }
    ensures graph { (text : List ℕ) → HasRead job text
        → IfOk result (λ initial. IsGraphText text (content_of initial.graph)) }
    ensures next { (text : List ℕ) → HasRead job text → IfOk result (λ initial. initial.line ≡ length (lines text) + 1) }
    ensures says { (text : List ℕ) → HasRead job text → IfErr result (IsFaultOfGraph text) }
{
    let line = job.next_line();
    match job.finish() {
        Err(fault) => Err(fault_of(fault)),
        Ok(graph) if is_graph(&graph) => Ok(InitialGraph {
            graph,
            line,
            at: 0,
            end: 0,
            has_ended: true,
        }),
        // The reader stops before a section, so this never comes.
        Ok(_) => Err(Fault::Memory),
    }
}

/// Tells if a job is a graph alone.
fn is_graph(job: &Job) -> bool
    ensures { OnTrue result (((content_of job.now).question ≡ absent) × ((content_of job.now).added ≡ None)) }
{
    job.added.is_none() && matches!(job.ask, Ask::Absent)
}

/// A fault of a text.
fn fault_of(fault: TextFault) -> Fault
    ensures { (text : List ℕ) → IsFaultOf text fault → IsFaultOfGraph text result }
{
    match fault {
        TextFault::Memory => Fault::Memory,
        TextFault::Line { line, kind } => Fault::Text { line, kind },
    }
}

/// One read, of which each error is `Read`.
pub(crate) fn read_some<R: Read>(reader: &mut R, buffer: &mut [u8]) -> Result<usize, Fault>
    ensures count { IfOk result (λ count. count ≤ length buffer.new) }
    ensures bytes { ReadConsumes (R.remaining reader.old) (R.remaining reader.new) result buffer.new }
    ensures only { IfErr result (λ fault. fault ≡ Fault.Read) }
{
    match reader.read(buffer) {
        Ok(count) => Ok(count),
        Err(_) => Err(Fault::Read),
    }
}
