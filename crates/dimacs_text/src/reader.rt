//! The way from a text to its job.
//!
//! A text comes whole, or in pieces of any size. Of a piece only the bytes of an unfinished line are kept, and of a
//! comment none.

ghost use Rattle.std.specs.Prelude.{◌≡◌, ◌^◌, ◌≤◌, ◌+◌, ◌++◌, ℕ, All, List, [], length, take, ◌<◌, None, IfOk, IfErr};
ghost use Rattle.std.specs.Prelude.{◌⊎◌, true, false};
ghost use Rattle.dimacs_text.specs.Lines.{lines};
ghost use Rattle.std.specs.Prelude.{OnOk};
ghost use Rattle.dimacs_text.specs.Jobs.{content_of, Content, IsJobText, IsWithinLimits};
ghost use Rattle.dimacs_text.specs.Explaining.{Explains};
ghost use Rattle.dimacs_text.specs.Faults.{IsFaultOf};
ghost use Rattle.std.specs.Bool.{OnFalse, OnTrue};
ghost use Rattle.dimacs_text.specs.reader.FastArc.{EndsWithFeed, HasNoFeed};
ghost use Rattle.dimacs_text.specs.reader.Drafts.{AreArcLines};
ghost use Rattle.dimacs_text.specs.Reading.{IsReadAhead, Reads};
ghost use Rattle.dimacs_text.specs.Reading.{HasRead, HasReadLines, HasReadText, IsLineEnd, IsOpenComment};
ghost use Rattle.dimacs_text.specs.GraphTexts.{HasFault, HasGraph, HasNoGraphInside, IsGraphOver, IsGraphText};

use crate::arc_runs::{ArcRun, ReadAhead};
use crate::draft::Draft;
use crate::explanation::ExplainedFault;
use crate::fault::{LineKind, TextFault};
use crate::job::Job;
use crate::line::{after_last_feed, begins_comment, line_end};
use route_walks::Memory;
use std::alloc::Global;

/// The lines that were read, all of them whole.
#[derive(Debug, Drop)]
struct LineReader {
    draft: Draft,
    /// The number of the next line, or of the first that is wrong.
    line: u64,
    /// The fault of that line, if it has one.
    fault: Option<LineKind>,
}

impl LineReader {
    /// Reads lines that each end with a line feed. After a line that is wrong none is read.
    fn read(&mut self, bytes: &[u8]) -> Result<(), Memory>
        requires ended { EndsWithFeed bytes.now }
        ensures reads { OnOk result ((text : List ℕ) → HasReadLines self.old text
            → length text + length bytes.now ≤ 2 ^ 36 → HasReadLines self.new (text ++ bytes.now)) }
    {
        if self.fault.is_some() {
            return Ok(());
        }
        match self.draft.read_lines(bytes, self.line) {
            Ok(next) => self.line = next,
            Err(TextFault::Memory) => return Err(Memory),
            Err(TextFault::Line { line, kind }) => {
                self.line = line;
                self.fault = Some(kind);
            }
        }
        Ok(())
    }

    /// Takes a run of arcs whose lines come next. Returns false, and takes none, if they don't fit or memory is refused.
    fn take_run(&mut self, run: &ArcRun) -> bool
        requires right { self.old.fault ≡ None }
        ensures taken { OnTrue result ((text lines : List ℕ) → HasReadLines self.old text
            → AreArcLines run.now.vertices lines run.now.arcs.items
            → length run.now.arcs.items ≤ length lines → length text + length lines ≤ 2 ^ 36
            → HasReadLines self.new (text ++ lines)) }
        ensures left { OnFalse result ((text : List ℕ) → HasReadLines self.old text → HasReadLines self.new text) }
    {
        let taken = self.draft.take_run(run);
        if taken {
            self.line = self.line.saturating_add(run.arcs.len() as u64);
        }
        taken
    }

    /// Passes by a comment and its line feed.
    fn pass_comment(&mut self)
        requires right { self.old.fault ≡ None }
        ensures passes { (text comment end : List ℕ) → HasReadLines self.old text → IsOpenComment comment → IsLineEnd end
            → length text + length comment + length end ≤ 2 ^ 36
            → HasReadLines self.new (text ++ (comment ++ end)) }
    {
        self.line = self.line.saturating_add(1);
    }

    /// The job of the lines and of a last line with no line feed: a comment, or these bytes.
    fn finish(self, in_comment: bool, last: &[u8]) -> Result<Job, ExplainedFault>
        ensures job { (text : List ℕ) → HasReadText self in_comment last.now text
            → IfOk result (λ job. IsJobText text (content_of job)) }
        ensures fault { (text : List ℕ) → HasReadText self in_comment last.now text
            → IfErr result (λ refused. IsFaultOf text refused.fault) }
        ensures explained { (text : List ℕ) → HasReadText self in_comment last.now text
            → IfErr result (λ refused. Explains text refused.fault refused.explanation) }
    {
        let LineReader {
            mut draft,
            line,
            fault,
        } = self;
        if let Some(kind) = fault {
            return Err(ExplainedFault {
                fault: TextFault::Line { line, kind },
                explanation: draft.explanation,
            });
        }
        if in_comment {
            return draft.finish(line.saturating_add(1));
        }
        if last.is_empty() {
            return draft.finish(line);
        }
        match draft.read(last, line) {
            Ok(()) => draft.finish(line.saturating_add(1)),
            Err(fault) => Err(ExplainedFault {
                fault,
                explanation: draft.explanation,
            }),
        }
    }
}

/// A reader of a job's text that comes in pieces.
#[derive(Debug, Drop)]
pub struct JobReader {
    lines: LineReader,
    /// The bytes of the unfinished last line, unless it is a comment.
    unfinished: Vec<u8>,
    /// The unfinished last line is a comment.
    in_comment: bool,
}

impl JobReader {
    /// Makes a reader that has read nothing yet.
    pub fn new(alloc: Global) -> JobReader
        ensures { HasRead result [] }
    {
        JobReader {
            lines: LineReader {
                draft: Draft::new(alloc),
                line: 1,
                fault: None,
            },
            unfinished: Vec::new(alloc),
            in_comment: false,
        }
    }

    /// Reads the next bytes of the text. After a line that is wrong nothing is kept of them. After
    /// `Memory` nothing is known of the reader.
    pub fn feed(&mut self, bytes: &[u8]) -> Result<(), Memory>
        ensures reads { OnOk result (Reads self.old self.new bytes.now) }
    {
        if self.lines.fault.is_some() {
            return Ok(());
        }
        let (lines, tail) = bytes.split_at(after_last_feed(bytes));
        self.read_lines(lines)?;
        self.keep(tail)
    }

    /// Reads the next bytes as `feed` does, of which some arcs are read ahead.
    pub fn feed_with(&mut self, bytes: &[u8], ahead: &ReadAhead) -> Result<(), Memory>
        requires ahead { IsReadAhead bytes.now ahead.now }
        ensures reads { OnOk result (Reads self.old self.new bytes.now) }
    {
        let mut at = 0;
        let mut from = 0;
        while let Some(run) = ahead.first_from(from) {
            // What comes before the run is odd somewhere, and is read line by line.
            self.feed(&bytes[at..run.start])?;
            at = if self.take_run(run) {
                run.after
            } else {
                run.start
            };
            from = at.max(run.start + 1);
        }
        self.feed(&bytes[at..])
    }

    /// Takes a run of arcs that comes next. Returns false, and takes none, if it begins within a line or doesn't fit.
    fn take_run(&mut self, run: &ArcRun) -> bool
        ensures taken { OnTrue result ((lines : List ℕ)
            → AreArcLines run.now.vertices lines run.now.arcs.items
            → length run.now.arcs.items ≤ length lines → Reads self.old self.new lines) }
        ensures left { OnFalse result (Reads self.old self.new []) }
    {
        if self.lines.fault.is_some() || self.has_begun_line() {
            return false;
        }
        self.lines.take_run(run)
    }

    /// Reads lines that each end with a line feed, the first of them with what is kept of it.
    fn read_lines(&mut self, lines: &[u8]) -> Result<(), Memory>
        requires right { self.old.lines.fault ≡ None }
        requires ended { EndsWithFeed lines.now }
        ensures reads { OnOk result (Reads self.old self.new lines.now) }
    {
        if lines.is_empty() {
            return Ok(());
        }
        let (end, rest) = lines.split_at(self.left_of_line(lines));
        self.end_line(end)?;
        self.lines.read(rest)
    }

    /// Reads the line that was begun, if there is one; these bytes end it.
    fn end_line(&mut self, end: &[u8]) -> Result<(), Memory>
        requires right { self.old.lines.fault ≡ None }
        requires ended { EndsWithFeed (self.old.unfinished.items ++ end.now) }
        requires comment { self.old.in_comment ≡ true → IsLineEnd end.now }
        ensures reads { OnOk result ((text : List ℕ) → HasRead self.old text → length text + length end.now ≤ 2 ^ 36
            → HasReadLines self.new.lines (text ++ end.now)) }
        ensures kept { OnOk result ((text : List ℕ) → HasRead self.old text → self.new.unfinished.items ≡ []) }
        ensures outside { OnOk result (self.new.in_comment ≡ false) }
    {
        if self.in_comment {
            self.in_comment = false;
            self.lines.pass_comment();
            return Ok(());
        }
        self.unfinished.extend_from_slice(end)?;
        self.lines.read(&self.unfinished)?;
        self.unfinished.clear();
        Ok(())
    }

    /// Keeps bytes of an unfinished line.
    fn keep(&mut self, bytes: &[u8]) -> Result<(), Memory>
        requires open { HasNoFeed bytes.now 0 (length bytes.now) }
        ensures reads { OnOk result (Reads self.old self.new bytes.now) }
    {
        if self.lines.fault.is_some() {
            return Ok(());
        }
        if self.in_comment {
            return Ok(());
        }
        self.unfinished.extend_from_slice(bytes)?;
        if !begins_comment(&self.unfinished) {
            return Ok(());
        }
        self.unfinished.clear();
        self.in_comment = true;
        Ok(())
    }

    /// Tells if bytes of a line have come and its line feed hasn't.
    fn has_begun_line(&self) -> bool
        ensures none { result ≡ false → (self.now.in_comment ≡ false) × (self.now.unfinished.items ≡ []) }
        ensures comment { self.now.in_comment ≡ true → result ≡ true }
        ensures some { result ≡ true → (self.now.in_comment ≡ true) ⊎ (0 < length self.now.unfinished.items) }
    {
        self.in_comment || !self.unfinished.is_empty()
    }

    /// The number of bytes that end the line that was begun, or 0 if no line was begun.
    fn left_of_line(&self, lines: &[u8]) -> usize
        requires filled { 0 < length lines.now }
        requires ended { EndsWithFeed lines.now }
        ensures place { result ≤ length lines.now }
        ensures ends { EndsWithFeed (self.now.unfinished.items ++ take result lines.now) }
        ensures comment { self.now.in_comment ≡ true → IsLineEnd (take result lines.now) }
    {
        if self.has_begun_line() {
            line_end(lines, 0) + 1
        } else {
            0
        }
    }

    /// The number of vertices, if arcs of the graph may come next: what `Parts::new` asks for.
    pub fn vertices_if_arcs_come(&self) -> Option<u32> {
        self.lines.draft.vertices_if_arcs_come()
    }

    /// The number of arcs of the graph that were read, and the number that the problem line counts. `None` before that
    /// line.
    pub fn arcs_so_far(&self) -> Option<(usize, usize)> {
        self.lines.draft.arcs_so_far()
    }

    /// The number of lines that have to come at least before the graph is whole: the problem line, or one for each missing
    /// arc. 0 if the graph is whole, a section was begun or a line is wrong.
    pub fn missing_lines(&self) -> usize
        ensures inside { (text more : List ℕ) → HasRead self.now text → 0 < result → 0 < length more
            → length (lines more) ≤ result → HasNoGraphInside (text ++ more) }
    {
        if self.lines.fault.is_some() {
            return 0;
        }
        self.lines.draft.stage.missing_lines()
    }

    /// Reads the next bytes as `feed` does, up to the line with which the graph is whole or to a wrong one, and returns
    /// how many it took.
    pub fn feed_graph(&mut self, bytes: &[u8]) -> Result<usize, Memory>
        ensures place { IfOk result (λ count. count ≤ length bytes.now) }
        ensures reads { IfOk result (λ count. Reads self.old self.new (take count bytes.now)) }
        ensures over { IfOk result (λ count. count < length bytes.now → IsGraphOver self.new) }
        // It does not read past a graph.
        ensures inside { IfOk result (λ count. (text : List ℕ) → HasRead self.old text
            → length text + length bytes.now ≤ 2 ^ 36 → HasNoGraphInside text
            → HasNoGraphInside (text ++ take count bytes.now)) }
    {
        let mut at = 0;
        let mut missing = self.missing_lines();
        while at < bytes.len() && missing > 0 {
            let rest = &bytes[at..];
            let (part, _) = rest.split_at(graph_part(rest, missing));
            self.feed(part)?;
            at += part.len();
            missing = self.missing_lines();
        }
        if at < bytes.len() && !self.is_graph_over() {
            // Only a reader that was fed more than a graph comes here.
            return Err(Memory);
        }
        Ok(at)
    }

    /// The number of the next line; a line that was begun counts. After a wrong line nothing is said.
    pub fn next_line(&self) -> u64
        ensures { (text : List ℕ) (job : Content) → HasRead self.now text → IsJobText text job
            → result ≡ length (lines text) + 1 }
    {
        if self.has_begun_line() {
            self.lines.line.saturating_add(1)
        } else {
            self.lines.line
        }
    }

    /// Tells if a line is wrong.
    pub fn is_refused(&self) -> bool
        ensures { OnTrue result (HasFault self.now) }
    {
        self.lines.fault.is_some()
    }

    /// Tells if no more bytes are read of the graph: it is whole, or a line is wrong.
    pub fn is_graph_over(&self) -> bool
        ensures { OnTrue result (IsGraphOver self.now) }
    {
        self.is_refused() || self.has_graph()
    }

    /// Tells if the problem line and all arcs that it counts were read, nothing after them, and no line is wrong.
    pub fn has_graph(&self) -> bool
        ensures whole { OnTrue result (HasGraph self.now) }
        ensures told { HasGraph self.now → result ≡ true }
    {
        if self.lines.fault.is_some() || self.has_begun_line() {
            return false;
        }
        matches!(self.lines.draft.stage.missing_arcs(), Some(0))
    }

    /// The graph of a text without sections that was read to a line feed, and the number of the next line. Any other
    /// text is refused with the number of its first wrong line and what is wrong there.
    pub fn finish_graph(self) -> Result<(Job, u64), TextFault>
        ensures graph { (text : List ℕ) → HasRead self text
            → IfOk result (λ graph. IsGraphText text (content_of graph.0)) }
        ensures within { (text : List ℕ) → HasRead self text
            → IfOk result (λ graph. IsWithinLimits (content_of graph.0)) }
        ensures next { (text : List ℕ) → HasRead self text
            → IfOk result (λ graph. graph.1 ≡ length (lines text) + 1) }
        ensures joined { (text more : List ℕ) → HasRead self text
            → IfOk result (λ graph. lines (text ++ more) ≡ lines text ++ lines more) }
        // If the graph is over, the fault is that of the text whatever comes after it.
        ensures fault { (text more : List ℕ) → HasRead self text → IsGraphOver self
            → IfErr result (IsFaultOf (text ++ more)) }
    {
        let line = self.lines.line;
        let is_whole = self.has_graph();
        match self.finish() {
            Err(fault) => Err(fault),
            Ok(graph) if is_whole => Ok((graph, line)),
            // A section was read, or bytes of a line without its line feed.
            Ok(_) => Err(TextFault::Line {
                line,
                kind: LineKind::Misplaced,
            }),
        }
    }

    /// The job of the text, or the number of its first wrong line and what is wrong there.
    pub fn finish(self) -> Result<Job, TextFault>
        ensures job { (text : List ℕ) → HasRead self text
            → IfOk result (λ job. IsJobText text (content_of job)) }
        ensures within { (text : List ℕ) → HasRead self text
            → IfOk result (λ job. IsWithinLimits (content_of job)) }
        ensures fault { (text : List ℕ) → HasRead self text → IfErr result (IsFaultOf text) }
    {
        match self.finish_explained() {
            Ok(job) => Ok(job),
            Err(refused) => Err(refused.fault),
        }
    }

    /// Finishes as `finish` does, and says of a fault also what a person needs to mend it.
    pub fn finish_explained(self) -> Result<Job, ExplainedFault>
        ensures job { (text : List ℕ) → HasRead self text
            → IfOk result (λ job. IsJobText text (content_of job)) }
        ensures within { (text : List ℕ) → HasRead self text
            → IfOk result (λ job. IsWithinLimits (content_of job)) }
        ensures fault { (text : List ℕ) → HasRead self text
            → IfErr result (λ refused. IsFaultOf text refused.fault) }
        ensures explained { (text : List ℕ) → HasRead self text
            → IfErr result (λ refused. Explains text refused.fault refused.explanation) }
    {
        let JobReader {
            lines,
            unfinished,
            in_comment,
        } = self;
        lines.finish(in_comment, &unfinished)
    }
}

/// The number of the next bytes that are surely of the graph, of which this many lines are missing.
fn graph_part(bytes: &[u8], missing: usize) -> usize
    requires some { 0 < length bytes.now }
    requires missing { 0 < missing }
    ensures some { 0 < result }
    ensures place { result ≤ length bytes.now }
    ensures few { length (lines (take result bytes.now)) ≤ missing }
{
    if bytes.len() <= missing {
        bytes.len()
    } else {
        after_feeds(bytes, missing)
    }
}

/// The place after this many line feeds, or after all bytes if there are fewer.
fn after_feeds(bytes: &[u8], count: usize) -> usize
    requires some { 0 < length bytes.now }
    requires count { 0 < count }
    ensures some { 0 < result }
    ensures place { result ≤ length bytes.now }
    ensures few { length (lines (take result bytes.now)) ≤ count }
{
    let mut left = count;
    for (place, byte) in bytes.iter().enumerate() {
        if *byte != b'\n' {
            continue;
        }
        left = left.saturating_sub(1);
        if left == 0 {
            return place + 1;
        }
    }
    bytes.len()
}

/// The job of a text. It is the text of a graph file (`.gr`), perhaps followed by that of a file of sources (`.ss`)
/// or of pairs (`.p2p`). An added section may come last: the line `p aux sp add K` and K arcs. The formats of the
/// files are those of the 9th DIMACS Implementation Challenge on shortest paths.
///
/// Any other text is refused with the number of its first wrong line and what is wrong there, and `Memory` comes if
/// memory is refused. Memory grows with the lines that are there, whatever the heads count.
pub fn read_job(alloc: Global, bytes: &[u8]) -> Result<Job, TextFault>
    requires { length bytes.now ≤ 2 ^ 36 }
    // It is the job of the text, and keeps the limits.
    ensures job { IfOk result (λ job. IsJobText bytes.now (content_of job)) }
    ensures within { IfOk result (λ job. IsWithinLimits (content_of job)) }
    // Otherwise it is the first fault of the text, unless memory was refused.
    ensures fault { IfErr result (IsFaultOf bytes.now) }
{
    let mut reader = JobReader::new(alloc);
    match reader.feed(bytes) {
        Ok(()) => reader.finish(),
        Err(_) => Err(TextFault::Memory),
    }
}
