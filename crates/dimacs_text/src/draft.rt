//! The job as far as it is read.

ghost use Rattle.std.specs.Prelude.{◌≡◌, ◌+◌, ◌*◌, max, ◌≤◌, ◌<◌, ◌^◌, [], length, drop, vec_len, vec_capacity, ℕ};
ghost use Rattle.std.specs.Prelude.{IfErr, IfOk, OnOk};
ghost use Rattle.std.specs.Prelude.{None, List, All, true, false};
ghost use Rattle.dimacs_text.specs.reader.Machine.{misfit_at};
ghost use Rattle.dimacs_text.specs.reader.Entries.{record_of};
ghost use Rattle.dimacs_text.specs.reader.Drafts.{question_at, AreArcLines};
ghost use Rattle.dimacs_text.specs.Jobs.{arc_record, question_of};
ghost use Rattle.dimacs_text.specs.declared.form.Form.TheVariants.{Counted};
ghost use Rattle.dimacs_text.specs.declared.form.Item.TheVariants.{Arc};
ghost use Rattle.dimacs_text.specs.declared.fault.TextFault.TheVariants.{Line};

use crate::arc_runs::ArcRun;
use crate::explanation::{ExplainedFault, Explanation, Place};
use crate::fast_arc::read_run;
use crate::fault::{LineKind, TextFault};
use crate::form::{Entry, Form, Section, read_line};
use crate::job::{Ask, Job};
use crate::line::line_end;
use crate::stage::Stage;
use route_walks::{ArcRec, MAX_VERTICES};
use std::alloc::{AllocError, Global};

/// Arcs for which room is made at first.
const FIRST_ARCS: usize = 1 << 15;

/// The factor by which that room grows. To move a long list is slow, and room that isn't written takes no memory.
const GROWTH: usize = 1 << 10;

/// The content of the lines so far. Vertices count to `vertices`.
#[derive(Debug, Drop)]
pub struct Draft {
    pub stage: Stage,
    pub vertices: u32,
    pub arcs: Vec<ArcRec>,
    pub sources: Vec<u32>,
    pub pairs: Vec<(u32, u32)>,
    /// The arcs of the added section; those of the problem are apart.
    pub added: Vec<ArcRec>,
    /// The stage of the reader before the added section, once that has begun.
    pub before_added: Stage,
    /// The number of the line that begins the section, once one has begun.
    pub head: u64,
    /// The explanation of the line that is wrong, once one is.
    pub explanation: Option<Explanation>,
}

/// The question of the section that the reader is in.
fn ask_at(stage: Stage, sources: Vec<u32>, pairs: Vec<(u32, u32)>) -> Ask
    ensures { question_of result ≡ question_at stage sources.items pairs.items }
{
    match stage {
        Stage::Within {
            section: Section::Sources,
            ..
        } => Ask::Sources(sources),
        Stage::Within {
            section: Section::Pairs,
            ..
        } => Ask::Pairs(pairs),
        _ => Ask::Absent,
    }
}

/// Makes room for `count` arcs, and if there wasn't, for more of the `missing` ones. If memory is refused there is as
/// much room as before.
fn make_room(arcs: &mut Vec<ArcRec>, count: usize, missing: u32)
    ensures items { arcs.new.items ≡ arcs.old.items }
    ensures missing { vec_capacity arcs.new ≤ max (vec_capacity arcs.old) (vec_len arcs.old + missing) }
    ensures few { vec_capacity arcs.new
        ≤ max (vec_capacity arcs.old) (vec_len arcs.old * GROWTH + FIRST_ARCS + count) }
{
    let length = arcs.len();
    if arcs.capacity() - length < count {
        let all = length.saturating_mul(GROWTH).max(FIRST_ARCS);
        let more = (all - length).max(count).min(missing as usize);
        let _ = arcs.reserve_exact(more);
    }
}

impl Draft {
    ghost use Rattle.dimacs_text.specs.reader.Drafts.{after_line, progress_of, IsFaultAt, IsFaultIn};
    ghost use Rattle.dimacs_text.specs.reader.Drafts.{IsLackOf, ReadsLine, ReadsTo};
    ghost use Rattle.dimacs_text.specs.reader.Drafts.{ExplainsEnd, ExplainsIn, ExplainsLine};
    ghost use Rattle.dimacs_text.specs.reader.FastArc.{EndsWithFeed};
    ghost use Rattle.dimacs_text.specs.Jobs.{content_of, records_of};
    ghost use Rattle.dimacs_text.specs.AfterGraph.{asks};
    ghost use Rattle.dimacs_text.specs.reader.Drafts.{arcs_progress, IsLackAt};
    ghost use Rattle.dimacs_text.specs.reader.Requests.{is_complete_at, is_request_at};
    ghost use Rattle.std.specs.Prelude.{Some, MatchOption};

    /// Makes a draft for which nothing is read yet.
    pub fn new(alloc: Global) -> Draft
        ensures stage { result.stage ≡ Stage.Start }
        ensures vertices { result.vertices ≡ MAX_VERTICES }
    {
        Draft {
            stage: Stage::Start,
            vertices: MAX_VERTICES,
            arcs: Vec::new(alloc),
            sources: Vec::new(alloc),
            pairs: Vec::new(alloc),
            added: Vec::new(alloc),
            before_added: Stage::Start,
            head: 0,
            explanation: None,
        }
    }

    /// The problem line of a graph of this many vertices and no arc is read.
    pub fn after_graph(alloc: Global, vertices: u32) -> Draft
        ensures { progress_of result ≡ arcs_progress vertices 0 [] }
    {
        Draft {
            stage: Stage::Within {
                section: Section::Problem,
                missing: 0,
            },
            vertices,
            arcs: Vec::new(alloc),
            sources: Vec::new(alloc),
            pairs: Vec::new(alloc),
            added: Vec::new(alloc),
            before_added: Stage::Start,
            head: 0,
            explanation: None,
        }
    }

    /// The number of vertices, if arcs of the graph may come next.
    pub fn vertices_if_arcs_come(&self) -> Option<u32> {
        self.stage.missing_arcs().map(|_| self.vertices)
    }

    /// The number of arcs of the graph that were read, and the number that the problem line counts. `None` before that
    /// line.
    pub fn arcs_so_far(&self) -> Option<(usize, usize)> {
        let read = self.arcs.len();
        match self.stage {
            Stage::Start => None,
            Stage::Within {
                section: Section::Problem,
                missing,
            } => Some((read, read.saturating_add(missing as usize))),
            Stage::Within { .. } => Some((read, read)),
        }
    }

    /// Takes an arc that fits, of the section that the reader is in.
    fn take_arc(&mut self, arc: ArcRec) -> Result<(), AllocError>
        requires fits { misfit_at self.old.stage (Counted Arc) ≡ None }
        ensures takes { OnOk result
            (progress_of self.new ≡ after_line (progress_of self.old) (Some (arc_record arc))) }
    {
        match self.stage {
            Stage::Within {
                section: Section::Added,
                ..
            } => self.added.push(arc)?,
            Stage::Within { missing, .. } => {
                make_room(&mut self.arcs, 1, missing);
                self.arcs.push(arc)?
            }
            Stage::Start => self.arcs.push(arc)?,
        }
        self.stage = self.stage.one_less();
        Ok(())
    }

    /// Takes an entry that fits, and if it begins a section the number of its line.
    pub fn take(&mut self, entry: Entry, line: u64) -> Result<(), AllocError>
        requires fits { misfit_at self.old.stage (record_of entry).form ≡ None }
        ensures takes { OnOk result
            (progress_of self.new ≡ after_line (progress_of self.old) (Some (record_of entry))) }
    {
        if let Form::Head(_) = entry.form() {
            self.head = line;
        }
        match entry {
            Entry::Problem { vertices, arcs } => {
                self.vertices = vertices;
                self.stage = Stage::Within {
                    section: Section::Problem,
                    missing: arcs,
                };
                self.arcs.clear();
            }
            Entry::Arc(arc) => self.take_arc(arc)?,
            Entry::Sources(count) => {
                self.stage = Stage::Within {
                    section: Section::Sources,
                    missing: count,
                };
                self.sources.clear();
            }
            Entry::Source(vertex) => {
                self.sources.push(vertex)?;
                self.stage = self.stage.one_less();
            }
            Entry::Pairs(count) => {
                self.stage = Stage::Within {
                    section: Section::Pairs,
                    missing: count,
                };
                self.pairs.clear();
            }
            Entry::Pair(source, target) => {
                self.pairs.push((source, target))?;
                self.stage = self.stage.one_less();
            }
            Entry::Added(count) => {
                self.before_added = self.stage;
                self.stage = Stage::Within {
                    section: Section::Added,
                    missing: count,
                };
                self.added.clear();
            }
        }
        Ok(())
    }

    /// Reads a line, whose number is given.
    pub fn read(&mut self, text: &[u8], line: u64) -> Result<(), TextFault>
        ensures reads { OnOk result (ReadsLine (progress_of self.old) (progress_of self.new) text.now) }
        ensures fault { IfErr result (IsFaultAt (progress_of self.old) text.now line) }
        ensures explained { IfErr result
            (λ fault. ExplainsLine text.now fault self.new.explanation) }
    {
        match read_line(text, self.vertices) {
            Err(kind) => Err(self.refuse(text, line, kind)),
            Ok(None) => Ok(()),
            Ok(Some(entry)) => match self.stage.misfit(entry.form()) {
                Some(kind) => Err(self.refuse(text, line, kind)),
                None => match self.take(entry, line) {
                    Ok(()) => Ok(()),
                    Err(_) => Err(TextFault::Memory),
                },
            },
        }
    }

    /// The fault of a line, which it explains.
    fn refuse(&mut self, text: &[u8], line: u64, kind: LineKind) -> TextFault
        ensures fault { result ≡ Line line kind }
        ensures explained { ExplainsLine text.now result self.new.explanation }
    {
        let place = self.place();
        let explanation = Explanation::of_line(text, line, kind, self.vertices, place);
        self.explanation = Some(explanation);
        TextFault::Line { line, kind }
    }

    /// The section that the reader is in, as far as it has come.
    fn place(&self) -> Option<Place> {
        let Stage::Within { section, missing } = self.stage else {
            return None;
        };
        let came = match section {
            Section::Problem => self.arcs.len(),
            Section::Sources => self.sources.len(),
            Section::Pairs => self.pairs.len(),
            Section::Added => self.added.len(),
        } as u64;
        Some(Place {
            section,
            head: self.head,
            announced: came.saturating_add(u64::from(missing)),
            came,
        })
    }

    /// Makes room for some of the `missing` arcs, and returns for how many there is: none if memory is refused.
    fn room_for_arcs(&mut self, missing: u32) -> u32
        ensures same { progress_of self.new ≡ progress_of self.old }
        ensures room { vec_len self.new.arcs + result ≤ vec_capacity self.new.arcs }
        ensures missing { result ≤ missing }
    {
        make_room(&mut self.arcs, 1, missing);
        (missing as usize).min(self.arcs.capacity() - self.arcs.len()) as u32
    }

    /// Reads the arcs from a place on, as far as they are plain and fit: their number, and the place after them.
    fn read_arcs(&mut self, bytes: &[u8], start: usize) -> (u64, usize)
        requires ended { EndsWithFeed bytes.now }
        requires inside { start ≤ length bytes.now }
        ensures place { (start + result.0 ≤ result.1) × (result.1 ≤ length bytes.now) }
        ensures reads { (line : ℕ) → ReadsTo (progress_of self.old) line (drop start bytes.now)
            (progress_of self.new) (line + result.0) (drop result.1 bytes.now) }
    {
        let Some(missing) = self.stage.missing_arcs() else {
            return (0, start);
        };
        let room = self.room_for_arcs(missing);
        let (count, after) = read_run(bytes, start, self.vertices, room, &mut self.arcs);
        self.stage = Stage::Within {
            section: Section::Problem,
            missing: missing - count,
        };
        (u64::from(count), after)
    }

    /// Adds the arcs of a run, whose lines come next. Returns false if they don't fit, or memory is refused.
    pub fn take_run(&mut self, run: &ArcRun) -> bool
        ensures taken { result ≡ true → (text : List ℕ)
            → AreArcLines run.now.vertices text run.now.arcs.items → (line : ℕ)
            → ReadsTo (progress_of self.old) line text
            (progress_of self.new) (line + length run.now.arcs.items) [] }
        ensures left { result ≡ false → progress_of self.new ≡ progress_of self.old }
    {
        let count = run.arcs.len();
        let Some(missing) = self.stage.missing_arcs() else {
            return false;
        };
        if run.vertices != self.vertices || count > missing as usize {
            return false;
        }
        make_room(&mut self.arcs, count, missing);
        if self.arcs.extend_from_slice(&run.arcs).is_err() {
            return false;
        }
        self.stage = Stage::Within {
            section: Section::Problem,
            missing: missing - count as u32,
        };
        true
    }

    /// Reads lines that each end with a line feed, the first with this number. Returns the number of the next.
    pub fn read_lines(&mut self, bytes: &[u8], first: u64) -> Result<u64, TextFault>
        requires ended { EndsWithFeed bytes.now }
        ensures reads { first + length bytes.now < 2 ^ 64 → IfOk result (λ next.
            ReadsTo (progress_of self.old) first bytes.now (progress_of self.new) next []
            × (next ≤ first + length bytes.now)) }
        ensures fault { first + length bytes.now < 2 ^ 64
            → IfErr result (IsFaultIn (progress_of self.old) first bytes.now) }
        ensures explained { first + length bytes.now < 2 ^ 64
            → IfErr result (ExplainsIn (progress_of self.old) first bytes.now self.new.explanation) }
    {
        let mut at = 0;
        let mut line = first;
        while at < bytes.len() {
            let (count, place) = self.read_arcs(bytes, at);
            at = place;
            line = line.saturating_add(count);
            if at < bytes.len() {
                let end = line_end(bytes, at);
                match self.read(&bytes[at..end], line) {
                    Ok(()) => line = line.saturating_add(1),
                    Err(fault) => return Err(fault),
                }
                at = end + 1;
            }
        }
        Ok(line)
    }

    /// The job, if nothing is missing. The number is that of the line one past the last.
    pub fn finish(self, line: u64) -> Result<Job, ExplainedFault>
        ensures job { IfOk result (λ job. (progress_of self).records ≡ records_of (content_of job)) }
        ensures fault { IfErr result (λ refused. IsLackOf self line refused.fault) }
        ensures explained { IfErr result
            (λ refused. ExplainsEnd line refused.fault refused.explanation) }
    {
        if let Some(kind) = self.lack() {
            let explanation = Explanation::of_end(line, kind, self.place());
            return Err(ExplainedFault {
                fault: TextFault::Line { line, kind },
                explanation: Some(explanation),
            });
        }
        Ok(self.into_job())
    }

    /// Returns the kind of what is missing, if something is.
    fn lack(&self) -> Option<LineKind>
        ensures { MatchOption result (is_complete_at self.now.stage ≡ true) (IsLackAt self.now.stage) }
    {
        match self.stage {
            Stage::Start => Some(LineKind::NoProblem),
            Stage::Within { missing: 0, .. } => None,
            Stage::Within { .. } => Some(LineKind::TooFew),
        }
    }

    /// The job, if nothing is missing.
    pub fn into_job(self) -> Job
        requires complete { is_complete_at self.stage ≡ true }
        ensures job { (progress_of self).records ≡ records_of (content_of result) }
        ensures asks { is_request_at self.stage ≡ true
            → asks (content_of result).question (content_of result).added ≡ true }
    {
        let Draft {
            stage,
            vertices,
            arcs,
            sources,
            pairs,
            added,
            before_added,
            ..
        } = self;
        let (asked, added) = match stage {
            Stage::Within {
                section: Section::Added,
                ..
            } => (before_added, Some(added)),
            _ => (stage, None),
        };
        Job {
            n: vertices,
            arcs,
            ask: ask_at(asked, sources, pairs),
            added,
        }
    }
}
