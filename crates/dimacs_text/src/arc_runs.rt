//! Runs of arcs that several threads read side by side.
//!
//! A run is a hint: it says which arcs come next where it begins. Where there is none, lines are read one by one. So it
//! may end early, for any reason.

ghost use Rattle.std.specs.Prelude.{◌<◌, ◌≡◌, ◌≤◌, ◌+◌, ◌-◌, ◌*◌, ◌/◌, max, List, [], ℕ, length, take, All, IfSome};
ghost use Rattle.std.specs.Prelude.{vec_len, vec_capacity};
ghost use Rattle.std.specs.Bool.{OnTrue};
ghost use Rattle.dimacs_text.specs.Reading.{AreRunsOf, IsReadAhead, most_parts, run_count};
ghost use Rattle.dimacs_text.specs.reader.FastArc.{EndsWithFeed};
ghost use Rattle.dimacs_text.specs.reader.ArcRuns.{IsArcRun, IsRunFrom};

use crate::fast_arc::read_run;
use crate::line::{after_last_feed, line_end};
use route_walks::ArcRec;
use std::alloc::Global;
use std::sync::atomic::{AtomicUsize, Ordering};
use std::thread::{Threads, for_each_mut};

/// The bytes of the shortest line of an arc, `a 1 1 0` and a line feed.
pub const SHORTEST_ARC_BYTES: usize = 8;

/// Bytes of a part: few, so that no thread is waited for long.
const PART_BYTES: usize = 1 << 15;

/// Arcs for which a run has room beyond those that its part can have.
const SPARE_ARCS: usize = 64;

/// Arcs whose lines come one after the other in a piece of a text, from one place to another.
#[derive(Debug, Drop)]
pub struct ArcRun {
    pub start: usize,
    pub after: usize,
    /// Vertices counted to this number as the run was read.
    pub vertices: u32,
    pub arcs: Vec<ArcRec>,
}

impl ArcRun {
    /// Makes a run of no arcs, of whatever piece.
    fn new(alloc: Global) -> ArcRun
        ensures { (bytes : List ℕ) → IsArcRun bytes result }
    {
        ArcRun {
            start: 0,
            after: 0,
            vertices: 0,
            arcs: Vec::new(alloc),
        }
    }

    /// Begins a run of no arcs, at a place of a piece.
    fn begin(&mut self, start: usize, vertices: u32)
        ensures start { self.new.start ≡ start }
        ensures vertices { self.new.vertices ≡ vertices }
        ensures arcs { self.new.arcs.items ≡ [] }
        ensures empty { (bytes : List ℕ) → start ≤ length bytes → IsArcRun bytes self.new }
    {
        self.start = start;
        self.after = start;
        self.vertices = vertices;
        self.arcs.clear();
    }

    /// Reads the run at the start of a part of a piece.
    fn read_part(&mut self, bytes: &[u8], vertices: u32, part: usize, parts: usize)
        ensures { IsArcRun bytes.now self.new }
    {
        let end = cut_at(bytes, part.saturating_add(1), parts);
        let start = cut_at(bytes, part, parts).min(end);
        self.begin(start, vertices);
        let room = ((end - start) / SHORTEST_ARC_BYTES).min(u32::MAX as usize);
        if has_room(&mut self.arcs, room) {
            self.after = read_run(&bytes[..end], start, vertices, room as u32, &mut self.arcs).1;
        }
    }
}

/// Makes room for this many arcs more, and tells if there is. It makes some beyond, since a list that grows by a little
/// takes twice the memory.
fn has_room(arcs: &mut Vec<ArcRec>, count: usize) -> bool
    ensures items { arcs.new.items ≡ arcs.old.items }
    ensures room { OnTrue result (vec_len arcs.new + count ≤ vec_capacity arcs.new) }
    ensures few { vec_capacity arcs.new ≤ max (vec_capacity arcs.old) (vec_len arcs.old + count + SPARE_ARCS) }
{
    count <= arcs.capacity() - arcs.len()
        || arcs.reserve_exact(count.saturating_add(SPARE_ARCS)).is_ok()
}

/// A piece of a text in parts, cut behind line feeds. Each part goes to the thread that asks first.
#[derive(Debug, Drop)]
pub struct Parts<'a> {
    /// The piece.
    pub bytes: &'a [u8],
    vertices: u32,
    count: usize,
    /// A thread reads at most as many, twice its share, so that the memory of runs is in proportion to the piece.
    most: usize,
    next: AtomicUsize,
}

impl<'a> Parts<'a> {
    /// Cuts a piece into all of its parts, for this many threads. Vertices count to this number.
    pub fn new(bytes: &'a [u8], vertices: u32, threads: usize) -> Parts<'a>
        ensures bytes { result.bytes.now ≡ bytes.now }
        ensures share { most_parts result ≤ 2 * (length bytes.now / PART_BYTES / max threads 1) + 1 }
    {
        let count = bytes.len() / PART_BYTES;
        let share = count / threads.max(1);
        Parts {
            bytes,
            vertices,
            count,
            most: share.saturating_mul(2).saturating_add(1),
            next: AtomicUsize::new(0),
        }
    }

    /// The number of a part that no thread has.
    fn take(&self) -> Option<usize> {
        let part = self.next.fetch_add(1, Ordering::Relaxed);
        (part < self.count).then_some(part)
    }
}

/// The runs of arcs that one thread has read ahead in a piece. Their memory is kept from piece to piece.
#[derive(Debug, Drop)]
pub struct ArcRuns {
    alloc: Global,
    runs: Vec<ArcRun>,
}

impl ArcRuns {
    /// Makes a value without runs.
    fn new(alloc: Global) -> ArcRuns
        ensures { (bytes : List ℕ) → AreRunsOf bytes result }
    {
        ArcRuns {
            alloc,
            runs: Vec::new(alloc),
        }
    }

    /// Forgets what was read ahead, of whatever piece.
    fn clear(&mut self)
        ensures runs { (bytes : List ℕ) → AreRunsOf bytes self.new }
        ensures count { run_count self.new ≡ run_count self.old }
    {
        empty_all(&mut self.runs);
    }

    /// Opens a run at a place that has none yet. Returns false if memory for it is refused.
    fn open(&mut self, place: usize) -> bool
        requires next { place ≤ run_count self.old }
        ensures runs { (bytes : List ℕ) → AreRunsOf bytes self.old → AreRunsOf bytes self.new }
        ensures there { OnTrue result (place < run_count self.new) }
        ensures few { run_count self.new ≤ max (run_count self.old) (place + 1) }
    {
        place < self.runs.len() || self.runs.push(ArcRun::new(self.alloc)).is_ok()
    }

    /// Reads parts of a piece ahead until all are given out, or twice this thread's share is read. A line that is no
    /// plain arc's ends its part, and refused memory ends all.
    pub fn read(&mut self, parts: &Parts)
        ensures runs { AreRunsOf parts.now.bytes.now self.new }
        ensures few { run_count self.new ≤ max (run_count self.old) (most_parts parts.now) }
    {
        self.clear();
        for place in 0..parts.most {
            let Some(part) = parts.take() else {
                return;
            };
            if !self.open(place) {
                return;
            }
            self.runs[place].read_part(parts.bytes, parts.vertices, part, parts.count);
        }
    }

    /// The run that begins first, of those that begin at a place or after it, and of one more.
    fn first_from<'a>(&'a self, from: usize, other: Option<&'a ArcRun>) -> Option<&'a ArcRun>
        ensures { (bytes : List ℕ) → AreRunsOf bytes self.now
            → IfSome other.entry (λ run. IsRunFrom bytes from run.now)
            → IfSome result (λ run. IsRunFrom bytes from run.now) }
    {
        let mut first = other;
        for run in &self.runs {
            if from <= run.start && !run.arcs.is_empty() {
                first = earlier(run, first);
            }
        }
        first
    }
}

/// The run that begins first.
fn earlier<'a>(run: &'a ArcRun, other: Option<&'a ArcRun>) -> Option<&'a ArcRun>
    ensures { (bytes : List ℕ) (from : ℕ) → IsRunFrom bytes from run.now
        → IfSome other.entry (λ run. IsRunFrom bytes from run.now)
        → IfSome result (λ run. IsRunFrom bytes from run.now) }
{
    match other {
        Some(other) if other.start <= run.start => Some(other),
        _ => Some(run),
    }
}

/// The arcs that threads have read ahead in a piece of a text: a hint for `JobReader::feed_with`. Each thread has a
/// list, and those of two threads, which have other work first, have names.
#[derive(Debug, Drop)]
pub struct ReadAhead {
    pub one: ArcRuns,
    pub another: ArcRuns,
    pub others: Vec<ArcRuns>,
    alloc: Global,
}

impl ReadAhead {
    /// Makes a value without arcs.
    pub fn new(alloc: Global) -> ReadAhead
        ensures { (bytes : List ℕ) → IsReadAhead bytes result }
    {
        ReadAhead {
            one: ArcRuns::new(alloc),
            another: ArcRuns::new(alloc),
            others: Vec::new(alloc),
            alloc,
        }
    }

    /// Forgets what was read ahead, of whatever piece.
    pub fn clear(&mut self)
        ensures { (bytes : List ℕ) → IsReadAhead bytes self.new }
    {
        self.one.clear();
        self.another.clear();
        clear_all(&mut self.others);
    }

    /// Makes lists for as many threads, or fewer if memory is refused.
    pub fn open(&mut self, threads: usize)
        ensures ahead { (bytes : List ℕ) → IsReadAhead bytes self.old → IsReadAhead bytes self.new }
        ensures few { length self.new.others.items ≤ max (length self.old.others.items) (threads - 2) }
    {
        while self.others.len() < threads.saturating_sub(2) {
            if self.others.push(ArcRuns::new(self.alloc)).is_err() {
                return;
            }
        }
    }

    /// The number of threads that have lists.
    pub fn threads(&self) -> usize {
        self.others.len() + 2
    }

    /// The run that begins first of those that begin at a place or after it.
    pub(crate) fn first_from(&self, from: usize) -> Option<&ArcRun>
        ensures { (bytes : List ℕ) → IsReadAhead bytes self.now
            → IfSome result (λ run. IsRunFrom bytes from run.now) }
    {
        let mut first = self
            .another
            .first_from(from, self.one.first_from(from, None));
        for list in &self.others {
            first = list.first_from(from, first);
        }
        first
    }
}

/// Has parts of a piece read ahead by a thread for each of these lists, until all are given out.
pub fn read_side_by_side<H: Threads + Sync>(rt: &H, lists: &mut [ArcRuns], parts: &Parts)
    ensures { All (AreRunsOf parts.now.bytes.now) lists.new }
{
    let threads = lists.len().max(1);
    for_each_mut(
        rt,
        lists,
        threads,
        &|_, list: &mut ArcRuns|
            ensures { AreRunsOf parts.entry.now.bytes.now list.exit.now }
        { list.read(parts) },
    );
}

/// Takes the arcs out of each run.
fn empty_all(runs: &mut [ArcRun])
    ensures { (bytes : List ℕ) → All (IsArcRun bytes) runs.new }
{
    for run in runs.iter_mut() {
        run.begin(0, 0);
    }
}

/// Takes the arcs out of each run of each list.
fn clear_all(lists: &mut [ArcRuns])
    ensures { (bytes : List ℕ) → All (AreRunsOf bytes) lists.new }
{
    for list in lists.iter_mut() {
        list.clear();
    }
}

/// The place where a part of a piece begins: after its first line feed, since the bytes before may end a line. The part
/// after the last would begin where the last line ends.
fn cut_at(bytes: &[u8], part: usize, parts: usize) -> usize
    ensures place { result ≤ length bytes.now }
    ensures ended { EndsWithFeed (take result bytes.now) }
{
    let end = after_last_feed(bytes);
    let near = (end / parts.max(1)).saturating_mul(part);
    if part >= parts || near >= end {
        end
    } else {
        line_end(&bytes[..end], near) + 1
    }
}
