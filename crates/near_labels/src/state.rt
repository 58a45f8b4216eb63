//! Labels and marks, and the vertices that a search has reached.

ghost use Rattle.std.specs.Prelude.{◌≡◌, ◌<◌, ◌≤◌, ◌+◌, true, false, [], ◌∷◌, All, Contains, length, min, slice_index, slice_set, IfOk};
ghost use Rattle.route_walks.specs.declared.graph.TheConstants.{INF};
ghost use Rattle.route_walks.specs.Operators.{seeds_from};
ghost use Rattle.std.specs.List.Sorted.{IsNonDecreasing};
ghost use Rattle.relax_core.specs.State.{mark_of};
ghost use Rattle.csr_graph.specs.Bounds.{ArePast};
ghost use Rattle.label_words.specs.Paused.{IsPause, AreMarkedFar, AreUnmarkedBelow};
ghost use Rattle.near_labels.specs.Noted.{AreDropped, AreNoted, IsBlank, rest_of};
ghost use Rattle.near_labels.specs.Meeting.{AreMarkedFarByLabels, IsLeastMeeting};

use crate::guide::{Guide, Waiting};
use crate::side::TargetSide;
use csr_graph::{Bounds, Csr, Target};
use route_walks::{INF, Memory, offer};
use std::alloc::Global;
use std::cmp::Reverse;
use std::collections::BinaryHeap;

/// Labels and marks, the vertices that aren't blank, and those that wait. The order in which they come is a hint.
#[derive(Drop)]
pub(crate) struct State {
    pub labels: Vec<u64>,
    pub marks: Vec<bool>,
    pub noted: Vec<u32>,
    pub queue: BinaryHeap<Reverse<Waiting>>,
    /// The visits, and arcs relaxed, before a search gives up.
    pub visits: u32,
    pub arcs: usize,
    /// The visits, and arcs relaxed, of the last search.
    pub made: u32,
    pub relaxed: usize,
    pub reached: usize,
    /// The least sum of a fallen label and the other side's label. A hint.
    pub met: u64,
}

impl State {
    pub(crate) fn new(alloc: Global, n: u32) -> Result<State, Memory>
        ensures count { IfOk result (λ state. length state.labels.items ≡ n) }
        ensures blank { IfOk result (λ state. IsBlank state.labels.items state.marks.items) }
        ensures noted { IfOk result (λ state. state.noted.items ≡ []) }
    {
        let labels = vec![in alloc; INF; n as usize]?;
        let marks = vec![in alloc; false; n as usize]?;
        Ok(State {
            labels,
            marks,
            noted: Vec::new(alloc),
            queue: BinaryHeap::new(alloc),
            visits: 0,
            arcs: 0,
            made: 0,
            relaxed: 0,
            reached: 0,
            met: INF,
        })
    }

    /// Notes `v`, if it is blank. Returns false if memory is refused.
    #[inline(always)]
    fn note(&mut self, v: u32) -> bool
        requires noted { AreNoted self.old.labels.items self.old.marks.items self.old.noted.items }
        requires vertex { v < length self.old.labels.items }
        ensures labels { self.new.labels ≡ self.old.labels }
        ensures marks { self.new.marks ≡ self.old.marks }
        ensures noted { AreNoted self.new.labels.items self.new.marks.items self.new.noted.items }
        ensures within { result ≡ true → Contains self.new.noted.items v }
    {
        if self.labels[v as usize] == INF {
            match self.noted.push(v) {
                Ok(()) => true,
                Err(_) => false,
            }
        } else {
            true
        }
    }

    /// Notes the sum of a label of `v` and the other side's, if there is another side.
    #[inline(always)]
    fn meet(&mut self, v: u32, label: u64, guide: Guide<'_>)
        ensures labels { self.new.labels ≡ self.old.labels }
        ensures marks { self.new.marks ≡ self.old.marks }
        ensures noted { self.new.noted ≡ self.old.noted }
    {
        if let Guide::OtherEnd(other) = guide
            && let Some(back) = other.get(v as usize)
        {
            self.met = label.saturating_add(*back).min(self.met);
        }
    }

    /// Lowers the label of `v`, marks it, and lets it wait, unless its sum is `INF`. Returns false if memory is
    /// refused.
    #[inline(always)]
    pub(crate) fn lower(&mut self, v: u32, label: u64, guide: Guide<'_>) -> bool
        requires noted { AreNoted self.old.labels.items self.old.marks.items self.old.noted.items }
        requires vertex { v < length self.old.labels.items }
        ensures labels { result ≡ true → self.new.labels.items ≡ slice_set self.old.labels.items v label }
        ensures marks { result ≡ true → self.new.marks.items ≡ slice_set self.old.marks.items v true }
        ensures kept_labels { result ≡ false → self.new.labels.items ≡ self.old.labels.items }
        ensures kept_marks { result ≡ false → self.new.marks.items ≡ self.old.marks.items }
        ensures noted { AreNoted self.new.labels.items self.new.marks.items self.new.noted.items }
    {
        self.meet(v, label, guide);
        let waiting = guide.waiting(v, label);
        if !self.note(v) {
            return false;
        }
        if !let_wait(&mut self.queue, waiting) {
            return false;
        }
        let place = v as usize;
        self.labels[place] = label;
        self.marks[place] = true;
        true
    }

    /// Sets the label of `v`, and lets nothing wait. Returns false if memory is refused.
    #[inline(always)]
    pub(crate) fn put(&mut self, v: u32, label: u64) -> bool
        requires noted { AreNoted self.old.labels.items self.old.marks.items self.old.noted.items }
        requires vertex { v < length self.old.labels.items }
        ensures labels { result ≡ true → self.new.labels.items ≡ slice_set self.old.labels.items v label }
        ensures kept_labels { result ≡ false → self.new.labels.items ≡ self.old.labels.items }
        ensures noted { AreNoted self.new.labels.items self.new.marks.items self.new.noted.items }
    {
        if !self.note(v) {
            return false;
        }
        self.labels[v as usize] = label;
        true
    }

    /// Relaxes the arcs that leave `u`. Returns false if memory is refused.
    pub(crate) fn visit(&mut self, csr: &Csr, source: u32, u: u32, guide: Guide<'_>) -> bool
        requires noted { AreNoted self.old.labels.items self.old.marks.items self.old.noted.items }
        requires pause { IsPause csr.now (seeds_from source) (rest_of self.old.labels.items self.old.marks.items) }
        requires vertex { u < csr.now.n }
        ensures noted { AreNoted self.new.labels.items self.new.marks.items self.new.noted.items }
        ensures pause { result ≡ true →
            IsPause csr.now (seeds_from source) (rest_of self.new.labels.items self.new.marks.items) }
        ensures count { length self.new.labels.items ≡ length self.old.labels.items }
    {
        // The source is for the contract alone.
        let _ = source;
        let place = u as usize;
        let d = self.labels[place];
        let row = csr.row(u);
        self.made = self.made.saturating_add(1);
        self.relaxed = self.relaxed.saturating_add(row.len());
        for &Target { head, weight } in row {
            let label = offer(d, weight);
            if label < self.labels[head as usize] && !self.lower(head, label, guide) {
                return false;
            }
        }
        self.marks[place] = false;
        true
    }

    /// Tells if no vertex with a label below the limit is marked, by the noted vertices.
    pub(crate) fn is_unmarked_below(&self, limit: u64) -> bool
        requires { AreNoted self.now.labels.items self.now.marks.items self.now.noted.items }
        ensures { result ≡ true → AreUnmarkedBelow limit (rest_of self.now.labels.items self.now.marks.items) }
    {
        for v in &self.noted {
            let place = *v as usize;
            if self.marks[place] && self.labels[place] < limit {
                return false;
            }
        }
        true
    }

    /// Tells if each marked vertex is so far from the targets of these bounds that each walk there costs at least the
    /// limit, by the noted vertices.
    pub(crate) fn is_marked_far(&self, bounds: &Bounds<'_>, limit: u64) -> bool
        requires { AreNoted self.now.labels.items self.now.marks.items self.now.noted.items }
        ensures { result ≡ true → AreMarkedFar limit bounds.now (rest_of self.now.labels.items self.now.marks.items) }
    {
        for v in &self.noted {
            if !self.is_far(*v, bounds, limit) {
                return false;
            }
        }
        true
    }

    /// Tells if a vertex isn't marked, or is so far.
    fn is_far(&self, v: u32, bounds: &Bounds<'_>, limit: u64) -> bool
        requires count { length self.now.marks.items ≡ length self.now.labels.items }
        requires vertex { v < length self.now.labels.items }
        ensures { result ≡ true → mark_of self.now.marks.items v ≡ true →
            ArePast limit bounds.now v (slice_index self.now.labels.items v) }
    {
        let place = v as usize;
        !self.marks[place] || bounds.is_past(v, self.labels[place], limit)
    }

    /// Drops the label of each vertex but one that is past the limit by a search from the target, by the noted vertices.
    /// Marks stay. Returns false if some marked vertex isn't past it; then some labels may be dropped already.
    pub(crate) fn drop_past(&mut self, but: u32, side: &TargetSide<'_>, limit: u64) -> bool
        requires { AreNoted self.old.labels.items self.old.marks.items self.old.noted.items }
        ensures count { length self.new.labels.items ≡ length self.old.labels.items }
        ensures noted { AreNoted self.new.labels.items self.new.marks.items self.new.noted.items }
        ensures dropped { AreDropped but limit side.now.low side.now.labels.now self.old.labels.items self.new.labels.items }
        ensures far { result ≡ true → AreMarkedFarByLabels limit side.now.low side.now.labels.now
            (rest_of self.old.labels.items self.old.marks.items) }
    {
        for place in 0..self.noted.len() {
            let v = self.noted[place];
            if !self.drop_if_past(v, but, side, limit) {
                return false;
            }
        }
        true
    }

    /// Drops the label of a noted vertex, if it is past the limit and another one than `but`. Returns false if it is
    /// marked and not past the limit.
    fn drop_if_past(&mut self, v: u32, but: u32, side: &TargetSide<'_>, limit: u64) -> bool
        requires noted { AreNoted self.old.labels.items self.old.marks.items self.old.noted.items }
        requires within { Contains self.old.noted.items v }
        ensures labels { AreDropped but limit side.now.low side.now.labels.now self.old.labels.items self.new.labels.items }
        ensures count { length self.new.labels.items ≡ length self.old.labels.items }
        ensures marks { self.new.marks ≡ self.old.marks }
        ensures list { self.new.noted ≡ self.old.noted }
        ensures noted { AreNoted self.new.labels.items self.new.marks.items self.new.noted.items }
        ensures far { result ≡ true → mark_of self.old.marks.items v ≡ true →
            limit ≤ slice_index self.old.labels.items v + min (slice_index side.now.labels.now v) side.now.low }
    {
        let place = v as usize;
        if !side.is_past(v, self.labels[place], limit) {
            return !self.marks[place];
        }
        if v == but {
            return true;
        }
        self.labels[place] = INF;
        true
    }

    /// Lets the marked vertices wait anew, by the noted ones, in the order of another guide. Returns false if memory is
    /// refused.
    pub(crate) fn wait_anew(&mut self, guide: Guide<'_>) -> bool
        requires { AreNoted self.old.labels.items self.old.marks.items self.old.noted.items }
        ensures labels { self.new.labels ≡ self.old.labels }
        ensures marks { self.new.marks ≡ self.old.marks }
        ensures noted { self.new.noted ≡ self.old.noted }
    {
        self.queue.clear();
        for place in 0..self.noted.len() {
            let v = self.noted[place];
            if !self.wait_if_marked(v, guide) {
                return false;
            }
        }
        true
    }

    /// Lets a vertex wait, if it is marked. Returns false if memory is refused.
    fn wait_if_marked(&mut self, v: u32, guide: Guide<'_>) -> bool
        requires count { length self.old.marks.items ≡ length self.old.labels.items }
        requires vertex { v < length self.old.labels.items }
        ensures labels { self.new.labels ≡ self.old.labels }
        ensures marks { self.new.marks ≡ self.old.marks }
        ensures noted { self.new.noted ≡ self.old.noted }
    {
        let place = v as usize;
        if !self.marks[place] {
            return true;
        }
        let_wait(&mut self.queue, guide.waiting(v, self.labels[place]))
    }

    /// Visits the next vertex that waits, if one does. Returns false if memory is refused.
    pub(crate) fn step(&mut self, csr: &Csr, source: u32, guide: Guide<'_>) -> bool
        requires noted { AreNoted self.old.labels.items self.old.marks.items self.old.noted.items }
        requires pause { IsPause csr.now (seeds_from source) (rest_of self.old.labels.items self.old.marks.items) }
        ensures noted { AreNoted self.new.labels.items self.new.marks.items self.new.noted.items }
        ensures pause { result ≡ true →
            IsPause csr.now (seeds_from source) (rest_of self.new.labels.items self.new.marks.items) }
        ensures count { length self.new.labels.items ≡ length self.old.labels.items }
    {
        let Some(Reverse(next)) = self.queue.pop() else {
            return true;
        };
        let u = next.vertex;
        if u < csr.n() && self.marks[u as usize] {
            self.visit(csr, source, u, guide)
        } else {
            true
        }
    }

    /// The lowest label that waits, or a lower one; `INF` if none does. A hint.
    pub(crate) fn next_label(&self) -> u64 {
        match self.queue.peek() {
            Some(Reverse(next)) => next.sum,
            None => INF,
        }
    }

    /// The lowest label of a marked vertex, or `INF`, by the noted vertices.
    pub(crate) fn lowest_marked(&self) -> u64
        requires { AreNoted self.now.labels.items self.now.marks.items self.now.noted.items }
        ensures { AreUnmarkedBelow result (rest_of self.now.labels.items self.now.marks.items) }
    {
        let mut lowest = INF;
        for v in &self.noted {
            let place = *v as usize;
            if self.marks[place] {
                lowest = self.labels[place].min(lowest);
            }
        }
        lowest
    }

    /// The least sum of a vertex's two labels, or `INF`, by the noted vertices.
    pub(crate) fn least_meeting(&self, other: &[u64]) -> u64
        requires noted { AreNoted self.now.labels.items self.now.marks.items self.now.noted.items }
        requires count { length other.now ≡ length self.now.labels.items }
        ensures { IsLeastMeeting (length self.now.labels.items) (slice_index self.now.labels.items) (slice_index other.now) result }
    {
        let mut least = INF;
        for v in &self.noted {
            let place = *v as usize;
            least = self.labels[place].saturating_add(other[place]).min(least);
        }
        least
    }

    /// Sorts the noted vertices. Returns false if memory is refused.
    pub(crate) fn sort_noted(&mut self) -> bool
        requires { AreNoted self.old.labels.items self.old.marks.items self.old.noted.items }
        ensures labels { self.new.labels ≡ self.old.labels }
        ensures marks { self.new.marks ≡ self.old.marks }
        ensures noted { AreNoted self.new.labels.items self.new.marks.items self.new.noted.items }
        ensures rising { result ≡ true → IsNonDecreasing self.new.noted.items }
    {
        match self.noted.sort() {
            Ok(()) => true,
            Err(_) => false,
        }
    }

    pub(crate) fn wipe(&mut self)
        requires { AreNoted self.old.labels.items self.old.marks.items self.old.noted.items }
        ensures count { length self.new.labels.items ≡ length self.old.labels.items }
        ensures blank { IsBlank self.new.labels.items self.new.marks.items }
        ensures noted { self.new.noted.items ≡ [] }
    {
        self.queue.clear();
        self.met = INF;
        self.relaxed = 0;
        self.reached = self.noted.len();
        while let Some(v) = self.noted.pop() {
            let place = v as usize;
            self.labels[place] = INF;
            self.marks[place] = false;
        }
    }
}

/// Lets a vertex wait, unless its sum is `INF`. Returns false if memory is refused.
#[inline(always)]
fn let_wait(queue: &mut BinaryHeap<Reverse<Waiting>>, waiting: Waiting) -> bool {
    if waiting.sum == INF {
        return true;
    }
    match queue.push(Reverse(waiting)) {
        Ok(()) => true,
        Err(_) => false,
    }
}
