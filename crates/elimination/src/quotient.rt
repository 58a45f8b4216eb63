//! A graph from which vertices are eliminated, in the memory that it takes at first.
//!
//! As the quotient graph in Amestoy, Davis and Duff, An Approximate Minimum Degree Ordering Algorithm (1996), but each vertex is
//! kept by itself.

use crate::rows::NumberRows;
use csr_graph::{Csr, Target};
use route_walks::Memory;
use std::alloc::Global;

/// No element.
const NONE: u32 = u32::MAX;

/// The entries of a vertex: its elements, and behind them its neighbours.
#[derive(Clone, Copy, Debug)]
struct Span {
    first: usize,
    elements: u32,
    neighbours: u32,
}

/// An element in a step: members that are not yet found among those of the step's own.
#[derive(Clone, Copy, Debug)]
struct Outside {
    step: u32,
    count: u32,
}

/// The vertices that are left. Two are joined if they are neighbours, or members of an element.
///
/// An element stands for an eliminated vertex, and has the number of the step. Its members stay the same until another takes
/// them over, and are all left until then.
#[derive(Drop)]
pub(crate) struct QuotientGraph {
    spans: Vec<Span>,
    entries: Vec<u32>,
    members: NumberRows,
    /// By vertex, the last step that met it.
    seen: Vec<u32>,
    outside: Vec<Outside>,
    /// The entries of a vertex as they will be.
    fresh: Vec<u32>,
    /// The entries and members that were looked at.
    pub steps: usize,
}

impl QuotientGraph {
    /// The graph in which arcs join both ways.
    pub(crate) fn new(alloc: Global, csr: &Csr) -> Result<QuotientGraph, Memory> {
        let n = csr.n();
        let reversed = csr.reversed(alloc)?;
        let mut graph = QuotientGraph {
            spans: Vec::with_capacity(alloc, n as usize)?,
            entries: Vec::new(alloc),
            members: NumberRows::new(alloc)?,
            seen: vec![in alloc; NONE; n as usize]?,
            outside: Vec::with_capacity(alloc, n as usize)?,
            fresh: Vec::new(alloc),
            steps: 0,
        };
        for v in 0..n {
            graph.add_vertex(v, csr.row(v), reversed.row(v))?;
        }
        graph.seen.fill(NONE);
        Ok(graph)
    }

    /// Adds the next vertex, with the other ends of its arcs.
    fn add_vertex(&mut self, v: u32, out: &[Target], into: &[Target]) -> Result<(), Memory> {
        let first = self.entries.len();
        set_seen(&mut self.seen, v, v);
        self.add_ends(v, out)?;
        self.add_ends(v, into)?;
        self.spans.push(Span {
            first,
            elements: 0,
            neighbours: count_of(self.entries.len().saturating_sub(first)),
        })?;
        self.outside.push(Outside {
            step: NONE,
            count: 0,
        })?;
        Ok(())
    }

    fn add_ends(&mut self, v: u32, row: &[Target]) -> Result<(), Memory> {
        for target in row {
            if set_seen(&mut self.seen, target.head, v) {
                self.entries.push(target.head)?;
            }
        }
        Ok(())
    }

    /// The neighbours that a vertex has at first.
    pub(crate) fn degree(&self, v: u32) -> u32 {
        self.span(v).neighbours
    }

    /// The members of the element of a step.
    pub(crate) fn members(&self) -> &NumberRows {
        &self.members
    }

    /// The members of the elements of all steps.
    pub(crate) fn into_members(self) -> NumberRows {
        self.members
    }

    /// Eliminates a vertex in the next step: the vertices that are joined to it become the members of its element.
    pub(crate) fn eliminate(&mut self, v: u32, step: u32) -> Result<(), Memory> {
        set_seen(&mut self.seen, v, step);
        let span = self.span(v);
        self.take_neighbours(span, step)?;
        self.take_elements(span, step)?;
        self.members.end_row()?;
        self.count_outside(step);
        Ok(())
    }

    /// Makes the neighbours of an eliminated vertex members.
    fn take_neighbours(&mut self, span: Span, step: u32) -> Result<(), Memory> {
        let neighbours = list_at(&self.entries, neighbours_of(span));
        self.steps = self.steps.saturating_add(neighbours.len());
        for w in neighbours {
            add_member(&mut self.members, &mut self.seen, *w, step)?;
        }
        Ok(())
    }

    /// Takes over the members of the elements of an eliminated vertex.
    fn take_elements(&mut self, span: Span, step: u32) -> Result<(), Memory> {
        for element in list_at(&self.entries, elements_of(span)) {
            let (first, end) = (self.members.first(*element), self.members.end(*element));
            self.steps = self.steps.saturating_add(end.saturating_sub(first));
            add_members(&mut self.members, &mut self.seen, (first, end), step)?;
            if let Some(outside) = self.outside.get_mut(*element as usize) {
                *outside = Outside { step, count: 0 };
            }
        }
        Ok(())
    }

    /// Counts the members of other elements that are not members of this step's.
    fn count_outside(&mut self, step: u32) {
        for v in self.members.row(step) {
            let elements = list_at(&self.entries, elements_of(span_at(&self.spans, *v)));
            self.steps = self.steps.saturating_add(elements.len());
            count_down(&mut self.outside, &self.members, elements, step);
        }
    }

    /// Renews the entries of a member of this step's element, which stands for all that lie within. Returns how many vertices
    /// besides the members are joined to it at most.
    pub(crate) fn renew(&mut self, v: u32, step: u32) -> Result<usize, Memory> {
        let span = self.span(v);
        self.count(span);
        self.fresh.clear();
        let elements = list_at(&self.entries, elements_of(span));
        let beyond = keep_elements(&mut self.fresh, &self.outside, elements)?;
        // Alone in an element a vertex is joined to none.
        if self.members.row(step).len() > 1 {
            self.fresh.push(step)?;
        }
        let elements = self.fresh.len();
        let neighbours = list_at(&self.entries, neighbours_of(span));
        keep_neighbours(&mut self.fresh, &self.seen, neighbours, step)?;
        let neighbours = self.fresh.len().saturating_sub(elements);
        put_at(&mut self.entries, span.first, &self.fresh);
        if let Some(place) = self.spans.get_mut(v as usize) {
            *place = Span {
                first: span.first,
                elements: count_of(elements),
                neighbours: count_of(neighbours),
            };
        }
        Ok(beyond.saturating_add(neighbours))
    }

    /// Counts the entries of a vertex.
    fn count(&mut self, span: Span) {
        let entries = u64::from(span.elements) + u64::from(span.neighbours);
        self.steps = self.steps.saturating_add(entries as usize);
    }

    fn span(&self, v: u32) -> Span {
        span_at(&self.spans, v)
    }
}

fn span_at(spans: &[Span], v: u32) -> Span {
    match spans.get(v as usize) {
        Some(span) => *span,
        None => Span {
            first: 0,
            elements: 0,
            neighbours: 0,
        },
    }
}

/// A length of a list, none of which has 2^32 entries.
fn count_of(length: usize) -> u32 {
    length.min(u32::MAX as usize) as u32
}

/// The indices at which elements begin and end.
fn elements_of(span: Span) -> (usize, usize) {
    (
        span.first,
        span.first.saturating_add(span.elements as usize),
    )
}

/// The indices at which neighbours begin and end.
fn neighbours_of(span: Span) -> (usize, usize) {
    let first = span.first.saturating_add(span.elements as usize);
    (first, first.saturating_add(span.neighbours as usize))
}

fn list_at(entries: &[u32], (first, end): (usize, usize)) -> &[u32] {
    if first > end || end > entries.len() {
        return &[];
    }
    &entries[first..end]
}

/// Puts these entries in place of others, from an index on.
fn put_at(entries: &mut [u32], first: usize, fresh: &[u32]) {
    let mut index = first;
    for entry in fresh {
        if let Some(place) = entries.get_mut(index) {
            *place = *entry;
        }
        index = index.saturating_add(1);
    }
}

/// Notes that a step met a vertex. Returns true if it is the first time.
fn set_seen(seen: &mut [u32], v: u32, step: u32) -> bool {
    match seen.get_mut(v as usize) {
        Some(last) => {
            let first = *last != step;
            *last = step;
            first
        }
        None => false,
    }
}

fn add_member(members: &mut NumberRows, seen: &mut [u32], v: u32, step: u32) -> Result<(), Memory> {
    if set_seen(seen, v, step) {
        members.push(v)?;
    }
    Ok(())
}

/// Adds those of another element, which stand between these indices.
fn add_members(
    members: &mut NumberRows,
    seen: &mut [u32],
    (first, end): (usize, usize),
    step: u32,
) -> Result<(), Memory> {
    for index in first..end {
        if let Some(v) = members.number(index) {
            add_member(members, seen, v, step)?;
        }
    }
    Ok(())
}

/// Notes of each of these elements that one more member is one of this step's.
fn count_down(outside: &mut [Outside], members: &NumberRows, elements: &[u32], step: u32) {
    for element in elements {
        if let Some(outside) = outside.get_mut(*element as usize) {
            if outside.step != step {
                let count = count_of(members.row(*element).len());
                *outside = Outside { step, count };
            }
            outside.count = outside.count.saturating_sub(1);
        }
    }
}

/// Keeps the elements with members outside, and returns their number.
fn keep_elements(
    fresh: &mut Vec<u32>,
    outside: &[Outside],
    elements: &[u32],
) -> Result<usize, Memory> {
    let mut beyond = 0_usize;
    for element in elements {
        if let Some(outside) = outside.get(*element as usize)
            && outside.count > 0
        {
            beyond = beyond.saturating_add(outside.count as usize);
            fresh.push(*element)?;
        }
    }
    Ok(beyond)
}

/// Keeps the neighbours that are not joined by the element.
fn keep_neighbours(
    fresh: &mut Vec<u32>,
    seen: &[u32],
    neighbours: &[u32],
    step: u32,
) -> Result<(), Memory> {
    for w in neighbours {
        if seen.get(*w as usize) != Some(&step) {
            fresh.push(*w)?;
        }
    }
    Ok(())
}
