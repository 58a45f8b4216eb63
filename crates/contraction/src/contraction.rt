//! Contracts the vertices of a graph one after another, the least important first.
//!
//! As in Geisberger, Sanders, Schultes and Delling, Contraction Hierarchies (2008), by edge difference and level. What it makes
//! is checked, so no contract says anything of it.

use crate::edges::{Edge, EdgeRows};
use crate::parts::HierarchyParts;
use crate::placing::parts_of;
use crate::witness::{Detour, WitnessSearch};
use csr_graph::{Csr, Target};
use route_walks::Memory;
use std::alloc::Global;
use std::cmp::Reverse;
use std::collections::BinaryHeap;

/// The place of a vertex that is left.
const NONE: u32 = u32::MAX;

/// The turns that a vertex may have, in the mean.
const TURNS_A_VERTEX: usize = 64;

/// The shortcuts that may be added for each arc of the graph.
const SHORTCUTS_AN_ARC: usize = 6;

/// The shortcuts that are allowed whatever the graph is.
const ANYWAY: usize = 1 << 10;

/// The most ways over a vertex that are looked at.
const WAYS: usize = 1 << 20;

/// An edge that is to be added when a vertex is contracted.
#[derive(Clone, Copy, Debug, PartialEq, Eq, PartialOrd, Ord)]
struct Shortcut {
    onto: u32,
    from: u32,
    weight: u64,
}

/// The edges among the vertices that are left, and what is known of each vertex.
#[derive(Drop)]
struct Contraction {
    out: EdgeRows,
    into: EdgeRows,
    places: Vec<u32>,
    levels: Vec<u32>,
    shortcuts: Vec<Shortcut>,
    search: WitnessSearch,
    /// The vertices that are left, by the importance that they had.
    queue: BinaryHeap<Reverse<(u64, u32)>>,
    next: u32,
    /// The shortcuts that were added.
    added: usize,
    /// The edges that may be looked at.
    most_steps: usize,
}

/// Contracts all vertices of a graph, and returns the parts of a hierarchy. Returns `None` if that takes a look at more than
/// `most_steps` edges; if the graph grows too dense, which road networks don't; or if a shortcut weighs 2^32 or more. Takes some
/// 300 bytes a vertex for a while.
pub fn contracted(
    alloc: Global,
    csr: &Csr,
    most_steps: usize,
) -> Result<Option<HierarchyParts>, Memory> {
    let mut contraction = Contraction::new(alloc, csr, most_steps)?;
    contraction.run(csr)?;
    if contraction.next != csr.n() {
        return Ok(None);
    }
    let Contraction {
        out,
        into,
        places,
        ..
    } = contraction;
    parts_of(alloc, &out, &into, places)
}

impl Contraction {
    fn new(alloc: Global, csr: &Csr, most_steps: usize) -> Result<Contraction, Memory> {
        let n = csr.n();
        let mut out = EdgeRows::new(alloc, n)?;
        let mut into = EdgeRows::new(alloc, n)?;
        for u in 0..n {
            put_row(&mut out, u, csr.row(u), n)?;
            put_ends(&mut into, u, out.row(u))?;
        }
        Ok(Contraction {
            out,
            into,
            places: vec![in alloc; NONE; n as usize]?,
            levels: vec![in alloc; 0_u32; n as usize]?,
            shortcuts: Vec::new(alloc),
            search: WitnessSearch::new(alloc, n)?,
            queue: BinaryHeap::new(alloc),
            next: 0,
            added: 0,
            most_steps,
        })
    }

    /// Contracts vertices until none is left, or it takes too long.
    fn run(&mut self, csr: &Csr) -> Result<(), Memory> {
        self.begin(csr.n())?;
        let turns = (csr.n() as usize).saturating_mul(TURNS_A_VERTEX);
        for _ in 0..turns {
            let Some(Reverse((_, v))) = self.queue.pop() else {
                return Ok(());
            };
            if self.is_too_dense(csr.n(), csr.arc_count()) {
                return Ok(());
            }
            self.turn(v)?;
        }
        Ok(())
    }

    /// Lets each vertex wait by its importance as it seems without a search. It is looked at again in its turn.
    fn begin(&mut self, n: u32) -> Result<(), Memory> {
        for v in 0..n {
            let priority = self.guess(v);
            self.queue.push(Reverse((priority, v)))?;
        }
        Ok(())
    }

    /// The importance of a vertex if each way over it needs a shortcut.
    fn guess(&self, v: u32) -> u64 {
        let (out, into) = (self.out.row(v).len(), self.into.row(v).len());
        let degree = out.saturating_add(into).max(1) as u64;
        let ways = out.saturating_mul(into) as u64;
        ways.saturating_mul(2000) / degree
    }

    /// Tells if contraction takes too long, or leaves too many edges among the vertices that are left.
    fn is_too_dense(&self, n: u32, arcs: usize) -> bool {
        let steps = self.out.steps.saturating_add(self.into.steps);
        let steps = steps.saturating_add(self.search.steps);
        let allowed = arcs.saturating_add(ANYWAY);
        let early = u64::from(self.next) < u64::from(n) / 5 * 4;
        steps > self.most_steps
            || self.added > allowed.saturating_mul(SHORTCUTS_AN_ARC)
            || (early && self.added > allowed)
    }

    /// Contracts a vertex, unless others are less important by then.
    fn turn(&mut self, v: u32) -> Result<(), Memory> {
        let priority = self.priority(v)?;
        if let Some(Reverse((next, _))) = self.queue.peek()
            && priority > *next
        {
            self.queue.push(Reverse((priority, v)))?;
            return Ok(());
        }
        if priority == u64::MAX {
            return Ok(());
        }
        if let Some(place) = self.places.get_mut(v as usize) {
            *place = self.next;
            self.next = self.next.saturating_add(1);
        }
        self.take_out(v);
        self.add_shortcuts(v)
    }

    /// The importance of a vertex, by the shortcuts for each edge that goes, and by its level; `u64::MAX` if there are too many
    /// ways over it.
    fn priority(&mut self, v: u32) -> Result<u64, Memory> {
        let (out, into) = (self.out.row(v).len(), self.into.row(v).len());
        if out.saturating_mul(into) > WAYS {
            return Ok(u64::MAX);
        }
        self.find_shortcuts(v)?;
        let degree = out.saturating_add(into).max(1) as u64;
        let added = (self.shortcuts.len() as u64).saturating_mul(2000);
        let level = u64::from(level_of(&self.levels, v)).saturating_mul(1000);
        Ok((added / degree).saturating_add(level))
    }

    /// Finds the edges that are to be added when a vertex goes.
    fn find_shortcuts(&mut self, v: u32) -> Result<(), Memory> {
        self.shortcuts.clear();
        let out = self.out.row(v);
        for from in self.into.row(v) {
            if let Some(most) = most_over(out, *from) {
                let detour = Detour { without: v, most };
                self.search.run(&self.out, from.end, detour)?;
                self.search.steps = self.search.steps.saturating_add(out.len());
                put_shortcuts(out, *from, &self.search, &mut self.shortcuts)?;
                self.search.wipe();
            }
        }
        Ok(())
    }

    /// Takes a vertex out of the rows of its neighbours.
    fn take_out(&mut self, v: u32) {
        let level = level_of(&self.levels, v).saturating_add(1);
        for edge in self.out.row(v) {
            self.into.remove(edge.end, v);
            raise(&mut self.levels, edge.end, level);
        }
        for edge in self.into.row(v) {
            self.out.remove(edge.end, v);
            raise(&mut self.levels, edge.end, level);
        }
    }

    /// Adds the shortcuts over a vertex, which come by the vertex that they leave.
    fn add_shortcuts(&mut self, v: u32) -> Result<(), Memory> {
        let mut noted = NONE;
        for &Shortcut { onto, from, weight } in &self.shortcuts {
            if from != noted {
                self.out.note(from);
                noted = from;
            }
            let edge = Edge {
                end: onto,
                weight,
                origin: v,
            };
            if self.out.put(from, edge)? {
                self.added = self.added.saturating_add(1);
            }
        }
        self.shortcuts.sort()?;
        self.add_back(v)
    }

    /// Adds the shortcuts over a vertex at their other ends, by which they are sorted.
    fn add_back(&mut self, v: u32) -> Result<(), Memory> {
        let mut noted = NONE;
        for &Shortcut { onto, from, weight } in &self.shortcuts {
            if onto != noted {
                self.into.note(onto);
                noted = onto;
            }
            let edge = Edge {
                end: from,
                weight,
                origin: v,
            };
            self.into.put(onto, edge)?;
        }
        Ok(())
    }
}

/// Puts a row of the graph, without loops, and of arcs side by side the cheapest.
fn put_row(out: &mut EdgeRows, u: u32, row: &[Target], n: u32) -> Result<(), Memory> {
    let mut origin = n;
    for &Target { head, weight } in row {
        let edge = Edge {
            end: head,
            weight: u64::from(weight),
            origin,
        };
        if head != u {
            out.put(u, edge)?;
        }
        origin = origin.saturating_add(1);
    }
    Ok(())
}

/// Puts the edges of a row at their other ends.
fn put_ends(into: &mut EdgeRows, u: u32, row: &[Edge]) -> Result<(), Memory> {
    for &Edge {
        end,
        weight,
        origin,
    } in row {
        into.push(
            end,
            Edge {
                end: u,
                weight,
                origin,
            },
        )?;
    }
    Ok(())
}

/// The most that a way over these edges costs to a vertex other than that of `from`, if there is one.
fn most_over(out: &[Edge], from: Edge) -> Option<u64> {
    let mut most = None;
    for edge in out {
        if edge.end != from.end {
            let cost = from.weight.saturating_add(edge.weight);
            most = Some(cost.max(most.unwrap_or(0)));
        }
    }
    most
}

/// Adds a shortcut for each way to which no walk was found that costs no more.
fn put_shortcuts(
    out: &[Edge],
    from: Edge,
    search: &WitnessSearch,
    shortcuts: &mut Vec<Shortcut>,
) -> Result<(), Memory> {
    for edge in out {
        let weight = from.weight.saturating_add(edge.weight);
        if edge.end != from.end && search.label(edge.end) > weight {
            shortcuts.push(Shortcut {
                onto: edge.end,
                from: from.end,
                weight,
            })?;
        }
    }
    Ok(())
}

fn level_of(levels: &[u32], v: u32) -> u32 {
    match levels.get(v as usize) {
        Some(level) => *level,
        None => 0,
    }
}

fn raise(levels: &mut [u32], v: u32, level: u32) {
    if let Some(old) = levels.get_mut(v as usize) {
        *old = level.max(*old);
    }
}
