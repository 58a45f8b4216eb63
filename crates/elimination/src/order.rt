//! An order of the vertices by minimum degree.

use crate::degrees::DegreeLists;
use crate::quotient::QuotientGraph;
use crate::rows::NumberRows;
use csr_graph::Csr;
use route_walks::Memory;
use std::alloc::Global;

/// The members of elements that may be added for each arc of the graph.
const FILL_AN_ARC: usize = 6;

/// The members that are allowed whatever the graph is.
const ANYWAY: usize = 1 << 10;

/// The vertices in the order in which they are eliminated, and the vertices that are joined to each then.
#[derive(Drop)]
pub(crate) struct Order {
    pub vertices: Vec<u32>,
    pub above: NumberRows,
}

/// An elimination of one vertex after another.
#[derive(Drop)]
pub(crate) struct Elimination {
    graph: QuotientGraph,
    lists: DegreeLists,
    vertices: Vec<u32>,
}

impl Elimination {
    pub(crate) fn new(alloc: Global, csr: &Csr) -> Result<Elimination, Memory> {
        let n = csr.n();
        let graph = QuotientGraph::new(alloc, csr)?;
        let mut lists = DegreeLists::new(alloc, n)?;
        for v in 0..n {
            lists.put(v, graph.degree(v));
        }
        Ok(Elimination {
            graph,
            lists,
            vertices: Vec::with_capacity(alloc, n as usize)?,
        })
    }

    /// Eliminates vertices until none is left, or it takes too long.
    pub(crate) fn run(&mut self, csr: &Csr, most_steps: usize) -> Result<(), Memory> {
        for step in 0..csr.n() {
            if self.is_too_dense(csr, most_steps) {
                return Ok(());
            }
            let Some(v) = self.lists.pop() else {
                return Ok(());
            };
            self.vertices.push(v)?;
            self.graph.eliminate(v, step)?;
            self.renew_members(csr.n(), step)?;
        }
        Ok(())
    }

    /// The entries that were looked at.
    pub(crate) fn steps(&self) -> usize {
        self.graph.steps
    }

    /// The order, if no vertex is left.
    pub(crate) fn finish(self, n: u32) -> Option<Order> {
        if self.vertices.len() != n as usize {
            return None;
        }
        Some(Order {
            vertices: self.vertices,
            above: self.graph.into_members(),
        })
    }

    /// Tells if elimination takes too long, or joins too many of the vertices that are left.
    fn is_too_dense(&self, csr: &Csr, most_steps: usize) -> bool {
        let fill = self.graph.members().count();
        let allowed = csr.arc_count().saturating_add(ANYWAY);
        let early = self.vertices.len() < csr.n() as usize / 5 * 4;
        self.steps() > most_steps
            || fill > allowed.saturating_mul(FILL_AN_ARC)
            || (early && fill > allowed)
    }

    /// Renews the members of a step's element, and lists them by the degrees that they have at most.
    fn renew_members(&mut self, n: u32, step: u32) -> Result<(), Memory> {
        let (first, end) = (
            self.graph.members().first(step),
            self.graph.members().end(step),
        );
        let others = end.saturating_sub(first).saturating_sub(1);
        let left = (n as usize)
            .saturating_sub(self.vertices.len())
            .saturating_sub(1);
        for index in first..end {
            if let Some(v) = self.graph.members().number(index) {
                let beyond = self.graph.renew(v, step)?;
                self.list(v, beyond, others, left);
            }
        }
        Ok(())
    }

    /// Lists a member by its degree, which the other members, those beyond and those that are left bound.
    fn list(&mut self, v: u32, beyond: usize, others: usize, left: usize) {
        let before = self.lists.degree(v) as usize;
        let most = beyond.min(before).saturating_add(others).min(left);
        self.lists.take(v);
        self.lists.put(v, most.min(u32::MAX as usize) as u32);
    }
}
