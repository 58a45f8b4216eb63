//! Short searches for walks that go round a vertex.

use crate::edges::EdgeRows;
use route_walks::{INF, Memory};
use std::alloc::Global;
use std::cmp::Reverse;
use std::collections::BinaryHeap;

/// The most vertices that a search settles.
const SETTLED: usize = 24;

/// The most edges of a walk that is looked for.
const HOPS: u32 = 5;

/// The vertex that is left out, and the most that a walk may cost.
#[derive(Clone, Copy, Debug)]
pub(crate) struct Detour {
    pub without: u32,
    pub most: u64,
}

/// A search from one vertex, over rows without another.
#[derive(Drop)]
pub(crate) struct WitnessSearch {
    labels: Vec<u64>,
    hops: Vec<u32>,
    reached: Vec<u32>,
    queue: BinaryHeap<Reverse<(u64, u32)>>,
    /// The edges that were looked at.
    pub steps: usize,
}

impl WitnessSearch {
    pub(crate) fn new(alloc: Global, n: u32) -> Result<WitnessSearch, Memory> {
        let labels = vec![in alloc; INF; n as usize]?;
        let hops = vec![in alloc; 0_u32; n as usize]?;
        Ok(WitnessSearch {
            labels,
            hops,
            reached: Vec::new(alloc),
            queue: BinaryHeap::new(alloc),
            steps: 0,
        })
    }

    /// Searches from a vertex.
    pub(crate) fn run(
        &mut self,
        out: &EdgeRows,
        source: u32,
        detour: Detour,
    ) -> Result<(), Memory> {
        self.lower(source, 0, 0)?;
        for _ in 0..SETTLED {
            let Some(Reverse((label, u))) = self.queue.pop() else {
                return Ok(());
            };
            if label > detour.most {
                return Ok(());
            }
            self.visit(out, u, label, detour)?;
        }
        Ok(())
    }

    /// The cost of the walk that was found to a vertex, or `INF`.
    pub(crate) fn label(&self, v: u32) -> u64 {
        match self.labels.get(v as usize) {
            Some(label) => *label,
            None => INF,
        }
    }

    /// Forgets what was found.
    pub(crate) fn wipe(&mut self) {
        self.queue.clear();
        for v in &self.reached {
            if let Some(label) = self.labels.get_mut(*v as usize) {
                *label = INF;
            }
        }
        self.reached.clear();
    }

    fn visit(&mut self, out: &EdgeRows, u: u32, label: u64, detour: Detour) -> Result<(), Memory> {
        let hops = match self.hops.get(u as usize) {
            Some(hops) => *hops,
            None => HOPS,
        };
        if hops >= HOPS || label > self.label(u) {
            return Ok(());
        }
        let row = out.row(u);
        self.steps = self.steps.saturating_add(row.len());
        for edge in row {
            let next = label.saturating_add(edge.weight);
            if edge.end != detour.without && next <= detour.most {
                self.lower(edge.end, next, hops + 1)?;
            }
        }
        Ok(())
    }

    fn lower(&mut self, v: u32, label: u64, hops: u32) -> Result<(), Memory> {
        let place = v as usize;
        if place >= self.labels.len() || place >= self.hops.len() || label >= self.labels[place] {
            return Ok(());
        }
        if self.labels[place] == INF {
            self.reached.push(v)?;
        }
        self.labels[place] = label;
        self.hops[place] = hops;
        self.queue.push(Reverse((label, v)))?;
        Ok(())
    }
}
