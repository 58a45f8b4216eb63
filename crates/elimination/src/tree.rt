//! The elimination tree: the lowest of the places above a place is its parent.

use crate::order::Order;
use route_walks::Memory;
use std::alloc::Global;

/// No step.
const NONE: u32 = u32::MAX;

/// Places for steps, given from the last step to the first.
#[derive(Drop)]
struct Places {
    /// By step, the steps below it in the tree and itself.
    sizes: Vec<u32>,
    /// By step, the place behind those that its next child and all below it take.
    ends: Vec<u32>,
    /// The place behind those that the next root and all below it take.
    end: u32,
}

impl Order {
    /// The order in which each vertex comes right behind those that lie below it in the elimination tree. It leaves the same
    /// arcs, and those that searches look at lie near one another.
    pub(crate) fn depth_first(self, alloc: Global) -> Result<Order, Memory> {
        let n = self.vertices.len().min(u32::MAX as usize) as u32;
        let steps = steps_of(alloc, &self.vertices)?;
        let mut places = Places {
            sizes: vec![in alloc; 1_u32; n as usize]?,
            ends: vec![in alloc; 0_u32; n as usize]?,
            end: n,
        };
        let mut order = vec![in alloc; 0_u32; n as usize]?;
        for step in 0..n {
            let parent = parent_of(self.above.row(step), &steps);
            places.add_size(step, parent);
        }
        for step in (0..n).rev() {
            let parent = parent_of(self.above.row(step), &steps);
            let place = places.take(step, parent);
            if let Some(slot) = order.get_mut(place as usize) {
                *slot = step;
            }
        }
        self.in_order(alloc, &order)
    }

    /// The vertices and rows of these steps.
    fn in_order(self, alloc: Global, order: &[u32]) -> Result<Order, Memory> {
        let mut vertices = Vec::with_capacity(alloc, order.len())?;
        for step in order {
            if let Some(v) = self.vertices.get(*step as usize) {
                vertices.push(*v)?;
            }
        }
        let above = self.above.in_order(alloc, order)?;
        Ok(Order { vertices, above })
    }
}

/// The step of each vertex.
pub(crate) fn steps_of(alloc: Global, vertices: &[u32]) -> Result<Vec<u32>, Memory> {
    let mut steps = vec![in alloc; NONE; vertices.len()]?;
    let mut step = 0_u32;
    for v in vertices {
        if let Some(slot) = steps.get_mut(*v as usize) {
            *slot = step;
        }
        step = step.saturating_add(1);
    }
    Ok(steps)
}

/// The first step among those of some vertices; `NONE` if there are none.
fn parent_of(vertices: &[u32], steps: &[u32]) -> u32 {
    let mut parent = NONE;
    for v in vertices {
        if let Some(step) = steps.get(*v as usize) {
            parent = parent.min(*step);
        }
    }
    parent
}

impl Places {
    /// Counts a step, and those below it, with its parent.
    fn add_size(&mut self, step: u32, parent: u32) {
        let size = number_at(&self.sizes, step);
        if let Some(sum) = self.sizes.get_mut(parent as usize) {
            *sum = sum.saturating_add(size);
        }
    }

    /// The place of a step, the last among those that it takes with all below it.
    fn take(&mut self, step: u32, parent: u32) -> u32 {
        let size = number_at(&self.sizes, step);
        let end = match self.ends.get_mut(parent as usize) {
            Some(end) => lower(end, size),
            None => lower(&mut self.end, size),
        };
        let place = end.saturating_sub(1);
        if let Some(end) = self.ends.get_mut(step as usize) {
            *end = place;
        }
        place
    }
}

/// Lowers a number, and returns what it was.
fn lower(number: &mut u32, by: u32) -> u32 {
    let before = *number;
    *number = before.saturating_sub(by);
    before
}

fn number_at(list: &[u32], index: u32) -> u32 {
    match list.get(index as usize) {
        Some(number) => *number,
        None => 0,
    }
}
