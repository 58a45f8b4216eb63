//! Customizing: triangles lower the weights of a completion's arcs.
//!
//! As in Dibbelt, Strasser and Wagner, Customizable Contraction Hierarchies (2014): from the lowest place up each arc gets the
//! cost of the least walk over lower places, and from the highest down that of the least walk at all.

use crate::completion::Completion;
use crate::metric::{Metric, Triangle};
use route_walks::Memory;
use std::alloc::Global;

/// A pass over the triangles of a completion, by their place in the middle.
#[derive(Drop)]
struct Pass {
    /// By place, the index of its first arc to a place that is not yet passed.
    next: Vec<usize>,
    /// By place, the index of the arc to it from the place that was noted last.
    arcs: Vec<usize>,
}

/// Lowers the weights of arcs, and then finds the arcs that are dear.
pub(crate) fn customize(
    alloc: Global,
    completion: &Completion,
    metric: &mut Metric,
) -> Result<(), Memory> {
    let mut pass = Pass {
        next: completion.above.firsts(alloc)?,
        arcs: vec![in alloc; 0_usize; completion.n() as usize]?,
    };
    for place in 0..completion.n() {
        pass.note(completion, place);
        pass.rise(completion, metric, place);
    }
    for place in (0..completion.n()).rev() {
        pass.note(completion, place);
        pass.fall(completion, metric, place);
    }
    Ok(())
}

impl Pass {
    /// Notes the arcs from a place.
    fn note(&mut self, completion: &Completion, place: u32) {
        let mut arc = completion.above.first(place);
        for head in completion.above.row(place) {
            if let Some(noted) = self.arcs.get_mut(*head as usize) {
                *noted = arc;
            }
            arc = arc.saturating_add(1);
        }
    }

    /// Lowers the arcs from the place that was noted.
    fn rise(&mut self, completion: &Completion, metric: &mut Metric, place: u32) {
        for low in completion.below.row(place) {
            if let Some(next) = self.next.get_mut(*low as usize) {
                let near = *next;
                *next = near.saturating_add(1);
                lower_thirds(metric, &self.arcs, completion, *low, near);
            }
        }
    }

    /// Lowers the arcs that lead to the place that was noted.
    fn fall(&mut self, completion: &Completion, metric: &mut Metric, place: u32) {
        for low in completion.below.row(place) {
            if let Some(next) = self.next.get_mut(*low as usize) {
                let near = next.saturating_sub(1);
                *next = near;
                lower_first_two(metric, &self.arcs, completion, *low, near);
            }
        }
    }
}

/// Lowers the third arcs of the triangles with a lowest place, and an arc from there.
fn lower_thirds(
    metric: &mut Metric,
    arcs: &[usize],
    completion: &Completion,
    low: u32,
    near: usize,
) {
    let mut far = near.saturating_add(1);
    for head in completion.above.part(far, completion.above.end(low)) {
        if let Some(third) = arcs.get(*head as usize) {
            let third = *third;
            metric.lower_third(Triangle { near, far, third }, low);
        }
        far = far.saturating_add(1);
    }
}

/// Lowers the other two of these triangles.
fn lower_first_two(
    metric: &mut Metric,
    arcs: &[usize],
    completion: &Completion,
    low: u32,
    near: usize,
) {
    let mut far = near.saturating_add(1);
    for head in completion.above.part(far, completion.above.end(low)) {
        if let Some(third) = arcs.get(*head as usize) {
            let third = *third;
            metric.lower_first_two(Triangle { near, far, third });
        }
        far = far.saturating_add(1);
    }
}
