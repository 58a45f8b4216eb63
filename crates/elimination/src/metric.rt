//! The weights of a completion's arcs.

use crate::completion::Completion;
use crate::way::Way;
use csr_graph::{Csr, Target};
use route_walks::Memory;
use std::alloc::Global;

/// The arcs of a completion up and down.
#[derive(Drop)]
pub(crate) struct Metric {
    pub up: Vec<Way>,
    pub down: Vec<Way>,
}

/// Two arcs from the lowest place of a triangle, and the third, by their indices.
#[derive(Clone, Copy, Debug)]
pub(crate) struct Triangle {
    /// The arc to the place in the middle.
    pub near: usize,
    /// The arc to the highest place.
    pub far: usize,
    pub third: usize,
}

impl Metric {
    /// The weights of the arcs of a graph.
    pub(crate) fn new(alloc: Global, csr: &Csr, completion: &Completion) -> Result<Metric, Memory> {
        let count = completion.above.count();
        let mut metric = Metric {
            up: vec![in alloc; Way::none(); count]?,
            down: vec![in alloc; Way::none(); count]?,
        };
        for u in 0..csr.n() {
            metric.put_row(completion, u, csr.row(u), csr.n());
        }
        Ok(metric)
    }

    fn put_row(&mut self, completion: &Completion, u: u32, row: &[Target], n: u32) {
        let mut origin = n;
        for target in row {
            let way = Way::of_arc(target.weight, origin);
            self.put_arc(completion, u, target.head, way);
            origin = origin.saturating_add(1);
        }
    }

    /// Puts an arc, if none as cheap stands there.
    fn put_arc(&mut self, completion: &Completion, u: u32, v: u32, way: Way) {
        let (Some(from), Some(to)) = (
            completion.places.get(u as usize),
            completion.places.get(v as usize),
        ) else {
            return;
        };
        if let Some(arc) = completion.arc(*from, *to) {
            lower(&mut self.up, arc, way);
        }
        if let Some(arc) = completion.arc(*to, *from) {
            lower(&mut self.down, arc, way);
        }
    }

    /// Lowers the third arc to the two others over their lowest place.
    pub(crate) fn lower_third(&mut self, triangle: Triangle, place: u32) {
        let Triangle { near, far, third } = triangle;
        let (rise, fall) = (way_at(&self.up, far), way_at(&self.down, near));
        if let Some(way) = self.up.get_mut(third) {
            way.lower_over(fall, rise, place);
        }
        let (rise, fall) = (way_at(&self.up, near), way_at(&self.down, far));
        if let Some(way) = self.down.get_mut(third) {
            way.lower_over(fall, rise, place);
        }
    }

    /// Lowers the arcs from the lowest place to what walks over the third arc cost.
    pub(crate) fn lower_first_two(&mut self, triangle: Triangle) {
        let Triangle { near, far, third } = triangle;
        let (up, down) = (way_at(&self.up, third), way_at(&self.down, third));
        lower_to(&mut self.up, near, far, down);
        lower_to(&mut self.up, far, near, up);
        lower_to(&mut self.down, near, far, up);
        lower_to(&mut self.down, far, near, down);
    }
}

fn way_at(ways: &[Way], index: usize) -> Way {
    match ways.get(index) {
        Some(way) => *way,
        None => Way::none(),
    }
}

fn lower(ways: &mut [Way], index: usize, way: Way) {
    if let Some(place) = ways.get_mut(index) {
        place.lower(way);
    }
}

/// Lowers a way to another and a third.
fn lower_to(ways: &mut [Way], index: usize, other: usize, third: Way) {
    let other = way_at(ways, other);
    if let Some(way) = ways.get_mut(index) {
        way.lower_to(other, third);
    }
}
