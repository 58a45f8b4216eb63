//! The widths of buckets, if no shift is given.

use csr_graph::Csr;
use obim_pool::Scale;

/// The most arcs that are sampled.
const MAX_SAMPLED_ARCS: usize = 1024;

/// One arc in this many counts as light.
const ARCS_A_LIGHT_ONE: u64 = 8;

/// The least width of a bucket is this power of two of light weights, divided by the arcs of a vertex.
const LIGHT_WEIGHTS_BITS: u32 = 3;

/// A long chain has this power of two of buckets.
const CHAIN_BUCKETS_BITS: u32 = 9;

/// The widths of buckets: a hint.
#[derive(Clone, Copy, Debug, PartialEq, Eq)]
pub struct Widths {
    /// At least 2^`shift` labels.
    pub shift: u32,
    /// The scale by which they are wider then.
    pub scale: Scale,
}

/// The widths that operators take if no shift is given, by a sample of the weights.
///
/// If no vertex has a light arc to another of its bucket, no label falls twice. So buckets are as wide as light weights
/// let them be, and narrower if vertices have more arcs. Those of larger labels widen to two to four usual weights,
/// about as many as the root of the number of vertices. Buckets of a graph with free arcs only widen, and a chain has
/// few.
pub fn widths_of(csr: &Csr) -> Widths {
    let sample = Sample::of(csr);
    let mean = sample.sum.checked_div(sample.count).unwrap_or(0);
    if mean == 0 {
        return Widths {
            shift: 0,
            scale: Scale::widening(),
        };
    }
    let degree = csr.arc_count() as u64 / u64::from(csr.n().max(1));
    let shift = match sample.light_bits() {
        0 => 0,
        bits => bits
            .saturating_add(LIGHT_WEIGHTS_BITS)
            .saturating_sub(bit_length(degree.max(1))),
    };
    let vertices = bit_length(u64::from(csr.n()));
    let shift = if is_chain(csr) {
        shift.saturating_add(vertices.saturating_sub(CHAIN_BUCKETS_BITS))
    } else {
        shift
    };
    let widest = bit_length(mean).saturating_add(1).saturating_sub(shift);
    let half = vertices.saturating_add(1) / 2;
    Widths {
        shift,
        scale: Scale::new(widest, 1 << half.min(63)),
    }
}

/// The number of binary digits; 0 has none.
fn bit_length(number: u64) -> u32 {
    64_u32.saturating_sub(number.leading_zeros())
}

/// The step from one sampled arc to the next, odd so that it meets each arc of equal rows.
fn step_of(csr: &Csr) -> usize {
    csr.arc_count() / MAX_SAMPLED_ARCS | 1
}

fn is_chain(csr: &Csr) -> bool {
    let step = step_of(csr);
    let mut place = 0_usize;
    for _ in 0..MAX_SAMPLED_ARCS {
        if place >= csr.arc_count() {
            break;
        }
        if !is_link(csr, csr.target(place).head) {
            return false;
        }
        place = place.saturating_add(step);
    }
    true
}

/// Tells if a walk to this vertex goes on in one way at most: it has one arc, or two to neighbours that lead back.
fn is_link(csr: &Csr, v: u32) -> bool {
    if v >= csr.n() {
        return false;
    }
    let row = csr.row(v);
    match row.len() {
        0 => true,
        1 => true,
        2 => leads_to(csr, row[0].head, v) && leads_to(csr, row[1].head, v),
        _ => false,
    }
}

/// Tells if a vertex has at most two arcs, one of them to another.
fn leads_to(csr: &Csr, from: u32, to: u32) -> bool {
    if from >= csr.n() {
        return false;
    }
    let row = csr.row(from);
    row.len() <= 2 && row.iter().any(|target| target.head == to)
}

#[derive(Clone, Copy)]
struct Sample {
    count: u64,
    sum: u64,
    /// The number of them by their binary digits.
    lengths: [u64; 33],
}

impl Sample {
    fn of(csr: &Csr) -> Sample {
        let mut sample = Sample {
            count: 0,
            sum: 0,
            lengths: [0; 33],
        };
        let step = step_of(csr);
        let mut place = 0_usize;
        for _ in 0..MAX_SAMPLED_ARCS {
            if place >= csr.arc_count() {
                break;
            }
            sample.add(csr.target(place).weight);
            place = place.saturating_add(step);
        }
        sample
    }

    fn add(&mut self, weight: u32) {
        self.count = self.count.saturating_add(1);
        self.sum = self.sum.saturating_add(u64::from(weight));
        if let Some(seen) = self.lengths.get_mut(bit_length(u64::from(weight)) as usize) {
            *seen = seen.saturating_add(1);
        }
    }

    fn light_bits(&self) -> u32 {
        let mut bits = 0_u32;
        let mut seen = 0_u64;
        for count in self.lengths {
            seen = seen.saturating_add(count);
            if seen.saturating_mul(ARCS_A_LIGHT_ONE) >= self.count {
                break;
            }
            bits = bits.saturating_add(1);
        }
        bits
    }
}
