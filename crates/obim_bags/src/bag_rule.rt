//! The knowledge of the passes of a bag, and the rule of its queue.

use crate::chunk::Chunk;
use crossbeam_queue::protocol::{Join, Lesson, Outcome, Protocol, Split};
use crossbeam_queue::{RuledSegQueue, SegPass};
use std::alloc::Global;
use std::collections::LinkedList;

/// The chunks that a pass put and got, its share of the workers, and their number. No value of it is made.
pub struct Tally {
    pub share: u32,
    pub workers: u32,
    pub put: LinkedList<Chunk>,
    pub got: LinkedList<Chunk>,
}

pub(crate) type Boxed = Box<Chunk, Global>;

pub(crate) struct BagRule;

impl Protocol<Boxed, Tally> for BagRule {
    ghost use Rattle.std.specs.Prelude.{map};
    ghost use Rattle.obim_bags.specs.BagRule.{AreLawful, first_tally};

    ghost holds = { λ boxes tallies. AreLawful (map (λ b. b.value) boxes) tallies };

    ghost first = { first_tally };
}

pub(crate) type ChunkQueue = RuledSegQueue<Boxed, Tally, BagRule>;

pub(crate) type QueuePass = SegPass<Boxed, Tally>;

pub(crate) struct Puts;

impl Outcome<Boxed, Tally> for Puts {
    ghost use Rattle.std.specs.Prelude.{◌≡◌};
    ghost use Rattle.obim_bags.specs.BagRule.{with_put};

    ghost then = { λ tally chunk new. new ≡ with_put chunk.value tally };
}

pub(crate) struct Gets;

impl Outcome<Boxed, Tally> for Gets {
    ghost use Rattle.std.specs.Prelude.{◌≡◌, ◌≢◌, []};
    ghost use Rattle.obim_bags.specs.BagRule.{with_got};

    ghost then = { λ tally chunk new. (new ≡ with_got chunk.value tally) × (chunk.value.vertices ≢ []) };
}

impl Lesson<Boxed, Tally> for Gets {
    ghost use Rattle.std.specs.Prelude.{map};
    ghost use Rattle.obim_bags.specs.BagRule.{IsSeenIn};

    ghost fact = { λ tally boxes. IsSeenIn (map (λ b. b.value) boxes) tally };
}

// One worker more, while the first pass is alone: the new pass is spent.
pub(crate) struct AddsWorker;

impl Split<Tally> for AddsWorker {
    ghost use Rattle.obim_bags.specs.BagRule.{grown, spent_tally};

    ghost left = { grown };

    ghost right = { λ _. spent_tally };
}

// A share of 1 is cut off.
pub(crate) struct CutsShare;

impl Split<Tally> for CutsShare {
    ghost use Rattle.obim_bags.specs.BagRule.{rest_of_shares, cut_share};

    ghost left = { rest_of_shares };

    ghost right = { cut_share };
}

pub(crate) struct JoinsPasses;

impl Join<Tally> for JoinsPasses {
    ghost use Rattle.obim_bags.specs.BagRule.{joined, spent_tally};

    ghost both = { joined };

    ghost spent = { spent_tally };
}
