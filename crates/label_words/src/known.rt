//! The knowledge of a seat, and the rule of the words.

use atomic_table::{Seat, Table, TableRule};
use csr_graph::Csr;
use relax_core::View;
use route_walks::Seed;
use std::alloc::Global;
use std::collections::LinkedList;
use std::snapshot::Snapshot;

/// The knowledge of a seat: its view, the labels that it read or lowered, and the graph and seeds of its words. No
/// value of it is made.
pub struct Known {
    pub view: View,
    pub labels: LinkedList<(u32, u64)>,
    pub graph: Csr,
    pub seeds: LinkedList<Seed>,
}

/// The graph, the seeds, and the labels that a run goes on from, which are none if there are seeds. For the contracts
/// alone: it takes no room.
pub(crate) type Key = (Snapshot<Csr>, Snapshot<Vec<Seed>>, Snapshot<Vec<u64>>);

pub(crate) struct WordsRule;

impl TableRule<(), Known, Key> for WordsRule {
    ghost use Rattle.label_words.specs.Rule.{AreLawful};
    ghost use Rattle.label_words.specs.Known.{first_known};
    ghost use Rattle.label_words.specs.Rule.{seeds_told};

    ghost holds = { λ key state.
        AreLawful key.0.value (seeds_told key.1.value.items key.2.value.items) state.words state.views };

    ghost first = { λ key. first_known key.0.value (seeds_told key.1.value.items key.2.value.items) };
}

pub(crate) type WordTable = Table<(), Known, Key, WordsRule, Global>;

pub(crate) type TableSeat = Seat<(), Known>;
