//! The rest that words leave when a run ends.

ghost use Rattle.std.specs.Prelude.{◌≡◌, ◌+◌, ◌*◌, ◌≤◌, [], length};
ghost use Rattle.std.specs.Slots.{slots_items, slots_len, IsFull};
ghost use Rattle.route_walks.specs.declared.graph.TheConstants.{MAX_VERTICES};
ghost use Rattle.label_words.specs.Layout.{word_count};
ghost use Rattle.label_words.specs.Closed.{AreLabelsOf, AreMarksOf, closed_labels};

use crate::layout::{label_word, mark_word};
use crate::pause::Paused;
use atomic_table::Closed as LastWords;
use std::alloc::Global;

/// The rest that the words leave.
#[derive(Debug, Drop)]
pub enum Closed {
    /// The total was seen at 0: these labels are least.
    Settled(Vec<u64>),
    /// It wasn't: labels, and the vertices whose arcs are to be relaxed again.
    Paused(Paused),
}

impl Closed {
    /// The label of each vertex, `INF` if no walk was found.
    pub fn labels(&self) -> &[u64]
        ensures { result.now ≡ closed_labels self.now }
    {
        match self {
            Closed::Settled(labels) => labels,
            Closed::Paused(rest) => rest.labels(),
        }
    }

    /// The labels alone.
    pub fn into_labels(self) -> Vec<u64>
        ensures { result.items ≡ closed_labels self }
    {
        match self {
            Closed::Settled(labels) => labels,
            Closed::Paused(rest) => rest.into_labels(),
        }
    }
}

pub(crate) fn read_labels(last: &LastWords<(), Global>, n: usize, labels: &mut Vec<u64>)
    requires full { IsFull last.now.words }
    requires vertices { n ≤ MAX_VERTICES }
    requires within { word_count n ≤ slots_len last.now.words }
    requires empty { labels.old.items ≡ [] }
    requires room { n ≤ labels.old.cap }
    ensures count { length labels.new.items ≡ n }
    ensures labels { AreLabelsOf (slots_items last.now.words) labels.new.items }
{
    for v in 0..n {
        labels.push_reserved(last.word(label_word(v as u32)));
    }
}

pub(crate) fn read_words(last: &LastWords<(), Global>, labels: &mut Vec<u64>, marks: &mut [bool])
    requires full { IsFull last.now.words }
    requires vertices { length marks.old ≤ MAX_VERTICES }
    requires within { word_count (length marks.old) ≤ slots_len last.now.words }
    requires empty { labels.old.items ≡ [] }
    requires room { length marks.old ≤ labels.old.cap }
    ensures count { length labels.new.items ≡ length marks.old }
    ensures labels { AreLabelsOf (slots_items last.now.words) labels.new.items }
    ensures marks { AreMarksOf (slots_items last.now.words) marks.new }
{
    for v in 0..marks.len() {
        labels.push_reserved(last.word(label_word(v as u32)));
        marks[v] = last.word(mark_word(v as u32)) > 0;
    }
}
