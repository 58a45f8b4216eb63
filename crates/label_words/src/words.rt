//! The words of a run, and the calls on them.

ghost use Rattle.std.specs.Prelude.{◌≡◌, ◌⊎◌, ◌+◌, ◌<◌, ◌≤◌, true, not, [], ◌∷◌, IfOk};
ghost use Rattle.route_walks.specs.Walk.{AreSeeds};
ghost use Rattle.route_walks.specs.Operators.{seeds_of};
ghost use Rattle.relax_core.specs.declared.views.TheConstants.{SHARES};
ghost use Rattle.relax_core.specs.Views.{IsFresh, IsOpen, Owes, IsAtRowEnd, vertex_of};
ghost use Rattle.csr_graph.specs.Graph.{end_place};
ghost use Rattle.label_words.specs.Known.{hand_of, IsIdle, IsKept, HasNoVertex, IsFound, GoesAlong, Attains};
ghost use Rattle.label_words.specs.Known.{first_known, after_take, after_read, after_raise, after_raise_by};
ghost use Rattle.label_words.specs.Known.{after_set_mark, after_finish, after_keep, after_give_back, after_see};
ghost use Rattle.label_words.specs.Known.{left_half, right_half, both_known};
ghost use Rattle.label_words.specs.Closed.{IsClosed, IsBelowKnown};
ghost use Rattle.label_words.specs.Paused.{CanGoOn};
ghost use Rattle.label_words.specs.Rule.{AreLawful, SeesLawful, seeds_told};

use crate::closed::{Closed, read_labels, read_words};
use crate::known::{Key, WordTable};
use crate::layout::{TOTAL, label_word, mark_word, vertex_count};
use crate::opening::{lay, lay_rest};
use crate::pause::Paused;
use crate::plays::{
    Finishes, GivesBack, Keeps, Raises, RaisesBy, Reads, Relaxes, Sees, SetsMark, SplitsOrJoins,
    Takes,
};
use crate::seat::WorkSeat;
use atomic_table::Table;
use csr_graph::{Csr, Target};
use relax_core::{Hand, SHARES, View};
use route_walks::{Memory, Seed, offer};
use std::alloc::Global;
use std::fmt;
use std::marker::Model;
use std::snapshot::Snapshot;

/// The most labels of a row that `prefetch_labels` loads.
const PREFETCHED_HEADS: usize = 16;

/// The outcome of `relax`.
#[derive(Clone, Copy, Debug, PartialEq, Eq)]
pub enum Step {
    /// The label of `head` fell to `label`, and the seat owes `head` a mark.
    Lowered { head: u32, label: u64 },
    /// The head's label was no higher than what the arc offered.
    Kept,
    /// No arc of the row is left.
    RowEnd,
}

/// The words of a run. Threads step on them through a `&`, each with its own seat.
#[derive(Drop)]
pub struct Words {
    pub(crate) table: WordTable,
}

impl Model for Words {
    ghost use Rattle.atomic_table.specs.Seated.{TableId};

    ghost Value = { TableId };

    ghost view = { λ w. w.table.shared.table_id };
}

impl fmt::Debug for Words {
    fn fmt<W: fmt::Write>(&self, f: &mut fmt::Formatter<W>) -> fmt::Result {
        f.debug_struct("Words").finish_non_exhaustive()
    }
}

impl Words {
    /// Opens the words of a run from seeds, and their one seat, which is idle and has all shares. Takes 32 bytes a
    /// vertex while it works, and leaves 16.
    pub fn open(alloc: Global, csr: &Csr, seeds: &[Seed]) -> Result<(Words, WorkSeat), Memory>
        requires { AreSeeds csr.now.n seeds.now }
        ensures seat { IfOk result
            (λ opened. opened.1 ≡ record { words = opened.0; known = first_known csr.now seeds.now }) }
    {
        // The copy is for the contracts alone and is let go before the words take any room.
        let mut copy = Vec::with_capacity(alloc, seeds.len())?;
        copy.extend_from_slice(seeds)?;
        let none = Vec::new(alloc);
        let key: Key = (Snapshot::of(csr), Snapshot::of(&copy), Snapshot::of(&none));
        drop(copy);
        let words = lay(alloc, csr.n(), seeds)?;
        Words::begin(alloc, words, key)
    }

    /// Opens the words of a paused run, and their one seat, which is idle and has all shares. Its seeds are the
    /// vertices with labels below `INF`. Takes memory as `open`.
    pub fn reopen(alloc: Global, csr: &Csr, rest: &Paused) -> Result<(Words, WorkSeat), Memory>
        requires { CanGoOn csr.now rest.now }
        ensures seat { IfOk result (λ opened. opened.1
            ≡ record { words = opened.0; known = first_known csr.now (seeds_of rest.now.labels) }) }
    {
        let none = Vec::new(alloc);
        let key: Key = (
            Snapshot::of(csr),
            Snapshot::of(&none),
            Snapshot::of(&rest.labels),
        );
        let words = lay_rest(alloc, csr.n(), &rest.labels, &rest.marks)?;
        Words::begin(alloc, words, key)
    }

    fn begin(alloc: Global, words: Vec<u64>, key: Key) -> Result<(Words, WorkSeat), Memory>
        requires { AreLawful key.0.value (seeds_told key.1.value.items key.2.value.items) words.items
            (first_known key.0.value (seeds_told key.1.value.items key.2.value.items) ∷ []) }
        ensures seat { IfOk result (λ opened. opened.1
            ≡ record {
              words = opened.0;
              known = first_known key.0.value (seeds_told key.1.value.items key.2.value.items);
            }) }
    {
        let (table, table_seat) = Table::of_words(alloc, &words, &key)?;
        let view = View::idle(SHARES);
        Ok((Words { table }, WorkSeat { table_seat, view }))
    }

    /// The label at which `v` is marked, or `None`. A hint, by a load of each word: others may step between them.
    pub fn marked_label(&self, seat: &WorkSeat, v: u32) -> Option<u64>
        requires words { seat.now.words ≡ self.now }
        requires vertex { v < seat.now.known.graph.n }
    {
        // Reading a field of the seat tells the proof its invariant, which bounds `v`. It costs nothing.
        let _share = seat.view.share;
        if self.table.shared.peek(mark_word(v)) == 0 {
            return None;
        }
        Some(self.table.shared.peek(label_word(v)))
    }

    /// The label of `v`, by a load: a hint.
    #[inline(always)]
    pub fn label_hint(&self, seat: &WorkSeat, v: u32) -> u64
        requires words { seat.now.words ≡ self.now }
        requires vertex { v < seat.now.known.graph.n }
    {
        // Reading a field of the seat tells the proof its invariant, which bounds `v`. It costs nothing.
        let _share = seat.view.share;
        self.table.shared.peek(label_word(v))
    }

    /// Takes the mark of `u` by one swap. If it was set, the seat holds `u` and its credit, and this returns true.
    pub fn take(&self, seat: &mut WorkSeat, u: u32) -> bool
        requires words { seat.old.words ≡ self.now }
        requires no_vertex { HasNoVertex seat.old }
        requires vertex { u < seat.old.known.graph.n }
        ensures seat { seat.new ≡ record seat.old { known = after_take result u seat.old.known } }
        ensures one_credit { IsIdle seat.old → result ≡ true → seat.new.known.view.credits ≡ 1 }
    {
        let shared = &self.table.shared;
        let was_marked = shared.swap::<Takes>(&mut seat.table_seat, mark_word(u), 0) > 0;
        seat.view.rest();
        seat.view.take(was_marked, u);
        was_marked
    }

    /// Reads the label of the held vertex by one load, and opens its row.
    pub fn read(&self, seat: &mut WorkSeat, csr: &Csr) -> u64
        requires words { seat.old.words ≡ self.now }
        requires graph { csr.now ≡ seat.old.known.graph }
        requires fresh { IsFresh (hand_of seat.old) }
        ensures seat { seat.new ≡ record seat.old { known = after_read result seat.old.known } }
        ensures found { IsFound seat.old.known result }
    {
        let Hand::Fresh { u } = seat.view.hand else {
            unreachable!()
        };
        let shared = &self.table.shared;
        let d = shared.load::<Reads>(&mut seat.table_seat, label_word(u));
        seat.view.read(d, csr.first(u));
        d
    }

    /// Loads the labels of the first heads of a row, up to 16, so that they come from memory side by side. A hint.
    #[inline(always)]
    pub fn prefetch_labels(&self, seat: &WorkSeat, csr: &Csr, u: u32)
        requires words { seat.now.words ≡ self.now }
        requires graph { csr.now ≡ seat.now.known.graph }
        requires vertex { u < csr.now.n }
    {
        let row = csr.row(u);
        for target in &row[..row.len().min(PREFETCHED_HEADS)] {
            self.prefetch_label(seat, target.head);
        }
    }

    /// Loads the label of a vertex, in whose line its mark is. A hint.
    #[inline(always)]
    pub fn prefetch_label(&self, seat: &WorkSeat, v: u32)
        requires words { seat.now.words ≡ self.now }
        requires vertex { v < seat.now.known.graph.n }
    {
        // Reading a field of the seat tells the proof its invariant, which bounds `v`. It costs nothing.
        let _share = seat.view.share;
        let _label = self.table.shared.peek(label_word(v));
    }

    /// Relaxes the next arc of the row by one `fetch_min` of its head's label. At the row's end there is no step.
    pub fn relax(&self, seat: &mut WorkSeat, csr: &Csr) -> Step
        requires words { seat.old.words ≡ self.now }
        requires graph { csr.now ≡ seat.old.known.graph }
        requires open { IsOpen (hand_of seat.old) }
        ensures words { seat.new.words ≡ seat.old.words }
        ensures step { GoesAlong seat.old.known result seat.new.known }
        ensures attained { Attains seat.old.known result }
    {
        let Hand::Open { u, .. } = seat.view.hand else {
            unreachable!()
        };
        self.relax_before(seat, csr, csr.end(u))
    }

    /// Does as `relax` with the row's end known, which saves a look for each arc.
    #[inline(always)]
    pub fn relax_before(&self, seat: &mut WorkSeat, csr: &Csr, end: usize) -> Step
        requires words { seat.old.words ≡ self.now }
        requires graph { csr.now ≡ seat.old.known.graph }
        requires open { IsOpen (hand_of seat.old) }
        requires end { end ≡ end_place csr.now.arcs (vertex_of (hand_of seat.old)) }
        ensures words { seat.new.words ≡ seat.old.words }
        ensures step { GoesAlong seat.old.known result seat.new.known }
        ensures attained { Attains seat.old.known result }
    {
        let Hand::Open { u, d, k } = seat.view.hand else {
            unreachable!()
        };
        if k == end {
            return Step::RowEnd;
        }
        let Target { head, weight } = csr.target(k);
        let label = offer(d, weight);
        let shared = &self.table.shared;
        let found = shared.fetch_min::<Relaxes>(&mut seat.table_seat, label_word(head), label);
        seat.view.relax(label < found, u, d, k, head);
        if label < found {
            Step::Lowered { head, label }
        } else {
            Step::Kept
        }
    }

    /// Adds one to the total for the mark that the seat owes.
    pub fn raise(&self, seat: &mut WorkSeat)
        requires words { seat.old.words ≡ self.now }
        requires owes { Owes (hand_of seat.old) }
        requires credit { seat.old.known.view.credits ≡ 1 }
        ensures { seat.new ≡ record seat.old { known = after_raise seat.old.known } }
    {
        let shared = &self.table.shared;
        shared.fetch_add::<Raises>(&mut seat.table_seat, TOTAL, 1);
        seat.view.raise();
    }

    /// Adds this many to the total by one `fetch_add`, for the owed mark and others to come. A seat has at most 255
    /// credits.
    pub fn raise_by(&self, seat: &mut WorkSeat, count: u8)
        requires words { seat.old.words ≡ self.now }
        requires owes { Owes (hand_of seat.old) }
        requires room { seat.old.known.view.credits + count ≤ 255 }
        ensures { seat.new ≡ record seat.old { known = after_raise_by count seat.old.known } }
    {
        let more = u64::from(count);
        let shared = &self.table.shared;
        shared.fetch_add::<RaisesBy>(&mut seat.table_seat, TOTAL, more);
        seat.view.raise_by(count);
    }

    /// Sets the mark that the seat owes by one swap. Returns true if it wasn't set before; otherwise the seat keeps the
    /// credit.
    pub fn set_mark(&self, seat: &mut WorkSeat) -> bool
        requires words { seat.old.words ≡ self.now }
        requires owes { Owes (hand_of seat.old) }
        requires credits { 2 ≤ seat.old.known.view.credits }
        ensures { seat.new ≡ record seat.old { known = after_set_mark (not result) seat.old.known } }
    {
        let Hand::Owe { u, d, k, head } = seat.view.hand else {
            unreachable!()
        };
        let shared = &self.table.shared;
        let was_marked = shared.swap::<SetsMark>(&mut seat.table_seat, mark_word(head), 1) > 0;
        seat.view.set_mark(was_marked, u, d, k);
        !was_marked
    }

    /// Takes the seat's credits from the total by one `fetch_sub`, at the end of its row. The seat is then idle.
    pub fn finish(&self, seat: &mut WorkSeat, csr: &Csr)
        requires words { seat.old.words ≡ self.now }
        requires graph { csr.now ≡ seat.old.known.graph }
        requires open { IsOpen (hand_of seat.old) }
        requires row_end { IsAtRowEnd seat.old.known.graph (hand_of seat.old) }
        ensures { seat.new ≡ record seat.old { known = after_finish seat.old.known } }
    {
        // Only the contract asks where the row ends.
        let _ = csr;
        let credits = u64::from(seat.view.credits);
        let shared = &self.table.shared;
        shared.fetch_sub::<Finishes>(&mut seat.table_seat, TOTAL, credits);
        seat.view.finish();
    }

    /// Leaves the row at its end and keeps the credits, by one load of the total. The seat then has room for one more.
    pub fn keep(&self, seat: &mut WorkSeat, csr: &Csr)
        requires words { seat.old.words ≡ self.now }
        requires graph { csr.now ≡ seat.old.known.graph }
        requires open { IsOpen (hand_of seat.old) }
        requires row_end { IsAtRowEnd seat.old.known.graph (hand_of seat.old) }
        requires room { seat.old.known.view.credits ≤ 254 }
        ensures { seat.new ≡ record seat.old { known = after_keep seat.old.known } }
    {
        // Only the contract asks where the row ends.
        let _ = csr;
        let shared = &self.table.shared;
        let _total = shared.load::<Keeps>(&mut seat.table_seat, TOTAL);
        seat.view.keep();
    }

    /// Takes this many kept credits from the total by one `fetch_sub`. If none is left, the seat is idle.
    pub fn give_back(&self, seat: &mut WorkSeat, count: u8)
        requires words { seat.old.words ≡ self.now }
        requires kept { IsKept seat.old }
        requires credits { count ≤ seat.old.known.view.credits }
        ensures { seat.new ≡ record seat.old { known = after_give_back count seat.old.known } }
    {
        let less = u64::from(count);
        let shared = &self.table.shared;
        shared.fetch_sub::<GivesBack>(&mut seat.table_seat, TOTAL, less);
        seat.view.give_back(count);
    }

    /// Looks at the total by one load. Returns true if it was 0, and then the seat saw.
    pub fn see(&self, seat: &mut WorkSeat) -> bool
        requires words { seat.old.words ≡ self.now }
        requires idle { IsIdle seat.old }
        ensures seat { seat.new ≡ record seat.old { known = after_see result seat.old.known } }
        ensures lawful { SeesLawful result seat.new.known }
    {
        let zero = self.table.shared.load::<Sees>(&mut seat.table_seat, TOTAL) == 0;
        seat.view.rest();
        seat.view.see(zero);
        zero
    }

    /// Returns an idle seat with half the share, rounded down, that knows what this one knows.
    pub fn split(&self, seat: &mut WorkSeat) -> WorkSeat
        requires words { seat.old.words ≡ self.now }
        requires idle { IsIdle seat.old }
        requires share { 2 ≤ seat.old.known.view.share }
        ensures this { seat.new ≡ record seat.old { known = left_half seat.old.known } }
        ensures new { result ≡ record seat.old { known = right_half seat.old.known } }
    {
        let table_seat = self
            .table
            .shared
            .split_seat::<SplitsOrJoins>(&mut seat.table_seat);
        let view = seat.view.split();
        WorkSeat { table_seat, view }
    }

    /// Takes in another seat's share, knowledge and whether it saw.
    pub fn join(&self, seat: &mut WorkSeat, other: WorkSeat)
        requires words { (seat.old.words ≡ self.now) × (other.words ≡ self.now) }
        requires idle { IsIdle seat.old }
        requires other_idle { IsIdle other }
        ensures { seat.new ≡ record seat.old { known = both_known seat.old.known other.known } }
    {
        let WorkSeat { table_seat, view } = other;
        self.table
            .shared
            .join_seat::<SplitsOrJoins>(&mut seat.table_seat, table_seat);
        seat.view.join(view);
    }

    /// Ends the run. The seat saw the total at 0, or has all shares. Takes eight bytes a vertex, and nine if the seat
    /// didn't see 0. After `Memory` the run is lost.
    pub fn close(self, alloc: Global, seat: WorkSeat) -> Result<Closed, Memory>
        requires words { seat.words ≡ self }
        requires idle { IsIdle seat }
        requires done { (seat.known.view.saw ≡ true) ⊎ (seat.known.view.share ≡ SHARES) }
        ensures closed { IfOk result (λ closed. IsClosed seat.known closed) }
        ensures known { IfOk result (λ closed. IsBelowKnown seat.known closed) }
    {
        let n = vertex_count(self.table.word_count());
        let mut labels = Vec::with_capacity(alloc, n)?;
        // If the seat saw 0 there are no marks to read.
        let mut marks = vec![in alloc; false; if seat.view.saw { 0 } else { n }]?;
        let WorkSeat { table_seat, view } = seat;
        let last = self.table.close_with(table_seat);
        if view.saw {
            read_labels(&last, n, &mut labels);
            last.free();
            Ok(Closed::Settled(labels))
        } else {
            read_words(&last, &mut labels, &mut marks);
            last.free();
            Ok(Closed::Paused(Paused { labels, marks }))
        }
    }
}
