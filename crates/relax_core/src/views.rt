//! The hands of workers, the views of seats, and the change of a seat's view by each event.

ghost use Rattle.std.specs.Prelude.{◌≡◌, ◌+◌, ◌-◌, ◌^◌, ◌<◌, ◌≤◌, true};
ghost use Rattle.relax_core.specs.declared.views.Hand.TheVariants.{Open, Owe};
ghost use Rattle.relax_core.specs.Views.{IsFresh, has_no_vertex, owed_of, idle_view, taken, opened, went_along};
ghost use Rattle.relax_core.specs.Views.{raised, raised_by, marked, finished, kept, gave_back, looked};
ghost use Rattle.relax_core.specs.Views.{kept_half, new_half, joined};

/// The shares of all seats together.
pub const SHARES: u32 = 65536;

/// The vertex, label and mark that a worker holds.
#[derive(Clone, Copy, Debug, PartialEq, Eq)]
pub enum Hand {
    /// Nothing.
    Idle,
    /// Credits for marks to come.
    Kept,
    /// A vertex whose mark was taken and whose label isn't read yet.
    Fresh { u: u32 },
    /// The row of `u` from place `k` on, relaxed with the label `d`.
    Open { u: u32, d: u64, k: usize },
    /// An open row, and a mark for `head`, whose label fell.
    Owe { u: u32, d: u64, k: usize, head: u32 },
}

/// A seat's view.
#[derive(Clone, Copy, Debug, PartialEq, Eq)]
pub struct View {
    pub hand: Hand,
    /// Its part of the pending total, 0 to 255: for what the hand holds and for marks to come.
    pub credits: u8,
    /// True if the seat saw the pending total at 0.
    pub saw: bool,
    /// Its part of the `SHARES`. A view of share 0 is spent: its seat is gone.
    pub share: u32,
}

impl View {
    /// The idle view of this share.
    pub const fn idle(share: u32) -> View
        ensures { result ≡ idle_view share }
    {
        View {
            hand: Hand::Idle,
            credits: 0,
            saw: false,
            share,
        }
    }

    /// For the proof: the hand still holds no vertex, and what an earlier hand left behind is forgotten. Changes
    /// nothing.
    pub fn rest(&mut self)
        requires { has_no_vertex self.old.hand ≡ true }
        ensures { self.new ≡ self.old }
    {
        self.hand = match self.hand {
            Hand::Idle => Hand::Idle,
            Hand::Kept => Hand::Kept,
            _ => unreachable!(),
        };
    }

    /// `Take`: if the mark of `u` was set, the seat holds `u` and the mark's credit.
    pub fn take(&mut self, was_marked: bool, u: u32)
        requires { self.old.credits < 255 }
        ensures { self.new ≡ taken was_marked u self.old }
    {
        if was_marked {
            self.hand = Hand::Fresh { u };
            self.credits += 1;
        }
    }

    /// `Read`: the row of the vertex is open from place `k` on, with the label `d`.
    pub fn read(&mut self, d: u64, k: usize)
        requires { IsFresh self.old.hand }
        ensures { self.new ≡ opened d k self.old }
    {
        let Hand::Fresh { u } = self.hand else {
            unreachable!()
        };
        self.hand = Hand::Open { u, d, k };
    }

    /// `Relax`: the arc at place `k` is done, and its head is owed a mark if its label fell.
    pub fn relax(&mut self, fell: bool, u: u32, d: u64, k: usize, head: u32)
        requires hand { self.old.hand ≡ Open u d k }
        requires place { k < 2 ^ 64 - 1 }
        ensures { self.new ≡ went_along fell head self.old }
    {
        let k = k + 1;
        self.hand = if fell {
            Hand::Owe { u, d, k, head }
        } else {
            Hand::Open { u, d, k }
        };
    }

    /// `Raise`: a second credit, for the owed mark.
    pub fn raise(&mut self)
        ensures { self.new ≡ raised self.old }
    {
        self.credits = 2;
    }

    /// `RaiseBy`: `count` credits more.
    pub fn raise_by(&mut self, count: u8)
        requires { self.old.credits + count ≤ 255 }
        ensures { self.new ≡ raised_by count self.old }
    {
        self.credits += count;
    }

    /// `SetMark`: nothing is owed any more, and one credit went to the mark unless it was set before.
    pub fn set_mark(&mut self, was_marked: bool, u: u32, d: u64, k: usize)
        requires hand { self.old.hand ≡ Owe u d k (owed_of self.old.hand) }
        requires credits { 1 ≤ self.old.credits }
        ensures { self.new ≡ marked was_marked self.old }
    {
        self.hand = Hand::Open { u, d, k };
        if !was_marked {
            self.credits -= 1;
        }
    }

    /// `Finish`: nothing is held.
    pub fn finish(&mut self)
        ensures { self.new ≡ finished self.old }
    {
        self.hand = Hand::Idle;
        self.credits = 0;
    }

    /// `Keep`: no vertex is held, and credits stay.
    pub fn keep(&mut self)
        ensures { self.new ≡ kept self.old }
    {
        self.hand = Hand::Kept;
    }

    /// `Return`: `count` credits less. If none is left, the hand is idle.
    pub fn give_back(&mut self, count: u8)
        requires { count ≤ self.old.credits }
        ensures { self.new ≡ gave_back count self.old }
    {
        self.hand = if self.credits == count {
            Hand::Idle
        } else {
            Hand::Kept
        };
        self.credits -= count;
    }

    /// `See`: the seat saw, if the total is 0.
    pub fn see(&mut self, zero: bool)
        ensures { self.new ≡ looked zero self.old }
    {
        self.saw = self.saw || zero;
    }

    /// `Split`: half the share, rounded down, goes to a new view.
    pub fn split(&mut self) -> View
        ensures this { self.new ≡ kept_half self.old }
        ensures new { result ≡ new_half self.old }
    {
        let half = self.share / 2;
        self.share -= half;
        View::idle(half)
    }

    /// `Join`: takes in the share of another view and what it saw.
    pub fn join(&mut self, other: View)
        requires { self.old.share + other.share < 2 ^ 32 }
        ensures { self.new ≡ joined self.old other }
    {
        self.saw = self.saw || other.saw;
        // Shares are never more than all: the rule of a run says it, and this if no run is at hand.
        self.share = (self.share + other.share).min(SHARES);
    }
}
