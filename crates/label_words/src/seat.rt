//! A worker's place at the words.

ghost use Rattle.std.specs.Prelude.{◌≡◌, ◌≤◌};
ghost use Rattle.relax_core.specs.declared.views.TheConstants.{SHARES};
ghost use Rattle.label_words.specs.Known.{hand_of};

use crate::known::TableSeat;
use relax_core::{Hand, View};
use std::fmt;
use std::marker::Model;

/// A worker's place at the words. A seat that is dropped while it holds something takes its credits along, so no seat
/// sees 0 from then on.
#[derive(Drop)]
pub struct WorkSeat {
    pub(crate) table_seat: TableSeat,
    pub(crate) view: View,
}

impl Model for WorkSeat {
    ghost use Rattle.std.specs.Prelude.{◌≡◌, []};
    ghost use Rattle.label_words.specs.Known.{Held};
    ghost use Rattle.label_words.specs.Seats.{IsTied};

    ghost Value = { Held };

    ghost view = { λ s. record { words = s.table_seat.table_id; known = s.table_seat.me.0 } };

    ghost invariant = { λ s. IsTied s.table_seat.table_id s.table_seat.me.0 s.view × (s.table_seat.me.1 ≡ []) };
}

impl fmt::Debug for WorkSeat {
    fn fmt<W: fmt::Write>(&self, f: &mut fmt::Formatter<W>) -> fmt::Result {
        f.debug_struct("WorkSeat").finish_non_exhaustive()
    }
}

impl WorkSeat {
    /// The vertex, label and mark that it holds.
    pub fn hand(&self) -> Hand
        ensures { result ≡ hand_of self.now }
    {
        self.view.hand
    }

    /// Its part of the pending total, 0 to 255.
    pub fn credits(&self) -> u8
        ensures { result ≡ self.now.known.view.credits }
    {
        self.view.credits
    }

    /// Tells if the seat saw the pending total at 0.
    pub fn saw(&self) -> bool
        ensures { result ≡ self.now.known.view.saw }
    {
        self.view.saw
    }

    /// Its part of the shares of all seats.
    pub fn share(&self) -> u32
        ensures share { result ≡ self.now.known.view.share }
        ensures most { result ≤ SHARES }
    {
        self.view.share
    }
}
