//! The knowledge that each kind of step gives the seat that takes it.

use crate::known::Known;
use atomic_table::{Join, Play, Split};

pub(crate) struct Takes;

impl Play<(), Known> for Takes {
    ghost use Rattle.std.specs.Prelude.{◌≡◌, ℕ, nat_lt};
    ghost use Rattle.label_words.specs.Layout.{mark_word};
    ghost use Rattle.label_words.specs.Known.{after_take};
    ghost use Rattle.label_words.specs.Seats.{IsReady};

    ghost then = { λ step old found new.
        ((u : ℕ) → step.word ≡ mark_word u → new ≡ (after_take (nat_lt 0 found) u old.0, old.1))
        × IsReady new.0 };
}

pub(crate) struct Reads;

impl Play<(), Known> for Reads {
    ghost use Rattle.std.specs.Prelude.{◌≡◌};
    ghost use Rattle.label_words.specs.Known.{after_read, IsFound};
    ghost use Rattle.label_words.specs.Seats.{IsReady};

    ghost then = { λ step old found new.
        (new ≡ (after_read found old.0, old.1)) × IsReady new.0 × IsFound old.0 found };
}

pub(crate) struct Relaxes;

impl Play<(), Known> for Relaxes {
    ghost use Rattle.std.specs.Prelude.{◌≡◌, ◌<◌, nat_lt};
    ghost use Rattle.relax_core.specs.Views.{next_offer};
    ghost use Rattle.label_words.specs.Known.{after_relax, OfferAttains};
    ghost use Rattle.label_words.specs.Seats.{IsReady};

    ghost then = { λ step old found new.
        (new ≡ (after_relax (nat_lt (next_offer old.0.graph old.0.view.hand) found) old.0, old.1))
        × IsReady new.0
        × (next_offer old.0.graph old.0.view.hand < found → OfferAttains old.0) };
}

pub(crate) struct Raises;

impl Play<(), Known> for Raises {
    ghost use Rattle.std.specs.Prelude.{◌≡◌};
    ghost use Rattle.label_words.specs.Known.{after_raise};
    ghost use Rattle.label_words.specs.Seats.{IsReady};

    ghost then = { λ step old found new. (new ≡ (after_raise old.0, old.1)) × IsReady new.0 };
}

pub(crate) struct RaisesBy;

impl Play<(), Known> for RaisesBy {
    ghost use Rattle.std.specs.Prelude.{◌≡◌};
    ghost use Rattle.label_words.specs.Known.{after_raise_by};
    ghost use Rattle.label_words.specs.Seats.{IsReady};

    ghost then = { λ step old found new.
        (new ≡ (after_raise_by step.first old.0, old.1)) × IsReady new.0 };
}

pub(crate) struct SetsMark;

impl Play<(), Known> for SetsMark {
    ghost use Rattle.std.specs.Prelude.{◌≡◌, nat_lt};
    ghost use Rattle.label_words.specs.Known.{after_set_mark};
    ghost use Rattle.label_words.specs.Seats.{IsReady};

    ghost then = { λ step old found new.
        (new ≡ (after_set_mark (nat_lt 0 found) old.0, old.1)) × IsReady new.0 };
}

pub(crate) struct Finishes;

impl Play<(), Known> for Finishes {
    ghost use Rattle.std.specs.Prelude.{◌≡◌};
    ghost use Rattle.label_words.specs.Known.{after_finish};
    ghost use Rattle.label_words.specs.Seats.{IsReady};

    ghost then = { λ step old found new. (new ≡ (after_finish old.0, old.1)) × IsReady new.0 };
}

pub(crate) struct Keeps;

impl Play<(), Known> for Keeps {
    ghost use Rattle.std.specs.Prelude.{◌≡◌};
    ghost use Rattle.label_words.specs.Known.{after_keep};
    ghost use Rattle.label_words.specs.Seats.{IsReady};

    ghost then = { λ step old found new. (new ≡ (after_keep old.0, old.1)) × IsReady new.0 };
}

pub(crate) struct GivesBack;

impl Play<(), Known> for GivesBack {
    ghost use Rattle.std.specs.Prelude.{◌≡◌};
    ghost use Rattle.label_words.specs.Known.{after_give_back};
    ghost use Rattle.label_words.specs.Seats.{IsReady};

    ghost then = { λ step old found new.
        (new ≡ (after_give_back step.first old.0, old.1)) × IsReady new.0 };
}

pub(crate) struct Sees;

impl Play<(), Known> for Sees {
    ghost use Rattle.std.specs.Prelude.{◌≡◌, ◌==◌};
    ghost use Rattle.label_words.specs.Known.{after_see};
    ghost use Rattle.label_words.specs.Rule.{SeesLawful};
    ghost use Rattle.label_words.specs.Seats.{IsReady};

    ghost then = { λ step old found new.
        (new ≡ (after_see (found == 0) old.0, old.1)) × IsReady new.0 × SeesLawful (found == 0) new.0 };
}

pub(crate) struct SplitsOrJoins;

impl Split<Known> for SplitsOrJoins {
    ghost use Rattle.label_words.specs.Known.{left_half, right_half};

    ghost left = { left_half };

    ghost right = { right_half };
}

impl Join<Known> for SplitsOrJoins {
    ghost use Rattle.label_words.specs.Known.{both_known, gone};

    ghost both = { both_known };

    ghost spent = { gone };
}
