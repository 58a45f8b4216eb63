//! The knowledge of a log's seats, the rule of its table, and its four kinds of step.

use crate::bag::Bag;
use crate::entries::Entries;
use atomic_table::{Join, Play, Seat, Table, TableRule};
use std::alloc::Global;
use std::collections::LinkedList;

/// The bags that a seat saw, those that seats joined into it saw, and if it holds the slot. No value of it is made.
pub struct LogKnown {
    pub list: LinkedList<Bag>,
    pub others: LinkedList<LinkedList<Bag>>,
    pub holds: bool,
}

pub(crate) struct LogRule;

impl TableRule<Entries, LogKnown, ()> for LogRule {
    ghost use Rattle.obim_bags.specs.LogRule.{IsLog, new_known};
    ghost use Rattle.obim_bags.specs.Entries.{bags_of};

    ghost holds = { λ _ state. IsLog bags_of state.words state.homes state.views };

    ghost first = { λ _. new_known };
}

pub(crate) type LogTable = Table<Entries, LogKnown, (), LogRule, Global>;

pub(crate) type LogSeat = Seat<Entries, LogKnown>;

// The word becomes 1. If it was 0 the seat takes the slot, and its list becomes the whole list.
pub(crate) struct Acquires;

impl Play<Entries, LogKnown> for Acquires {
    ghost use Rattle.obim_bags.specs.Entries.{bags_of};
    ghost use Rattle.obim_bags.specs.LogRule.{MayTake};

    ghost then = { λ step old found new. MayTake bags_of old found new };
}

// The word becomes 0, and the seat gives back the slot, whose list it knows.
pub(crate) struct Releases;

impl Play<Entries, LogKnown> for Releases {
    ghost use Rattle.obim_bags.specs.Entries.{bags_of};
    ghost use Rattle.obim_bags.specs.LogRule.{GivesBack};

    ghost then = { λ step old found new. GivesBack bags_of old new };
}

// A new mirror's seat, which saw nothing.
pub(crate) struct OpensSeat;

impl Play<Entries, LogKnown> for OpensSeat {
    ghost use Rattle.std.specs.Prelude.{◌≡◌};
    ghost use Rattle.obim_bags.specs.LogRule.{new_known};

    ghost then = { λ step old found new. new.0 ≡ new_known };
}

pub(crate) struct JoinsSeats;

impl Join<LogKnown> for JoinsSeats {
    ghost use Rattle.obim_bags.specs.LogRule.{joined_known, new_known};

    ghost both = { joined_known };

    ghost spent = { new_known };
}
