//! A worker's mirror of the log.

ghost use Rattle.std.specs.Prelude.{◌≡◌, ◌<◌, false, [], Some, length, slice_get, IfNone, IfSome};
ghost use mathlib.Core.List.{IsPrefix};
ghost use Rattle.obim_bags.specs.Indexes.{AreDistinct, IsAlone, Lacks};
ghost use Rattle.obim_bags.specs.Logs.{bags_in, metrics_in};

use crate::access::Access;
use crate::accesses::Accesses;
use crate::log_rule::LogSeat;
use std::fmt;
use std::marker::Model;

/// A worker's copy of the log: of each bag, by place, its metric and this worker's pass. A place is one bag for good.
#[derive(Drop)]
pub struct Mirror {
    pub(crate) seat: LogSeat,
    pub(crate) accesses: Accesses,
}

impl Model for Mirror {
    ghost use Rattle.obim_bags.specs.Logs.{MirrorSeen};
    ghost use Rattle.obim_bags.specs.Mirrors.{IsTied};

    ghost Value = { MirrorSeen };

    ghost view = { λ m. record { log = m.seat.table_id; accesses = m.accesses.list } };

    ghost invariant = { λ m. IsTied m.seat.me m.accesses };
}

impl fmt::Debug for Mirror {
    fn fmt<W: fmt::Write>(&self, f: &mut fmt::Formatter<W>) -> fmt::Result {
        f.debug_struct("Mirror").finish_non_exhaustive()
    }
}

impl Mirror {
    /// The number of its bags.
    #[inline(always)]
    pub fn len(&self) -> usize
        ensures { result ≡ length self.now.accesses }
    {
        self.accesses.len()
    }

    /// The place of a metric's bag, or `None` if the mirror lacks it.
    #[inline(always)]
    pub fn place_of(&self, metric: u64) -> Option<usize>
        ensures at { IfSome result (λ place. IsAlone metric place (metrics_in self.now.accesses)) }
        ensures none { IfNone result (Lacks metric (metrics_in self.now.accesses)) }
        ensures distinct { AreDistinct (metrics_in self.now.accesses) }
    {
        self.accesses.place_of(metric)
    }

    /// The metric of the bag at a place.
    pub fn metric_at(&self, place: usize) -> u64
        requires { place < length self.now.accesses }
        ensures { slice_get (metrics_in self.now.accesses) place ≡ Some result }
    {
        self.accesses.metric_at(place)
    }

    /// The number of times that this worker found the bag at a place empty, modulo 2^64.
    pub fn empty_finds_at(&self, place: usize) -> u64
        requires { place < length self.now.accesses }
        ensures { IfSome (slice_get self.now.accesses place) (λ seen. seen.pass.empties ≡ result) }
    {
        self.accesses.empty_finds_at(place)
    }

    pub(crate) fn into_parts(self) -> (LogSeat, Vec<Access>)
        ensures log { result.0.table_id ≡ self.log }
        ensures accesses { result.1.items ≡ self.accesses }
        ensures slots { result.0.me.1 ≡ [] }
        ensures holds { result.0.me.0.holds ≡ false }
        ensures list { IsPrefix (bags_in self.accesses) result.0.me.0.list }
    {
        let Mirror { seat, accesses } = self;
        (seat, accesses.list)
    }
}
