//! The places of metrics, found by a map.

ghost use Rattle.std.specs.Prelude.{◌≡◌, ◌<◌, ◌++◌, ◌∷◌, ℕ, [], Some, length, slice_get};
ghost use Rattle.std.specs.Prelude.{IfNone, IfSome, OnErr, OnOk};
ghost use Rattle.obim_bags.specs.Indexes.{IsAlone, Lacks};

use route_walks::Memory;
use std::alloc::Global;
use std::collections::HashMap;
use std::marker::Model;

/// The metrics of bags, by place, and a map from metric to place.
#[derive(Drop)]
pub(crate) struct Index {
    metrics: Vec<u64>,
    places: HashMap<u64, usize>,
}

impl Model for Index {
    ghost use Rattle.std.specs.Prelude.{ℕ, List};
    ghost use Rattle.obim_bags.specs.Indexes.{AreIndexed};

    ghost Value = { List ℕ };

    ghost view = { λ i. i.metrics.items };

    ghost invariant = { λ i. AreIndexed i.places i.metrics.items };
}

impl Index {
    pub(crate) fn new(alloc: Global) -> Index
        ensures { result ≡ [] }
    {
        Index {
            metrics: Vec::new(alloc),
            places: HashMap::new(alloc),
        }
    }

    pub(crate) fn len(&self) -> usize
        ensures { result ≡ length self.now }
    {
        self.metrics.len()
    }

    pub(crate) fn metric_at(&self, place: usize) -> u64
        requires { place < length self.now }
        ensures { slice_get self.now place ≡ Some result }
    {
        self.metrics[place]
    }

    #[inline(always)]
    pub(crate) fn place_of(&self, metric: u64) -> Option<usize>
        ensures at { IfSome result (λ place. IsAlone metric place self.now) }
        ensures none { IfNone result (Lacks metric self.now) }
    {
        self.places.get(&metric).copied()
    }

    /// Puts a metric last. Unchanged if memory is refused.
    pub(crate) fn push(&mut self, metric: u64) -> Result<(), Memory>
        requires { Lacks metric self.old }
        ensures last { OnOk result (self.new ≡ self.old ++ metric ∷ []) }
        ensures refused { OnErr result (self.new ≡ self.old) }
    {
        self.metrics.reserve(1)?;
        self.places.insert(metric, self.metrics.len())?;
        self.metrics.push_reserved(metric);
        Ok(())
    }
}
