//! Short searches upward, for walks that meet.

ghost use Rattle.std.specs.Prelude.{◌≡◌, ◌<◌, true, IfOk};
ghost use Rattle.near_labels.specs.UpDown.{HasUpDown};
ghost use Rattle.hierarchy.specs.Checked.{HaveRoom};

use csr_graph::Csr;
use near_labels::SearchSpace;
use route_walks::{INF, Memory};
use std::alloc::Global;
use std::marker::Model;

/// The most vertices that a search visits, and the most arcs that it relaxes.
const VISITS: u32 = 1 << 16;

const ARCS: usize = 1 << 22;

/// Room for searches from both ends.
#[derive(Drop)]
pub(crate) struct Probe {
    forward: SearchSpace,
    backward: SearchSpace,
}

impl Model for Probe {
    ghost use Rattle.std.specs.Prelude.{◌≡◌, ℕ};

    ghost Value = { ℕ };

    ghost view = { λ p. p.forward };

    ghost invariant = { λ p. p.backward ≡ p.forward };
}

impl Probe {
    pub(crate) fn new(alloc: Global, n: u32) -> Result<Probe, Memory>
        ensures { IfOk result (λ probe. probe ≡ n) }
    {
        let forward = SearchSpace::new(alloc, n)?;
        let backward = SearchSpace::new(alloc, n)?;
        Ok(Probe { forward, backward })
    }

    /// Tells if a search finds walks from `u` over `up` and from `v` over `down` that meet, at no more than `most`.
    pub(crate) fn finds(&mut self, up: &Csr, down: &Csr, u: u32, v: u32, most: u64) -> bool
        requires room { HaveRoom self.old up.now down.now }
        requires place { u < self.old }
        requires other { v < self.old }
        ensures room { self.new ≡ self.old }
        ensures met { result ≡ true → HasUpDown up.now.arcs down.now.arcs u v most }
    {
        self.forward.allow(VISITS, ARCS);
        let backward = &mut self.backward;
        match self.forward.cost_above(backward, up, down, u, v, most) {
            Some(cost) => cost <= most && cost < INF,
            None => false,
        }
    }
}
