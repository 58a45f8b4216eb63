//! The words with which a run begins.

ghost use Rattle.std.specs.Prelude.{◌≡◌, All, IfOk, IfSome};
ghost use Rattle.std.proofs.Props.{props};
ghost use Rattle.route_walks.specs.Operators.{seeds_of};
ghost use Rattle.route_walks.specs.Walk.{AreSeeds};
ghost use Rattle.relax_core.specs.declared.views.TheConstants.{SHARES};
ghost use Rattle.label_words.specs.Known.{first_known};
ghost use Rattle.label_words.specs.Paused.{CanGoOn};

use csr_graph::Csr;
use label_words::{Paused, Words, WorkSeat};
use route_walks::{Memory, Seed};
use std::alloc::Global;

/// Open words, before the workers start.
#[derive(Drop)]
pub(crate) struct Opened {
    pub words: Words,
    /// The seat with all shares.
    pub seat: WorkSeat,
    /// The one seeded vertex, if there are no others.
    pub only: Option<u32>,
    ghost words_are: { seat.words ≡ words },
    ghost shares: { seat.known.view.share ≡ SHARES },
    ghost seeds_are: { AreSeeds seat.known.graph.n seat.known.seeds } by { Prim.hlevel props },
    ghost only_is: { IfSome only (λ v. All (λ seed. seed.vertex ≡ v) seat.known.seeds) } by { Prim.hlevel props },
}

impl Opened {
    pub(crate) fn from_seeds(alloc: Global, csr: &Csr, seeds: &[Seed]) -> Result<Opened, Memory>
        requires { AreSeeds csr.now.n seeds.now }
        ensures { IfOk result (λ opened. opened.seat.known ≡ first_known csr.now seeds.now) }
    {
        let (words, seat) = Words::open(alloc, csr, seeds)?;
        let only = only_seeded(seeds);
        Ok(Opened { words, seat, only })
    }

    /// Words with the labels and marks of a pause, which is dropped.
    pub(crate) fn from_pause(alloc: Global, csr: &Csr, rest: Paused) -> Result<Opened, Memory>
        requires { CanGoOn csr.now rest }
        ensures { IfOk result (λ opened. opened.seat.known ≡ first_known csr.now (seeds_of rest.labels)) }
    {
        let (words, seat) = Words::reopen(alloc, csr, &rest)?;
        drop(rest);
        Ok(Opened {
            words,
            seat,
            only: None,
        })
    }
}

fn only_seeded(seeds: &[Seed]) -> Option<u32>
    ensures { IfSome result (λ v. All (λ seed. seed.vertex ≡ v) seeds.now) }
{
    match seeds {
        [seed] => Some(seed.vertex),
        _ => None,
    }
}
