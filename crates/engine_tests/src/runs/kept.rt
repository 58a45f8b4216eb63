//! Runs that must end though workers keep credits: a worker is held in its pop, budgets are spent, or a sweep has to
//! find what was lost.

ghost use Rattle.std.specs.Prelude.{◌≡◌, length, IfOk, ⊤};

use crate::runs::graphs::star;
use crate::runs::pieces::{Kind, Piece, Plan, settle};
use crate::runs::settings;
use crate::runs::yielding::Yielding;
use obim_engine::run;
use obim_pool::WorkPool;
use route_walks::{EXAMPLE_SEEDS, Memory};
use std::alloc::Global;
use std::sync::atomic::{AtomicU64, Ordering};
use std::sync::{Mutex, Wait};
use std::test::Fail;
use std::thread::yield_now;

/// The most turns for which a worker is held.
const TURNS: u32 = 1_000;

/// The fruitless pops of others until which a worker is held.
const POPS: u64 = 8;

/// Gives what was pushed last to whoever asks first. A worker that finds nothing after a visit keeps credits, and is
/// held until others have found no vertices and looked at the total. One worker at least isn't held.
#[derive(Drop)]
struct HoldsInPop {
    waiting: Mutex<Vec<u32>>,
    /// The number of workers that aren't held.
    free: AtomicU64,
    /// The fruitless pops of these.
    in_vain: AtomicU64,
}

/// True if the last pop gave a vertex.
#[derive(Clone, Copy)]
struct Asking(bool);

impl HoldsInPop {
    fn open(alloc: Global, workers: u32) -> Result<(HoldsInPop, Vec<Asking>), Memory>
        ensures { IfOk result (λ opened. length opened.1.items ≡ workers) }
    {
        let sides = vec![in alloc; Asking(false); workers as usize]?;
        let waiting = Mutex::new(Vec::new(alloc));
        let pool = HoldsInPop {
            waiting,
            free: AtomicU64::new(u64::from(workers)),
            in_vain: AtomicU64::new(0),
        };
        Ok((pool, sides))
    }

    /// Holds a worker, unless all others are held.
    fn hold(&self) {
        let before = self.in_vain.load(Ordering::SeqCst);
        if self.free.fetch_sub(1, Ordering::SeqCst) > 1 {
            for _ in 0..TURNS {
                if self.in_vain.load(Ordering::SeqCst) >= before.saturating_add(POPS) {
                    break;
                }
                yield_now();
            }
        }
        self.free.fetch_add(1, Ordering::SeqCst);
    }
}

impl WorkPool for HoldsInPop {
    type Side = Asking;

    ghost is_side = { λ _ _. ⊤ };

    fn push<H: Wait>(&self, rt: &H, _side: &mut Asking, v: u32, _metric: u64) -> bool {
        self.waiting.lock(rt).push(v).is_ok()
    }

    fn pop<H: Wait>(&self, rt: &H, side: &mut Asking) -> Option<u32> {
        let found = self.waiting.lock(rt).pop();
        if found.is_none() && side.0 {
            self.hold();
        } else if found.is_none() {
            self.in_vain.fetch_add(1, Ordering::SeqCst);
        }
        side.0 = found.is_some();
        found
    }
}

// The star has more leaves than a worker keeps credits.
#[test]
fn a_worker_that_keeps_credits_is_held(rt: HostRuntime) -> Result<(), Fail> {
    let (alloc, seeds) = (rt.alloc(), EXAMPLE_SEEDS);
    let csr = star(&rt, alloc, 300, 1)?;
    for workers in 1..9_u32 {
        let (pool, mut sides) = HoldsInPop::open(alloc, workers)?;
        let gate = Yielding::new(u64::from(workers));
        let settings = settings(&rt, workers, 0, false);
        run(
            &rt, alloc, &csr, &seeds, &settings, &pool, &mut sides, &gate,
        )?;
    }
    Ok(())
}

/// Pools and budgets. With a budget of 1 a worker leaves after each visit, with credits if that was of vertex 0.
const PIECES: &[(Kind, u64)] = &[
    (Kind::Obim, u64::MAX),
    (Kind::Obim, 1),
    (Kind::Widening, 130),
    (Kind::Misleading, 7),
    (Kind::Useless(false, None), 40),
    (Kind::Useless(true, None), u64::MAX),
    (Kind::Useless(true, Some(0)), u64::MAX),
];

#[test]
fn pieces_that_end_with_kept_credits(rt: HostRuntime) -> Result<(), Fail> {
    let alloc = rt.alloc();
    let csr = star(&rt, alloc, 300, 1)?;
    for workers in [1, 2, 4, 8] {
        for &(kind, budget) in PIECES {
            let settings = settings(&rt, workers, 0, false);
            let mut plan = Plan::Same(Piece {
                settings,
                kind,
                budget,
            });
            settle(&rt, alloc, &csr, &EXAMPLE_SEEDS, None, &mut plan)?;
        }
    }
    Ok(())
}
