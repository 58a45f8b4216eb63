//! A pool that does at random all that a pool may do.

ghost use Rattle.std.specs.Prelude.{◌≡◌, length, IfOk, ⊤};

use crate::runs::draws::Draws;
use obim_pool::WorkPool;
use route_walks::Memory;
use std::alloc::Global;
use std::sync::{Mutex, Wait};

/// Drops, refuses, repeats and invents vertices, swaps those of sides, and hints at some that there are not.
#[derive(Drop)]
pub(crate) struct Hostile {
    lists: Vec<Mutex<Vec<u32>>>,
}

/// A side: the number of its list, and the vertex that it gave last.
#[derive(Clone, Copy)]
pub(crate) struct HostileSide {
    number: u32,
    last: Option<u32>,
    draws: Draws,
}

impl Hostile {
    pub fn open(
        alloc: Global,
        workers: u32,
        mut draws: Draws,
    ) -> Result<(Hostile, Vec<HostileSide>), Memory>
        ensures { IfOk result (λ opened. length opened.1.items ≡ workers) }
    {
        let mut lists = Vec::with_capacity(alloc, workers as usize)?;
        let mut sides = Vec::with_capacity(alloc, workers as usize)?;
        for number in 0..workers {
            lists.push(Mutex::new(Vec::new(alloc)))?;
            sides.push(HostileSide {
                number,
                last: None,
                draws: draws.other(),
            })?;
        }
        Ok((Hostile { lists }, sides))
    }

    /// Keeps a vertex `times` times in a side's list, if there is memory.
    fn keep<H: Wait>(&self, rt: &H, number: u32, v: u32, times: u32) -> bool {
        let Some(list) = self.lists.get(number as usize) else {
            return false;
        };
        let mut list = list.lock(rt);
        (0..times).all(|_| list.push(v).is_ok())
    }

    fn last_of<H: Wait>(&self, rt: &H, number: u32) -> Option<u32> {
        self.lists.get(number as usize)?.lock(rt).pop()
    }
}

impl WorkPool for Hostile {
    type Side = HostileSide;

    ghost is_side = { λ _ _. ⊤ };

    fn push<H: Wait>(&self, rt: &H, side: &mut HostileSide, v: u32, _metric: u64) -> bool {
        match side.draws.below(8) {
            0 => true,
            1 => false,
            2 => self.keep(rt, side.number, v, 3),
            _ => self.keep(rt, side.number, v, 1),
        }
    }

    fn pop<H: Wait>(&self, rt: &H, side: &mut HostileSide) -> Option<u32> {
        let given = match side.draws.below(8) {
            0 => None,
            1 => Some(side.draws.below(4096)),
            2 => Some(u32::MAX),
            3 => side.last,
            4 => self.last_of(rt, side.draws.below(8)),
            _ => self.last_of(rt, side.number),
        };
        side.last = given;
        given
    }

    fn ahead(&self, side: &HostileSide, by: usize) -> Option<u32> {
        if by == 1 { side.last } else { Some(u32::MAX) }
    }
}
