//! Pools of callers.

ghost use Rattle.std.specs.Prelude.{◌≡◌, length, IfOk, ⊤};

use obim_pool::WorkPool;
use route_walks::Memory;
use std::alloc::Global;
use std::collections::VecDeque;
use std::sync::{Mutex, Wait};

/// Gives the first pushed first, to one worker.
pub(crate) struct FirstIn;

/// The pushes in order, and those of their vertices that wait.
#[derive(Drop)]
pub(crate) struct Queue {
    pub pushes: Vec<(u32, u64)>,
    waiting: VecDeque<u32>,
}

impl FirstIn {
    pub fn sides(alloc: Global) -> Result<Vec<Queue>, Memory>
        ensures { IfOk result (λ sides. length sides.items ≡ 1) }
    {
        let queue = Queue {
            pushes: Vec::new(alloc),
            waiting: VecDeque::new(alloc),
        };
        Ok(vec![in alloc; queue]?)
    }
}

impl WorkPool for FirstIn {
    type Side = Queue;

    ghost is_side = { λ _ _. ⊤ };

    fn push<H: Wait>(&self, _rt: &H, side: &mut Queue, v: u32, metric: u64) -> bool {
        side.pushes.push((v, metric)).is_ok() && side.waiting.push_back(v).is_ok()
    }

    fn pop<H: Wait>(&self, _rt: &H, side: &mut Queue) -> Option<u32> {
        side.waiting.pop_front()
    }
}

/// Gives the first pushed first, but the very first `times` times, to one worker.
#[derive(Drop)]
pub(crate) struct Repeating {
    pub times: u32,
}

/// The vertices that wait, and how often the first was given.
#[derive(Drop)]
pub(crate) struct Repeated {
    waiting: VecDeque<u32>,
    given: u32,
}

impl Repeating {
    pub fn sides(alloc: Global) -> Result<Vec<Repeated>, Memory>
        ensures { IfOk result (λ sides. length sides.items ≡ 1) }
    {
        let waiting = VecDeque::new(alloc);
        let repeated = Repeated { waiting, given: 0 };
        Ok(vec![in alloc; repeated]?)
    }
}

impl WorkPool for Repeating {
    type Side = Repeated;

    ghost is_side = { λ _ _. ⊤ };

    fn push<H: Wait>(&self, _rt: &H, side: &mut Repeated, v: u32, _metric: u64) -> bool {
        side.waiting.push_back(v).is_ok()
    }

    fn pop<H: Wait>(&self, _rt: &H, side: &mut Repeated) -> Option<u32> {
        if side.given < self.times {
            side.given = side.given.saturating_add(1);
            return side.waiting.front().copied();
        }
        side.waiting.pop_front()
    }
}

/// Drops a vertex that waits already, gives each twice, and now and then one that nobody pushed.
#[derive(Drop)]
pub(crate) struct Misleading {
    waiting: Mutex<Vec<u32>>,
}

#[derive(Clone, Copy)]
pub(crate) struct Misled {
    again: Option<u32>,
    turn: u32,
}

impl Misleading {
    pub fn open(alloc: Global, workers: u32) -> Result<(Misleading, Vec<Misled>), Memory>
        ensures { IfOk result (λ opened. length opened.1.items ≡ workers) }
    {
        let side = Misled {
            again: None,
            turn: 0,
        };
        let sides = vec![in alloc; side; workers as usize]?;
        let waiting = Mutex::new(Vec::new(alloc));
        Ok((Misleading { waiting }, sides))
    }
}

impl WorkPool for Misleading {
    type Side = Misled;

    ghost is_side = { λ _ _. ⊤ };

    fn push<H: Wait>(&self, rt: &H, _side: &mut Misled, v: u32, _metric: u64) -> bool {
        let mut waiting = self.waiting.lock(rt);
        waiting.contains(&v) || waiting.push(v).is_ok()
    }

    fn pop<H: Wait>(&self, rt: &H, side: &mut Misled) -> Option<u32> {
        side.turn = side.turn.wrapping_add(1);
        if side.turn % 3 == 0 {
            return Some(side.turn % 8);
        }
        match side.again.take() {
            Some(v) => Some(v),
            None => {
                side.again = self.waiting.lock(rt).pop();
                side.again
            }
        }
    }
}

/// Keeps nothing, and always draws the same.
#[derive(Clone, Copy)]
pub(crate) struct Useless {
    pub accepts: bool,
    pub gives: Option<u32>,
}

#[derive(Clone, Copy)]
pub(crate) struct Unused(u8);

impl Useless {
    pub fn sides(alloc: Global, workers: u32) -> Result<Vec<Unused>, Memory>
        ensures { IfOk result (λ sides. length sides.items ≡ workers) }
    {
        Ok(vec![in alloc; Unused(0); workers as usize]?)
    }
}

impl WorkPool for Useless {
    type Side = Unused;

    ghost is_side = { λ _ _. ⊤ };

    fn push<H: Wait>(&self, _rt: &H, _side: &mut Unused, _v: u32, _metric: u64) -> bool {
        self.accepts
    }

    fn pop<H: Wait>(&self, _rt: &H, _side: &mut Unused) -> Option<u32> {
        self.gives
    }
}
