//! The changes of a core by each event.

ghost use Rattle.std.specs.Prelude.{◌≡◌, ◌↔◌, ◌<◌, None, Some, List, length};
ghost use Rattle.std.specs.Prelude.{IfOk, IfSome, IsSome, OnErr, OnOk};
ghost use Rattle.route_walks.specs.declared.graph.Seed.{Seed};
ghost use Rattle.relax_core.specs.Events.{IsDone, IsSplit, after, live_view};
ghost use Rattle.relax_core.specs.State.{IsLawful, IsOf};

use crate::events::Event;
use crate::state::Core;
use crate::views::{Hand, View};
use csr_graph::{Csr, Target};
use route_walks::{Memory, offer};
use std::alloc::Global;
use std::error::Error;
use std::fmt;

/// The reason why an event wasn't done. The core is unchanged.
#[derive(Clone, Copy, Debug, PartialEq, Eq)]
pub enum CoreFault {
    /// The event isn't enabled.
    NotEnabled,
    /// There was no memory for the new seat of a `Split`.
    Memory,
}

impl fmt::Display for CoreFault {
    fn fmt<W: fmt::Write>(&self, f: &mut fmt::Formatter<W>) -> fmt::Result {
        match self {
            CoreFault::NotEnabled => f.write_str("the event is not enabled"),
            CoreFault::Memory => f.write_str("out of memory"),
        }
    }
}

impl Error for CoreFault {}

impl Core {
    // The view of a seat that isn't spent.
    fn live(&self, seat: usize) -> Option<View>
        ensures view { result ≡ live_view self.now.views seat }
        ensures place { IfSome result (λ view. seat < length self.now.views) }
    {
        match self.views.get(seat) {
            Some(view) if view.share != 0 => Some(*view),
            _ => None,
        }
    }

    fn take(&mut self, csr: &Csr, seat: usize, u: u32) -> bool
        requires { IsOf csr.now self.old }
        ensures { IsDone csr.now self.old (Event.Take seat u) result self.new }
    {
        let Some(mut view) = self.live(seat) else {
            return false;
        };
        let (Hand::Idle | Hand::Kept) = view.hand else {
            return false;
        };
        if u >= csr.n() {
            return false;
        }
        let was_marked = self.marks[u as usize];
        self.marks[u as usize] = false;
        view.take(was_marked, u);
        self.views[seat] = view;
        true
    }

    fn read(&mut self, csr: &Csr, seat: usize) -> bool
        requires { IsOf csr.now self.old }
        ensures { IsDone csr.now self.old (Event.Read seat) result self.new }
    {
        let Some(mut view) = self.live(seat) else {
            return false;
        };
        let Hand::Fresh { u } = view.hand else {
            return false;
        };
        view.read(self.label(u), csr.first(u));
        self.views[seat] = view;
        true
    }

    fn relax(&mut self, csr: &Csr, seat: usize) -> bool
        requires { IsOf csr.now self.old }
        ensures { IsDone csr.now self.old (Event.Relax seat) result self.new }
    {
        let Some(mut view) = self.live(seat) else {
            return false;
        };
        let Hand::Open { u, d, k } = view.hand else {
            return false;
        };
        if k >= csr.end(u) {
            return false;
        }
        let Target { head, weight } = csr.target(k);
        let label = offer(d, weight);
        let found = self.label(head);
        self.labels[head as usize] = found.min(label);
        view.relax(label < found, u, d, k, head);
        self.views[seat] = view;
        true
    }

    fn raise(&mut self, csr: &Csr, seat: usize) -> bool
        requires { IsOf csr.now self.old }
        ensures { IsDone csr.now self.old (Event.Raise seat) result self.new }
    {
        let Some(mut view) = self.live(seat) else {
            return false;
        };
        let Hand::Owe { .. } = view.hand else {
            return false;
        };
        if view.credits != 1 {
            return false;
        }
        self.total += 1;
        view.raise();
        self.views[seat] = view;
        true
    }

    fn raise_by(&mut self, csr: &Csr, seat: usize, count: u8) -> bool
        requires { IsOf csr.now self.old }
        ensures { IsDone csr.now self.old (Event.RaiseBy seat count) result self.new }
    {
        let Some(mut view) = self.live(seat) else {
            return false;
        };
        let Hand::Owe { .. } = view.hand else {
            return false;
        };
        if count > 255 - view.credits {
            return false;
        }
        self.total += u64::from(count);
        view.raise_by(count);
        self.views[seat] = view;
        true
    }

    fn set_mark(&mut self, csr: &Csr, seat: usize) -> bool
        requires { IsOf csr.now self.old }
        ensures { IsDone csr.now self.old (Event.SetMark seat) result self.new }
    {
        let Some(mut view) = self.live(seat) else {
            return false;
        };
        let Hand::Owe { u, d, k, head } = view.hand else {
            return false;
        };
        if view.credits < 2 {
            return false;
        }
        let was_marked = self.marks[head as usize];
        self.marks[head as usize] = true;
        view.set_mark(was_marked, u, d, k);
        self.views[seat] = view;
        true
    }

    fn finish(&mut self, csr: &Csr, seat: usize) -> bool
        requires { IsOf csr.now self.old }
        ensures { IsDone csr.now self.old (Event.Finish seat) result self.new }
    {
        let Some(mut view) = self.live(seat) else {
            return false;
        };
        let Hand::Open { u, k, .. } = view.hand else {
            return false;
        };
        if k != csr.end(u) {
            return false;
        }
        self.total -= u64::from(view.credits);
        view.finish();
        self.views[seat] = view;
        true
    }

    fn keep(&mut self, csr: &Csr, seat: usize) -> bool
        requires { IsOf csr.now self.old }
        ensures { IsDone csr.now self.old (Event.Keep seat) result self.new }
    {
        let Some(mut view) = self.live(seat) else {
            return false;
        };
        let Hand::Open { u, k, .. } = view.hand else {
            return false;
        };
        if k != csr.end(u) || view.credits > 254 {
            return false;
        }
        view.keep();
        self.views[seat] = view;
        true
    }

    fn give_back(&mut self, csr: &Csr, seat: usize, count: u8) -> bool
        requires { IsOf csr.now self.old }
        ensures { IsDone csr.now self.old (Event.Return seat count) result self.new }
    {
        let Some(mut view) = self.live(seat) else {
            return false;
        };
        let Hand::Kept = view.hand else {
            return false;
        };
        if count > view.credits {
            return false;
        }
        self.total -= u64::from(count);
        view.give_back(count);
        self.views[seat] = view;
        true
    }

    fn see(&mut self, csr: &Csr, seat: usize) -> bool
        requires { IsOf csr.now self.old }
        ensures { IsDone csr.now self.old (Event.See seat) result self.new }
    {
        let Some(mut view) = self.live(seat) else {
            return false;
        };
        let Hand::Idle = view.hand else {
            return false;
        };
        view.see(self.total == 0);
        self.views[seat] = view;
        true
    }

    fn split(&mut self, csr: &Csr, seat: usize) -> Result<bool, Memory>
        requires { IsOf csr.now self.old }
        ensures step { IfOk result (λ done. IsDone csr.now self.old (Event.Split seat) done self.new) }
        ensures refused { OnErr result (IsSome (after csr.now self.old (Event.Split seat))
            × (self.new ≡ self.old)) }
    {
        let Some(mut view) = self.live(seat) else {
            return Ok(false);
        };
        let Hand::Idle = view.hand else {
            return Ok(false);
        };
        if view.share < 2 {
            return Ok(false);
        }
        let new = view.split();
        self.views.push(new)?;
        self.views[seat] = view;
        Ok(true)
    }

    fn join(&mut self, csr: &Csr, seat: usize, other: usize) -> bool
        requires { IsOf csr.now self.old }
        ensures { IsDone csr.now self.old (Event.Join seat other) result self.new }
    {
        if seat == other {
            return false;
        }
        let Some(mut view) = self.live(seat) else {
            return false;
        };
        let Some(gone) = self.live(other) else {
            return false;
        };
        let (Hand::Idle, Hand::Idle) = (view.hand, gone.hand) else {
            return false;
        };
        view.join(gone);
        self.views[seat] = view;
        self.views[other] = View::idle(0);
        true
    }

    // Does an event, and returns whether it was enabled; an enabled `Split` may find no memory.
    fn step(&mut self, csr: &Csr, event: Event) -> Result<bool, Memory>
        requires { IsOf csr.now self.old }
        ensures step { IfOk result (λ done. IsDone csr.now self.old event done self.new) }
        ensures refused { OnErr result (IsSplit event
            × IsSome (after csr.now self.old event)
            × (self.new ≡ self.old)) }
    {
        match event {
            Event::Take(seat, u) => Ok(self.take(csr, seat, u)),
            Event::Read(seat) => Ok(self.read(csr, seat)),
            Event::Relax(seat) => Ok(self.relax(csr, seat)),
            Event::Raise(seat) => Ok(self.raise(csr, seat)),
            Event::RaiseBy(seat, count) => Ok(self.raise_by(csr, seat, count)),
            Event::SetMark(seat) => Ok(self.set_mark(csr, seat)),
            Event::Finish(seat) => Ok(self.finish(csr, seat)),
            Event::Keep(seat) => Ok(self.keep(csr, seat)),
            Event::Return(seat, count) => Ok(self.give_back(csr, seat, count)),
            Event::See(seat) => Ok(self.see(csr, seat)),
            Event::Split(seat) => self.split(csr, seat),
            Event::Join(seat, other) => Ok(self.join(csr, seat, other)),
        }
    }
}

/// Does an event if it is enabled. On an error the core stays as it was.
pub fn apply(_alloc: Global, core: &mut Core, csr: &Csr, event: Event) -> Result<(), CoreFault>
    requires { IsOf csr.now core.old }
    ensures done { OnOk result (after csr.now core.old event ≡ Some core.new) }
    ensures not_enabled { (result ≡ Err CoreFault.NotEnabled) ↔ (after csr.now core.old event ≡ None) }
    ensures memory_only_at_split { result ≡ Err CoreFault.Memory → IsSplit event }
    ensures unchanged { OnErr result (core.new ≡ core.old) }
    ensures lawful { (seeds : List Seed)
        → IsLawful csr.now seeds core.old
        → IsLawful csr.now seeds core.new }
    ensures belongs { IsOf csr.now core.new }
{
    match core.step(csr, event) {
        Ok(true) => Ok(()),
        Ok(false) => Err(CoreFault::NotEnabled),
        Err(Memory) => Err(CoreFault::Memory),
    }
}
