//! A worker's side of a pool of bags.

ghost use Rattle.std.specs.Prelude.{◌≡◌, ◌≤◌, ◌<◌, [], ◌∷◌, None, Some, length, IfNone, IfSome};
ghost use Rattle.std.specs.Bool.{OnFalse, OnTrue};
ghost use Rattle.obim_bags.specs.Logs.{metrics_in};
ghost use Rattle.obim_pool.specs.Orders.{IsAt};
ghost use Rattle.obim_pool.specs.Sides.{IsSideOf, Keeps, PushesTo, PushesNone, Pops, PopsNone, HasLowered};
ghost use Rattle.obim_pool.specs.Sides.{HasLookedBelow};
ghost use Rattle.obim_pool.specs.Sides.{new_side};
ghost use Rattle.obim_pool.specs.Steps.{FindsAllEmpty, PopsLowest, TriesCurrent};

use crate::bags::{catch_up, own_place};
use crate::chunk_maker::ChunkMaker;
use crate::chunks::BagChunks;
use crate::order::OwnBag;
use crate::pop::{pop_at, scan};
use crate::push::push_at;
use crate::recent::Recent;
use crate::worklist::Worklist;
use obim_bags::{BagLog, Mirror};
use std::alloc::Global;
use std::fmt;
use std::marker::Model;
use std::sync::Wait;

/// A worker's side of an `ObimPool`: a mirror of the log, two chunks of each bag, and the current metric.
#[derive(Drop)]
pub struct ObimSide {
    mirror: Mirror,
    chunks: Vec<BagChunks>,
    order: Vec<OwnBag>,
    current: Option<OwnBag>,
    recent: Recent,
    maker: ChunkMaker,
}

impl Model for ObimSide {
    ghost use Rattle.obim_pool.specs.Sides.{SideSeen, current_of, IsSide};
    ghost use Rattle.obim_pool.specs.Held.{all_held};

    ghost Value = { SideSeen };

    ghost view = { λ s. record { mirror = s.mirror; held = all_held s.chunks.items; current = current_of s.current } };

    ghost invariant = { λ s. IsSide s.mirror s.chunks.items s.order.items s.current };
}

impl fmt::Debug for ObimSide {
    fn fmt<W: fmt::Write>(&self, f: &mut fmt::Formatter<W>) -> fmt::Result {
        f.debug_struct("ObimSide").finish_non_exhaustive()
    }
}

impl ObimSide {
    pub(crate) fn new(alloc: Global, mirror: Mirror, maker: ChunkMaker) -> ObimSide
        requires { mirror.accesses ≡ [] }
        ensures { result ≡ new_side mirror.log }
    {
        ObimSide {
            mirror,
            chunks: Vec::new(alloc),
            order: Vec::new(alloc),
            current: None,
            recent: Recent::new(),
            maker,
        }
    }

    pub(crate) fn into_mirror(self) -> Mirror
        ensures { result ≡ self.mirror }
    {
        self.mirror
    }

    pub(crate) fn worklist(&self) -> Worklist {
        let mut looks = 0_u64;
        for place in 0..self.mirror.len() {
            looks = looks.saturating_add(self.mirror.empty_finds_at(place));
        }
        Worklist {
            buckets: self.mirror.len() as u64,
            looks,
            chunks: self.maker.opened(),
        }
    }

    /// Does as `ObimPool::push` without a wait, if the bag is at the remembered place and its chunk has room, as most
    /// pushes find.
    #[inline(always)]
    pub(crate) fn push_near(&mut self, v: u32, metric: u64) -> bool
        ensures keeps { Keeps self.old self.new }
        ensures pushed { OnTrue result (PushesTo metric v self.old self.new) }
        ensures current { OnTrue result (HasLowered metric self.old.current self.new.current) }
        ensures unchanged { OnFalse result (self.new ≡ self.old) }
    {
        let place = self.recent.place_of(metric);
        if place >= self.chunks.len() || self.mirror.metric_at(place) != metric {
            return false;
        }
        if !self.chunks[place].add_unless_last(v) {
            return false;
        }
        self.lower(OwnBag { metric, place });
        true
    }

    #[inline(never)]
    pub(crate) fn push_far<R: Wait>(
        &mut self,
        rt: &R,
        log: &BagLog,
        alloc: Global,
        v: u32,
        metric: u64,
    ) -> bool
        requires { IsSideOf log.now self.old }
        ensures keeps { Keeps self.old self.new }
        ensures pushed { OnTrue result (PushesTo metric v self.old self.new) }
        ensures refused { OnFalse result (PushesNone self.old self.new) }
        ensures current { OnTrue result (HasLowered metric self.old.current self.new.current) }
        ensures unchanged { OnFalse result (self.new.current ≡ self.old.current) }
    {
        let Some(place) = own_place(
            rt,
            log,
            alloc,
            &mut self.mirror,
            &mut self.chunks,
            &mut self.order,
            metric,
        ) else {
            return false;
        };
        self.recent.note(metric, place);
        let pushed = push_at(
            rt,
            log,
            &mut self.maker,
            &mut self.mirror,
            place,
            &mut self.chunks[place],
            v,
        );
        if !pushed {
            return false;
        }
        self.lower(OwnBag { metric, place });
        true
    }

    /// Makes this bag current if none is, or one of a larger metric.
    #[inline(always)]
    fn lower(&mut self, at: OwnBag)
        requires { IsAt (metrics_in self.old.mirror.accesses) (length self.old.held) at }
        ensures mirror { self.new.mirror ≡ self.old.mirror }
        ensures held { self.new.held ≡ self.old.held }
        ensures current { HasLowered at.metric self.old.current self.new.current }
    {
        match self.current {
            Some(current) if current.metric <= at.metric => {}
            _ => self.current = Some(at),
        }
    }

    #[inline(always)]
    pub(crate) fn pop<R: Wait>(&mut self, rt: &R, log: &BagLog, alloc: Global) -> Option<u32>
        requires { IsSideOf log.now self.old }
        ensures keeps { Keeps self.old self.new }
        ensures popped { IfSome result (λ v. Pops v self.old self.new) }
        ensures below { IfSome result (λ v. HasLookedBelow self.old self.new) }
        ensures none { IfNone result (PopsNone self.old self.new) }
    {
        if let Some(v) = self.pop_near() {
            return Some(v);
        }
        self.pop_far(rt, log, alloc)
    }

    /// Does as `pop` without a wait, if the draining chunk has a vertex or the filling one a single vertex, as most
    /// pops find.
    #[inline(always)]
    pub(crate) fn pop_near(&mut self) -> Option<u32>
        ensures keeps { Keeps self.old self.new }
        ensures current { self.new.current ≡ self.old.current }
        ensures popped { IfSome result (λ v. Pops v self.old self.new) }
        ensures unchanged { IfNone result (self.new ≡ self.old) }
    {
        let at = self.current?;
        let v = self.chunks[at.place].take_near(&mut self.maker)?;
        Some(v)
    }

    #[inline(never)]
    fn pop_far<R: Wait>(&mut self, rt: &R, log: &BagLog, alloc: Global) -> Option<u32>
        requires { IsSideOf log.now self.old }
        ensures keeps { Keeps self.old self.new }
        ensures popped { IfSome result (λ v. Pops v self.old self.new) }
        ensures below { IfSome result (λ v. HasLookedBelow self.old self.new) }
        ensures none { IfNone result (PopsNone self.old self.new) }
    {
        match self.pop_current(rt, log) {
            Some(v) => Some(v),
            None => self.pop_lowest(rt, log, alloc),
        }
    }

    #[inline(always)]
    pub(crate) fn ahead(&self, by: usize) -> Option<u32> {
        let at = self.current?;
        self.chunks[at.place].ahead(by)
    }

    #[inline(always)]
    fn pop_current<R: Wait>(&mut self, rt: &R, log: &BagLog) -> Option<u32>
        requires { IsSideOf log.now self.old }
        ensures keeps { Keeps self.old self.new }
        ensures current { self.new.current ≡ self.old.current }
        ensures popped { IfSome result (λ v. Pops v self.old self.new) }
        ensures none { IfNone result (TriesCurrent self.old self.new) }
    {
        match self.current {
            Some(at) => pop_at(
                rt,
                log,
                &mut self.maker,
                &mut self.mirror,
                at.place,
                &mut self.chunks[at.place],
            ),
            None => None,
        }
    }

    /// Takes a vertex out of the lowest bag that gives one, which becomes current.
    #[inline(never)]
    fn pop_lowest<R: Wait>(&mut self, rt: &R, log: &BagLog, alloc: Global) -> Option<u32>
        requires { IsSideOf log.now self.old }
        ensures keeps { Keeps self.old self.new }
        ensures popped { IfSome result (λ v. PopsLowest v self.old self.new) }
        ensures none { IfNone result (FindsAllEmpty self.old self.new) }
    {
        catch_up(
            rt,
            log,
            alloc,
            &mut self.mirror,
            &mut self.chunks,
            &mut self.order,
        );
        let drawn = scan(
            rt,
            log,
            &mut self.maker,
            &mut self.mirror,
            &mut self.chunks,
            &self.order,
        );
        match drawn {
            Some((at, v)) => {
                self.current = Some(at);
                Some(v)
            }
            None => {
                self.current = None;
                None
            }
        }
    }
}

impl Worklist {
    /// The sum of these sides' figures.
    pub fn of(sides: &[ObimSide]) -> Worklist {
        let mut all = Worklist {
            buckets: 0,
            looks: 0,
            chunks: 0,
        };
        for side in sides {
            let one = side.worklist();
            all.buckets = all.buckets.max(one.buckets);
            all.looks = all.looks.saturating_add(one.looks);
            all.chunks = all.chunks.saturating_add(one.chunks);
        }
        all
    }
}
