//! A bag of the log and one worker's pass of it.

ghost use Rattle.std.specs.Prelude.{◌≡◌, ◌≢◌, []};
ghost use Rattle.std.specs.Prelude.{IfErr, IfNone, IfSome, OnErr, OnOk};
ghost use Rattle.std.specs.Bool.{OnFalse, OnTrue};
ghost use Rattle.obim_bags.specs.BagRule.{WasEmptyIfAlone};
ghost use Rattle.obim_bags.specs.Bags.{IsPassOf};
ghost use Rattle.obim_bags.specs.Logs.{AccessSeen, access_after_put, access_after_get, access_after_empty_find};

use crate::bag::Bag;
use crate::chunk::Chunk;
use crate::passes::BagPass;
use std::marker::Model;
use std::sync::{Arc, Wait};

#[derive(Drop)]
pub(crate) struct Access {
    bag: Arc<Bag>,
    pass: BagPass,
}

impl Model for Access {
    ghost use Rattle.obim_bags.specs.Bags.{IsPassOf};
    ghost use Rattle.obim_bags.specs.Logs.{AccessSeen};

    ghost Value = { AccessSeen };

    ghost view = { λ p. record { bag = p.bag.value; pass = p.pass } };

    ghost invariant = { λ p. IsPassOf p.bag.value p.pass };
}

impl Access {
    pub(crate) fn new(bag: Arc<Bag>, pass: BagPass) -> Access
        requires { IsPassOf bag.value pass }
        ensures { result ≡ record { bag = bag.value; pass = pass } }
    {
        Access { bag, pass }
    }

    pub(crate) fn into_pass(self) -> BagPass
        ensures pass { result ≡ self.pass }
        ensures of_bag { IsPassOf self.bag result }
    {
        self.pass
    }

    pub(crate) fn empty_finds(&self) -> u64
        ensures { result ≡ self.now.pass.empties }
    {
        self.pass.empties
    }

    #[inline(always)]
    pub(crate) fn put_boxed<R: Wait>(&mut self, rt: &R, chunk: Box<Chunk>) -> Result<(), Box<Chunk>>
        requires { chunk.value.vertices ≢ [] }
        ensures put { OnOk result (self.new ≡ access_after_put chunk.value self.old) }
        ensures returned { IfErr result (λ back. back ≡ chunk) }
        ensures refused { OnErr result (self.new ≡ self.old) }
        ensures bag { self.new.bag ≡ self.old.bag }
    {
        self.bag.put_boxed(rt, &mut self.pass, chunk)
    }

    #[inline(always)]
    pub(crate) fn get_boxed<R: Wait>(&mut self, rt: &R) -> Option<Box<Chunk>>
        ensures got { IfSome result (λ chunk. self.new ≡ access_after_get chunk.value self.old) }
        ensures filled { IfSome result (λ chunk. chunk.value.vertices ≢ []) }
        ensures found_empty { IfNone result (self.new ≡ access_after_empty_find self.old) }
        ensures alone { IfNone result (WasEmptyIfAlone self.old.pass.tally) }
        ensures bag { self.new.bag ≡ self.old.bag }
    {
        self.bag.get_boxed(rt, &mut self.pass)
    }

    #[inline(always)]
    pub(crate) fn finds_empty(&mut self) -> bool
        ensures found_empty { OnTrue result (self.new ≡ access_after_empty_find self.old) }
        ensures alone { OnTrue result (WasEmptyIfAlone self.old.pass.tally) }
        ensures unchanged { OnFalse result (self.new ≡ self.old) }
        ensures bag { self.new.bag ≡ self.old.bag }
    {
        self.bag.finds_empty(&mut self.pass)
    }
}
