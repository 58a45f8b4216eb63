//! A place to watch workers.

use obim_pool::Worklist;
use std::sync::Wait;

/// A gate that a worker calls when it has taken a vertex, before it reads its label: to watch workers or hold one back.
/// No label depends on it.
pub trait Gate {
    /// Passes a visit of `vertex` by `worker`, both counted from 0.
    fn pass<H: Wait>(&self, rt: &H, worker: u32, vertex: u32);

    /// Sees what the worklist of a run held. An operator calls it at the end.
    fn end<H: Wait>(&self, _rt: &H, _worklist: Worklist) {}
}

/// A borrowed gate serves too.
impl<G: Gate> Gate for &G {
    fn pass<H: Wait>(&self, rt: &H, worker: u32, vertex: u32) {
        (**self).pass(rt, worker, vertex);
    }

    fn end<H: Wait>(&self, rt: &H, worklist: Worklist) {
        (**self).end(rt, worklist);
    }
}

/// The gate that lets every worker through.
#[derive(Clone, Copy, Debug, PartialEq, Eq)]
pub struct OpenGate;

impl Gate for OpenGate {
    fn pass<H: Wait>(&self, _rt: &H, _worker: u32, _vertex: u32) {}
}
