//! The surroundings of an answer.

use crate::question::asked::Asked;
use std::alloc::Global;

/// The runtime and the allocator of an answer.
#[derive(Drop)]
pub struct Env<'a, H> {
    pub rt: &'a H,
    pub alloc: Global,
}

/// The runtime, the allocator, the choices, and the gate of the answers to one caller.
#[derive(Drop)]
pub struct Context<'a, H, G> {
    pub rt: &'a H,
    pub alloc: Global,
    pub asked: &'a Asked,
    pub gate: &'a G,
}

impl<'a, H, G> Context<'a, H, G> {
    pub(crate) fn env(&self) -> Env<'a, H> {
        Env {
            rt: self.rt,
            alloc: self.alloc,
        }
    }
}
