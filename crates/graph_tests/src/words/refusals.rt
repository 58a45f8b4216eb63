//! Each call in a script with one allocation refused: `Memory`, and made once more what was worked by hand.

use crate::words::{NO_SEEDS, OPENED, SEVERAL_SEEDS, Script, TO_THE_END, graph, open_and_close};
use route_walks::{Memory, refusable};
use std::alloc::Global;
use std::process::Abort;
use std::test::Fail;

// After a refusal words, pause or labels are gone, and the script begins again.
fn try_script(rt: &impl Abort, alloc: Global, script: &Script) -> Result<(), Memory> {
    let csr = graph(alloc)?;
    match refusable!(alloc, open_and_close(rt, alloc, &csr, script)) {
        Ok(()) => Ok(()),
        Err(Memory) => open_and_close(rt, alloc, &csr, script),
    }
}

#[test]
fn of_words_open(rt: HostRuntime) -> Result<(), Fail> {
    Ok(try_script(&rt, rt.alloc(), &OPENED)?)
}

#[test]
fn of_words_close(rt: HostRuntime) -> Result<(), Fail> {
    Ok(try_script(&rt, rt.alloc(), &TO_THE_END)?)
}

#[test]
fn of_words_reopen(rt: HostRuntime) -> Result<(), Fail> {
    Ok(try_script(&rt, rt.alloc(), &SEVERAL_SEEDS)?)
}

#[test]
fn of_paused_settled(rt: HostRuntime) -> Result<(), Fail> {
    Ok(try_script(&rt, rt.alloc(), &NO_SEEDS)?)
}
