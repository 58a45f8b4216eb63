//! Each call with one allocation refused: it gives its fault with the core as it was, and made once more what the
//! schedule shows.

ghost use Rattle.std.specs.Prelude.{◌≡◌};
ghost use Rattle.relax_core.specs.State.{IsOf};

use crate::events::{events, expect_pending, expect_vertex, expect_views, graph, row, stands};
use csr_graph::Csr;
use relax_core::{
    Core, CoreFault, Event, Hand, ReplayFault, SHARES, View, apply, open_core, replay,
};
use route_walks::{EXAMPLE_SEEDS, INF, Memory, refusable, tried_again};
use std::alloc::Global;
use std::process::Abort;
use std::test::Fail;

// The splits of one seat that are enabled.
const SPLITS: usize = 16;

#[test]
fn of_open_core(rt: HostRuntime) -> Result<(), Fail> {
    let csr = graph(rt.alloc())?;
    let core = tried_again!(
        rt,
        rt.alloc(),
        Memory,
        open_core(rt.alloc(), &csr, &EXAMPLE_SEEDS)
    );
    for v in 0..4_u32 {
        let want = if v == 0 { (0, 1) } else { (INF, 0) };
        expect_vertex(&rt, v, (core.label(v), u8::from(core.mark(v))), want, 0);
    }
    let idle = View {
        hand: Hand::Idle,
        credits: 0,
        saw: false,
        share: SHARES,
    };
    expect_pending(&rt, &core, 1, 0);
    expect_views(&rt, &core, &[idle]);
    Ok(())
}

fn expect_unchanged(rt: &impl Abort, alloc: Global, core: &Core, before: &str) -> Result<(), Fail> {
    assert_eq!(rt; format!(in alloc; "{core:?}")?.as_str(), before);
    Ok(())
}

// Does an event. A refusal leaves the core as it was.
fn apply_again(
    rt: &impl Abort,
    alloc: Global,
    core: &mut Core,
    csr: &Csr,
    event: Event,
) -> Result<(), Fail>
    requires { IsOf csr.now core.old }
    ensures { IsOf csr.now core.new }
{
    let before = format!(in alloc; "{core:?}")?;
    if let Err(fault) = refusable!(alloc, apply(alloc, core, csr, event)) {
        assert!(rt; fault == CoreFault::Memory);
        expect_unchanged(rt, alloc, core, &before)?;
        apply(alloc, core, csr, event)?;
    }
    Ok(())
}

fn play_again(rt: &impl Abort, alloc: Global, core: &mut Core, csr: &Csr) -> Result<(), Fail>
    requires vertices { csr.now.n ≡ 4 }
    requires belongs { IsOf csr.now core.old }
    ensures { IsOf csr.now core.new }
{
    for i in 0..33_usize {
        apply_again(rt, alloc, core, csr, row(i).0)?;
        stands(rt, core, csr, i);
    }
    Ok(())
}

// As many splits as there can be: some of them take memory for views.
fn split_again(rt: &impl Abort, alloc: Global, core: &mut Core, csr: &Csr) -> Result<(), Fail>
    requires { IsOf csr.now core.old }
    ensures { IsOf csr.now core.new }
{
    for _ in 0..SPLITS {
        apply_again(rt, alloc, core, csr, Event::Split(0))?;
    }
    Ok(())
}

#[test]
fn of_apply(rt: HostRuntime) -> Result<(), Fail> {
    let alloc = rt.alloc();
    let csr = graph(alloc)?;
    let mut core = open_core(alloc, &csr, &EXAMPLE_SEEDS)?;
    play_again(&rt, alloc, &mut core, &csr)?;
    split_again(&rt, alloc, &mut core, &csr)?;
    assert!(rt; core.views().len() == SPLITS + 2);
    let refused = apply(alloc, &mut core, &csr, Event::Split(0));
    assert!(rt; refused == Err(CoreFault::NotEnabled));
    Ok(())
}

// A list that stops at the third event, also if memory is refused.
fn expect_stop_again(rt: &impl Abort, alloc: Global, csr: &Csr) -> Result<(), Fail>
    requires { csr.now.n ≡ 4 }
{
    let stop = [Event::Split(0), Event::Take(0, 0), Event::Relax(0)];
    let fault = refusable!(alloc, replay(alloc, csr, &EXAMPLE_SEEDS, &stop)).err();
    assert!(rt;
        matches!(fault, Some(ReplayFault::Memory | ReplayFault::At(2))),
        "{fault:?}"
    );
    Ok(())
}

#[test]
fn of_replay(rt: HostRuntime) -> Result<(), Fail> {
    let alloc = rt.alloc();
    let csr = graph(alloc)?;
    let events = events(alloc)?;
    let core = tried_again!(
        rt,
        alloc,
        ReplayFault::Memory,
        replay(alloc, &csr, &EXAMPLE_SEEDS, &events)
    );
    stands(&rt, &core, &csr, 32);
    expect_stop_again(&rt, alloc, &csr)
}
