//! Tasks that teams do before their turn, and those that can't be done.

mod refusals;

ghost use Rattle.std.specs.Prelude.{⊤};

use least_costs::{Plan, TaskQueue, Tasks, TeamGate, Workers};
use obim_engine::OpenGate;
use std::alloc::Global;
use std::process::Abort;
use std::sync::Wait;
use std::test::Fail;
use std::thread::Threads;

/// Tasks at all places.
#[derive(Drop)]
struct Places;

impl Tasks<(usize, u32)> for Places {
    ghost is_part = { λ of place part. ⊤ };
}

/// A task that gives its place and its workers. That of place 5 can't be done.
fn part_at(
    place: usize,
    workers: &mut Workers<'_, TeamGate<'_, OpenGate>>,
) -> Option<(usize, u32)> {
    if place == 5 {
        None
    } else {
        Some((place, workers.settings.workers))
    }
}

/// The parts at the places below 8, by teams of four workers.
fn taken<H: Threads + Wait + Abort + Sync>(
    rt: &H,
    alloc: Global,
    teams: usize,
) -> [Option<(usize, u32)>; 8] {
    assert!(rt; teams <= 4);
    let workers = Workers::new(Plan::usual(4).settings, &OpenGate, None);
    let mut queue = TaskQueue::new(alloc, 8, teams, workers);
    let mut all = [None; 8];
    for (place, part) in all.iter_mut().enumerate() {
        *part = queue.take(rt, alloc, &Places, &part_at, place);
    }
    all
}

// One team does nothing ahead. Two share the workers and do two tasks each in a round; if one can't be done, the round
// is the last.
#[test]
fn teams_share_the_workers(rt: HostRuntime) -> Result<(), Fail> {
    let alone = taken(&rt, rt.alloc(), 1);
    assert!(rt; alone.iter().all(|part| part.is_none()));
    for (teams, count, each) in [(2, 4, 2), (4, 5, 1)] {
        let all = taken(&rt, rt.alloc(), teams);
        for place in 0..count {
            assert!(rt; all[place] == Some((place, each)));
        }
        assert!(rt; all[5].is_none());
    }
    Ok(())
}
