//! Logs and their mirrors.

ghost use Rattle.std.specs.Prelude.{◌≡◌, ◌<◌, All, length};
ghost use Rattle.obim_bags.specs.Logs.{IsMirrorOf};

use crate::bags::bag::{Call, boxed};
use crate::bags::helpers::{chunk_of, expect_left, holds, open_log};
use obim_bags::{BagLog, LogFault, Mirror, SettleFault};
use std::alloc::Global;
use std::process::Abort;
use std::sync::Wait;

// A call on a log through a mirror, and its result.
#[derive(Clone, Copy)]
pub(crate) enum LogCall {
    // The place of a metric, which may be appended.
    Find(u64, Result<usize, LogFault>),
    // The number of bags that the mirror then has.
    CatchUp(Result<usize, LogFault>),
    // The mirror's metrics, in order.
    Has(&'static [u64]),
    // A metric that it lacks.
    Lacks(u64),
    // A call on the bag at this place.
    At(usize, Call),
    // The places of this many metrics, which may be appended.
    FindAll(usize),
    HasAll(usize),
}

// More bags than a mirror claims at a time or an index begins with.
const BAGS: usize = 3000;

// The distance of metrics: most take more than 32 bits.
const APART: u64 = 1 << 51;

pub(crate) fn is_right<R: Wait + Abort>(
    rt: &R,
    alloc: Global,
    log: &BagLog,
    mirror: &mut Mirror,
    call: LogCall,
) -> bool
    requires { mirror.old.log ≡ log.now }
    ensures { mirror.new.log ≡ log.now }
{
    match call {
        LogCall::Find(metric, want) => log.find_or_append(rt, alloc, mirror, metric) == want,
        LogCall::CatchUp(want) => log.catch_up(rt, alloc, mirror) == want,
        LogCall::Has(metrics) => has_metrics(mirror, metrics),
        LogCall::Lacks(metric) => mirror.place_of(metric).is_none(),
        LogCall::At(place, call) => {
            place < mirror.len() && is_right_at(rt, alloc, log, mirror, place, call)
        }
        LogCall::FindAll(count) => finds_all(rt, alloc, log, mirror, count),
        LogCall::HasAll(count) => has_all(mirror, count),
    }
}

fn has_metrics(mirror: &Mirror, metrics: &[u64]) -> bool {
    for (place, &metric) in metrics.iter().enumerate() {
        if mirror.place_of(metric) != Some(place)
            || place >= mirror.len()
            || mirror.metric_at(place) != metric
        {
            return false;
        }
    }
    mirror.len() == metrics.len()
}

fn is_right_at<R: Wait + Abort>(
    rt: &R,
    alloc: Global,
    log: &BagLog,
    mirror: &mut Mirror,
    place: usize,
    call: Call,
) -> bool
    requires log { mirror.old.log ≡ log.now }
    requires place { place < length mirror.old.accesses }
    ensures { mirror.new.log ≡ log.now }
{
    match call {
        Call::Put(serial, vertices) => {
            let chunk = chunk_of(rt, 0, serial, vertices);
            log.put_at(rt, mirror, place, chunk).is_ok()
        }
        Call::PutBoxed(serial, vertices) => match boxed(rt, alloc, serial, vertices) {
            Some(chunk) => log.put_boxed_at(rt, mirror, place, chunk).is_ok(),
            None => false,
        },
        Call::Get(serial, vertices) => holds(log.get_at(rt, mirror, place), serial, vertices),
        Call::GetBoxed(serial, vertices) => {
            let got = log.get_boxed_at(rt, mirror, place);
            holds(got.map(Box::into_inner), serial, vertices)
        }
        Call::FindNone => {
            log.finds_empty_at(mirror, place) && log.get_boxed_at(rt, mirror, place).is_none()
        }
        Call::FindSome => !log.finds_empty_at(mirror, place),
    }
}

fn finds_all<R: Wait>(
    rt: &R,
    alloc: Global,
    log: &BagLog,
    mirror: &mut Mirror,
    count: usize,
) -> bool
    requires { mirror.old.log ≡ log.now }
    ensures { mirror.new.log ≡ log.now }
{
    for place in 0..count {
        let metric = (place as u64).wrapping_mul(APART);
        if log.find_or_append(rt, alloc, mirror, metric) != Ok(place) {
            return false;
        }
    }
    true
}

fn has_all(mirror: &Mirror, count: usize) -> bool {
    for place in 0..count {
        if mirror.place_of((place as u64).wrapping_mul(APART)) != Some(place) {
            return false;
        }
    }
    true
}

// Makes each call through the mirror of its number, and asserts its result.
pub(crate) fn expect_calls<R: Wait + Abort>(
    rt: &R,
    alloc: Global,
    log: &BagLog,
    mirrors: &mut [Mirror],
    row: usize,
    calls: &[(usize, LogCall)],
)
    requires { All (IsMirrorOf log.now) mirrors.old }
    ensures { All (IsMirrorOf log.now) mirrors.new }
{
    for (at, &(number, call)) in calls.iter().enumerate() {
        let gives = number < mirrors.len() && is_right(rt, alloc, log, &mut mirrors[number], call);
        assert!(rt; gives, "row {row}, call {at}");
    }
}

// Each mirror appends a bag, and knows of the other's once it catches up or asks. Then two chunks go through the bag at
// place 1.
const HANDED_ON: &[(usize, LogCall)] = &[
    (1, LogCall::Lacks(5)),
    (1, LogCall::Find(5, Ok(0))),
    (0, LogCall::Lacks(5)),
    (0, LogCall::CatchUp(Ok(1))),
    (0, LogCall::Find(5, Ok(0))),
    (0, LogCall::Lacks(2)),
    (0, LogCall::Find(2, Ok(1))),
    (1, LogCall::Lacks(2)),
    (1, LogCall::CatchUp(Ok(2))),
    (0, LogCall::Has(&[5, 2])),
    (1, LogCall::Has(&[5, 2])),
    (1, LogCall::At(1, Call::Put(0, &[5]))),
    (0, LogCall::At(0, Call::FindNone)),
    (0, LogCall::At(1, Call::FindSome)),
    (0, LogCall::At(1, Call::Get(0, &[5]))),
    (1, LogCall::At(1, Call::PutBoxed(1, &[8]))),
    (0, LogCall::At(1, Call::GetBoxed(1, &[8]))),
    (0, LogCall::At(1, Call::FindNone)),
];

// Chunks by turns in four bags.
pub(crate) const FIVE_CHUNKS: &[(usize, LogCall)] = &[
    (0, LogCall::Find(9, Ok(0))),
    (0, LogCall::Find(4, Ok(1))),
    (0, LogCall::Find(6, Ok(2))),
    (0, LogCall::At(0, Call::Put(0, &[5]))),
    (0, LogCall::At(1, Call::Put(1, &[5]))),
    (0, LogCall::At(0, Call::Put(2, &[5]))),
    (0, LogCall::At(2, Call::Put(3, &[5]))),
    (0, LogCall::At(1, Call::Put(4, &[5]))),
];

// What is left of them, by place and then in order.
pub(crate) const FIVE_LEFT: &[u64] = &[0, 2, 1, 4, 3];

// Passes that nobody claimed are joined in.
const UNCLAIMED: &[(usize, LogCall)] = &[
    (2, LogCall::Find(5, Ok(0))),
    (2, LogCall::At(0, Call::Put(7, &[5]))),
];

// The log has no passes left for a mirror that was not handed in.
const TAKEN: &[(usize, LogCall)] = &[
    (0, LogCall::CatchUp(Err(LogFault::Taken))),
    (0, LogCall::Find(5, Err(LogFault::Taken))),
    (0, LogCall::Has(&[])),
];

// Two of three mirrors claim their passes.
const TWO_CLAIMED: &[(usize, LogCall)] = &[
    (2, LogCall::Find(5, Ok(0))),
    (1, LogCall::CatchUp(Ok(1))),
];

// A drain that fails gives the log back: another mirror is answered.
const GOES_ON: &[(usize, LogCall)] = &[
    (1, LogCall::Find(5, Ok(0))),
    (0, LogCall::CatchUp(Err(LogFault::Taken))),
    (0, LogCall::Find(9, Err(LogFault::Taken))),
];

// A chunk lies in a bag that no mirror handed in knows.
const UNKNOWN: &[(usize, LogCall)] = &[
    (0, LogCall::Find(5, Ok(0))),
    (0, LogCall::At(0, Call::Put(0, &[5]))),
    (1, LogCall::Has(&[])),
];

const MANY_BAGS: &[(usize, LogCall)] = &[
    (0, LogCall::FindAll(BAGS)),
    (1, LogCall::CatchUp(Ok(BAGS))),
    (1, LogCall::HasAll(BAGS)),
];

// The number of last mirrors that are handed in, and what is left.
type Drain = (usize, Result<&'static [u64], SettleFault>);

const MISSING: Drain = (0, Err(SettleFault::Missing));

// The workers of a log, the calls, two drains, and the calls after them.
type Row = (
    u32,
    &'static [(usize, LogCall)],
    &'static [Drain],
    &'static [(usize, LogCall)],
);

const ROWS: [Row; 8] = [
    (2, HANDED_ON, &[(2, Ok(&[]))], &[]),
    (
        2,
        HANDED_ON,
        &[(1, Err(SettleFault::Missing)), MISSING],
        &[],
    ),
    (2, &[], &[MISSING, (2, Ok(&[]))], &[]),
    (1, FIVE_CHUNKS, &[(1, Ok(FIVE_LEFT))], &[]),
    (3, UNCLAIMED, &[(1, Ok(&[7]))], TAKEN),
    (3, TWO_CLAIMED, &[(1, Err(SettleFault::Missing))], GOES_ON),
    (2, UNKNOWN, &[(1, Err(SettleFault::Missing))], &[]),
    (2, MANY_BAGS, &[(2, Ok(&[]))], &[]),
];

fn expect_drains<R: Wait + Abort>(
    rt: &R,
    alloc: Global,
    log: &BagLog,
    mirrors: &mut Vec<Mirror>,
    row: usize,
    drains: &[Drain],
)
    requires { All (IsMirrorOf log.now) mirrors.old.items }
    ensures { All (IsMirrorOf log.now) mirrors.new.items }
{
    for &(handed, want) in drains {
        let first = mirrors
            .len()
            .checked_sub(handed)
            .expect(rt, "so many mirrors");
        let last = mirrors.split_off(first).expect(rt, "memory for mirrors");
        expect_left(rt, row, log.drain(rt, alloc, last), want);
    }
}

fn expect_row<R: Wait + Abort>(
    rt: &R,
    alloc: Global,
    row: usize,
    (workers, calls, drains, after): Row,
) {
    assert!(rt; workers > 0);
    let (log, mut mirrors) = open_log(rt, alloc, workers);
    expect_calls(rt, alloc, &log, &mut mirrors, row, calls);
    expect_drains(rt, alloc, &log, &mut mirrors, row, drains);
    expect_calls(rt, alloc, &log, &mut mirrors, row, after);
}

#[test]
fn rows_of_calls(rt: HostRuntime) {
    for (row, &row_of_calls) in ROWS.iter().enumerate() {
        expect_row(&rt, rt.alloc(), row, row_of_calls);
    }
}
