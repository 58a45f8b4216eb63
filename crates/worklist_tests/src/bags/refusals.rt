//! Each call with one allocation refused: made once more it gives what was worked by hand, and nothing of the refused
//! one is there.

ghost use Rattle.std.specs.Prelude.{◌≡◌, All};
ghost use Rattle.obim_bags.specs.Bags.{IsPassOf};
ghost use Rattle.obim_bags.specs.Logs.{IsMirrorOf};

use crate::bags::bag::Call;
use crate::bags::helpers::{expect_left, open_bag, open_log, open_two, take_mirror};
use crate::bags::logs::{FIVE_CHUNKS, FIVE_LEFT, LogCall};
use crate::bags::{bag, logs};
use obim_bags::{Bag, BagLog, BagPass, Chunk, LogFault, Mirror, SettleFault};
use route_walks::refusable;
use std::alloc::Global;
use std::process::Abort;
use std::sync::Wait;

// More chunks than a block of a queue has, so that a put takes memory for the next block.
const CHUNKS: u64 = 40;

// More metrics than a list or an index has room for at first.
const METRICS: u64 = 12;

// A bag, or a log.
fn opens<R: Wait>(rt: &R, alloc: Global, is_log: bool) -> bool {
    if is_log {
        BagLog::open(alloc, 2).is_ok()
    } else {
        Bag::open(rt, alloc, 3, 2).is_ok()
    }
}

// Opens it, once more if memory was refused.
fn open_again<R: Wait + Abort>(rt: &R, alloc: Global, is_log: bool) {
    let opened = refusable!(alloc, opens(rt, alloc, is_log));
    assert!(rt; opened || opens(rt, alloc, is_log));
}

#[test]
fn of_bag_open(rt: HostRuntime) {
    open_again(&rt, rt.alloc(), false);
}

#[test]
fn of_bag_log_open(rt: HostRuntime) {
    open_again(&rt, rt.alloc(), true);
}

fn put_of(is_boxed: bool, serial: u64) -> Call {
    if is_boxed {
        Call::PutBoxed(serial, &[5])
    } else {
        Call::Put(serial, &[5])
    }
}

// One pass puts chunks, and the other gets each. After a refused put the bag is empty.
fn hand_over<R: Wait + Abort>(
    rt: &R,
    alloc: Global,
    bag: &Bag,
    first: &mut BagPass,
    second: &mut BagPass,
    is_boxed: bool,
) -> bool
    requires { IsPassOf bag.now first.old × IsPassOf bag.now second.old }
    ensures { IsPassOf bag.now first.new × IsPassOf bag.now second.new }
{
    for serial in 0..CHUNKS {
        if !bag::is_right(rt, alloc, bag, first, put_of(is_boxed, serial)) {
            assert!(rt; bag.finds_empty(second));
            return false;
        }
        assert!(rt; bag::is_right(rt, alloc, bag, second, Call::Get(serial, &[5])));
    }
    true
}

fn hand_over_again<R: Wait + Abort>(
    rt: &R,
    alloc: Global,
    bag: &Bag,
    first: &mut BagPass,
    second: &mut BagPass,
    is_boxed: bool,
)
    requires { IsPassOf bag.now first.old × IsPassOf bag.now second.old }
{
    let done = refusable!(alloc, hand_over(rt, alloc, bag, first, second, is_boxed));
    assert!(rt; done || hand_over(rt, alloc, bag, first, second, is_boxed));
}

fn expect_puts<R: Wait + Abort>(rt: &R, alloc: Global, is_boxed: bool) {
    let (bag, mut first, mut second) = open_two(rt, alloc);
    hand_over_again(rt, alloc, &bag, &mut first, &mut second, is_boxed);
}

#[test]
fn of_bag_put(rt: HostRuntime) {
    expect_puts(&rt, rt.alloc(), false);
}

#[test]
fn of_bag_put_boxed(rt: HostRuntime) {
    expect_puts(&rt, rt.alloc(), true);
}

// Tells if these chunks are left, or memory was refused and nothing is given.
fn is_left(rt: &impl Abort, drained: Result<Vec<Chunk>, SettleFault>, serials: &[u64]) -> bool {
    if let Err(SettleFault::Memory) = drained {
        return false;
    }
    expect_left(rt, 0, drained, Ok(serials));
    true
}

const SIX_CHUNKS: &[(usize, Call)] = &[
    (0, Call::Put(0, &[5])),
    (0, Call::Put(1, &[5])),
    (0, Call::Put(2, &[5])),
    (0, Call::Put(3, &[5])),
    (0, Call::Put(4, &[5])),
    (0, Call::Put(5, &[5])),
];

fn drain<R: Wait + Abort>(rt: &R, alloc: Global, bag: &Bag, passes: Vec<BagPass>) -> bool
    requires { All (IsPassOf bag.now) passes.items }
{
    let left = &[0, 1, 2, 3, 4, 5];
    refusable!(alloc, is_left(rt, bag.drain(rt, alloc, passes), left))
}

fn drain_filled<R: Wait + Abort>(rt: &R, alloc: Global) -> bool {
    let (bag, mut passes) = open_bag(rt, alloc, 2);
    bag::expect_calls(rt, alloc, &bag, &mut passes, 0, SIX_CHUNKS);
    drain(rt, alloc, &bag, passes)
}

#[test]
fn of_bag_drain(rt: HostRuntime) {
    assert!(rt; drain_filled(&rt, rt.alloc()) || drain_filled(&rt, rt.alloc()));
}

fn find_again<R: Wait + Abort>(
    rt: &R,
    alloc: Global,
    log: &BagLog,
    mirror: &mut Mirror,
    metric: u64,
)
    requires { mirror.old.log ≡ log.now }
    ensures { mirror.new.log ≡ log.now }
{
    let mut found = refusable!(alloc, log.find_or_append(rt, alloc, mirror, metric));
    if found == Err(LogFault::Memory) {
        found = log.find_or_append(rt, alloc, mirror, metric);
    }
    assert!(rt; found == Ok(metric as usize), "metric {metric}");
}

// Each metric has one bag, at one place for both mirrors.
fn find_each<R: Wait + Abort>(rt: &R, alloc: Global, log: &BagLog, mirrors: &mut [Mirror])
    requires { All (IsMirrorOf log.now) mirrors.old }
{
    assert!(rt; mirrors.len() == 2);
    for turn in 0..2 * METRICS {
        let mirror = &mut mirrors[(turn % 2) as usize];
        find_again(rt, alloc, log, mirror, turn / 2);
    }
    assert!(rt; log.catch_up(rt, alloc, &mut mirrors[1]) == Ok(METRICS as usize));
}

#[test]
fn of_bag_log_find_or_append(rt: HostRuntime) {
    let (log, mut mirrors) = open_log(&rt, rt.alloc(), 2);
    find_each(&rt, rt.alloc(), &log, &mut mirrors);
}

fn catch_up_again<R: Wait + Abort>(
    rt: &R,
    alloc: Global,
    log: &BagLog,
    mirror: &mut Mirror,
    count: u64,
)
    requires { mirror.old.log ≡ log.now }
    ensures { mirror.new.log ≡ log.now }
{
    let mut caught = refusable!(alloc, log.catch_up(rt, alloc, mirror));
    if caught == Err(LogFault::Memory) {
        caught = log.catch_up(rt, alloc, mirror);
    }
    assert!(rt; caught == Ok(count as usize), "{count} bags");
}

// One mirror appends bags, and at every fourth the other catches up.
fn append_each<R: Wait + Abort>(rt: &R, alloc: Global, log: &BagLog, mirrors: &mut [Mirror])
    requires { All (IsMirrorOf log.now) mirrors.old }
{
    assert!(rt; mirrors.len() == 2);
    for metric in 0..METRICS {
        let place = log.find_or_append(rt, alloc, &mut mirrors[0], metric);
        assert!(rt; place == Ok(metric as usize));
        if metric % 4 == 3 {
            catch_up_again(rt, alloc, log, &mut mirrors[1], metric + 1);
            assert!(rt; mirrors[1].place_of(metric) == Some(metric as usize));
        }
    }
}

#[test]
fn of_bag_log_catch_up(rt: HostRuntime) {
    let (log, mut mirrors) = open_log(&rt, rt.alloc(), 2);
    append_each(&rt, rt.alloc(), &log, &mut mirrors);
}

// Puts chunks into the second bag, and gets each. After a refused put the bag is empty.
fn put_each_at<R: Wait + Abort>(
    rt: &R,
    alloc: Global,
    log: &BagLog,
    mirror: &mut Mirror,
    is_boxed: bool,
) -> bool
    requires { mirror.old.log ≡ log.now }
    ensures { mirror.new.log ≡ log.now }
{
    for serial in 0..CHUNKS {
        let put = LogCall::At(1, put_of(is_boxed, serial));
        if !logs::is_right(rt, alloc, log, mirror, put) {
            assert!(rt; logs::is_right(rt, alloc, log, mirror, LogCall::At(1, Call::FindNone)));
            return false;
        }
        let get = LogCall::At(1, Call::Get(serial, &[5]));
        assert!(rt; logs::is_right(rt, alloc, log, mirror, get));
    }
    true
}

const TWO_BAGS: &[(usize, LogCall)] = &[(0, LogCall::FindAll(2)), (1, LogCall::CatchUp(Ok(2)))];

fn put_each_at_again<R: Wait + Abort>(
    rt: &R,
    alloc: Global,
    log: &BagLog,
    mirror: &mut Mirror,
    is_boxed: bool,
)
    requires { mirror.old.log ≡ log.now }
{
    let done = refusable!(alloc, put_each_at(rt, alloc, log, mirror, is_boxed));
    assert!(rt; done || put_each_at(rt, alloc, log, mirror, is_boxed));
}

fn expect_puts_at<R: Wait + Abort>(rt: &R, alloc: Global, is_boxed: bool) {
    let (log, mut mirrors) = open_log(rt, alloc, 2);
    logs::expect_calls(rt, alloc, &log, &mut mirrors, 0, TWO_BAGS);
    assert!(rt; mirrors.len() == 2);
    put_each_at_again(rt, alloc, &log, &mut mirrors[1], is_boxed);
}

#[test]
fn of_bag_log_put_at(rt: HostRuntime) {
    expect_puts_at(&rt, rt.alloc(), false);
}

#[test]
fn of_bag_log_put_boxed_at(rt: HostRuntime) {
    expect_puts_at(&rt, rt.alloc(), true);
}

fn drain_log<R: Wait + Abort>(rt: &R, alloc: Global, log: &BagLog, mirrors: Vec<Mirror>) -> bool
    requires { All (IsMirrorOf log.now) mirrors.items }
{
    refusable!(alloc, is_left(rt, log.drain(rt, alloc, mirrors), FIVE_LEFT))
}

// After a refusal the slot is free: another mirror is answered, though its passes may be taken.
fn drain_filled_log<R: Wait + Abort>(rt: &R, alloc: Global) -> bool {
    let (log, mut mirrors) = open_log(rt, alloc, 3);
    let mut third = take_mirror(rt, &log, &mut mirrors);
    logs::expect_calls(rt, alloc, &log, &mut mirrors, 0, FIVE_CHUNKS);
    let drained = drain_log(rt, alloc, &log, mirrors);
    let caught = log.catch_up(rt, alloc, &mut third);
    assert!(rt; caught.is_ok() || caught == Err(LogFault::Taken));
    drained
}

#[test]
fn of_bag_log_drain(rt: HostRuntime) {
    assert!(rt; drain_filled_log(&rt, rt.alloc()) || drain_filled_log(&rt, rt.alloc()));
}
