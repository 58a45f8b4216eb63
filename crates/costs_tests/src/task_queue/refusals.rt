//! Each call with one allocation refused: a task is then done by the caller.

use crate::task_queue::{Places, part_at, taken};
use least_costs::{Plan, TaskQueue, Workers};
use obim_engine::OpenGate;
use route_walks::refusable;

#[test]
fn of_task_queue_new(rt: HostRuntime) {
    let alloc = rt.alloc();
    let workers = Workers::new(Plan::usual(2).settings, &OpenGate, None);
    let mut queue = refusable!(alloc, TaskQueue::new(alloc, 1, 2, workers));
    assert!(rt; queue.take(&rt, alloc, &Places, &part_at, 0).is_none());
}

#[test]
fn of_task_queue_take(rt: HostRuntime) {
    let alloc = rt.alloc();
    let all = refusable!(alloc, taken(&rt, alloc, 2));
    assert!(rt; all[5].is_none());
}
