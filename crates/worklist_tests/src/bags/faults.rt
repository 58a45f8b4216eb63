//! Tests of the texts of faults.

use obim_bags::{Full, LogFault, SettleFault};
use std::alloc::Global;
use std::fmt::Display;
use std::process::Abort;

fn expect_text<T: Display>(rt: &impl Abort, alloc: Global, fault: &T, text: &str) {
    let said = format!(in alloc; "{fault}").expect(rt, "memory for a text");
    assert!(rt; said.as_str() == text);
}

#[test]
fn each_fault_has_its_text(rt: HostRuntime) {
    let alloc = rt.alloc();
    expect_text(&rt, alloc, &Full, "chunk is full");
    expect_text(&rt, alloc, &SettleFault::Missing, "passes are missing");
    expect_text(&rt, alloc, &SettleFault::Memory, "out of memory");
    expect_text(&rt, alloc, &LogFault::Memory, "out of memory");
    expect_text(&rt, alloc, &LogFault::Taken, "the log was drained");
}
