//! Tables of runs with their labels, gates that watch, and random runs beside the plain way.

mod draws;
mod gates;
mod goals;
mod graphs;
mod growths;
mod hostile;
mod kept;
mod operators;
mod orders;
mod pieces;
mod pools;
mod refusals;
mod searches;
mod watched;
mod widths;
mod yielding;

ghost use Rattle.std.specs.Prelude.{◌≡◌};

use obim_engine::{RunFault, Settings};
use std::process::Abort;
use std::test::Fail;

fn settings(rt: &impl Abort, workers: u32, shift: u32, widening: bool) -> Settings
    ensures { result.workers ≡ workers }
{
    let narrow = Settings::new(workers, shift, 16).expect(rt, "settings within their limits");
    if widening {
        narrow.with_widening_buckets()
    } else {
        narrow
    }
}

const FAULTS: [(RunFault, &str); 2] = [
    (RunFault::Memory, "out of memory"),
    (RunFault::Spawn, "cannot start a thread"),
];

#[test]
fn faults_print_themselves(rt: HostRuntime) -> Result<(), Fail> {
    for (fault, text) in FAULTS {
        assert!(rt; fault.to_string(rt.alloc())?.as_str() == text, "{text}");
    }
    Ok(())
}
