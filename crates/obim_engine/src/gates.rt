//! A gate for tests.

use crate::gate::Gate;
use std::alloc::Global;
use std::fmt;
use std::sync::{Mutex, Wait};

/// Keeps the vertices that passed, in order, under a lock: for tests.
#[derive(Drop)]
pub struct Recorder {
    passed: Mutex<Vec<u32>>,
}

impl fmt::Debug for Recorder {
    fn fmt<W: fmt::Write>(&self, f: &mut fmt::Formatter<W>) -> fmt::Result {
        f.debug_struct("Recorder").finish_non_exhaustive()
    }
}

impl Recorder {
    /// A recorder that no vertex has passed.
    pub fn new(alloc: Global) -> Recorder {
        Recorder {
            passed: Mutex::new(Vec::new(alloc)),
        }
    }

    /// The vertices that passed.
    pub fn into_passed(self) -> Vec<u32> {
        self.passed.into_inner()
    }
}

impl Gate for Recorder {
    fn pass<H: Wait>(&self, rt: &H, _worker: u32, vertex: u32) {
        // If memory is refused a vertex is left out, which a test notices.
        let _ = self.passed.lock(rt).push(vertex);
    }
}
