//! Questions on kept networks, and sessions. Whole sessions are in `tests/sessions`.

mod conversations;
mod refusals;

use job_answer::{Answer, Asked};
use obim_engine::Settings;
use std::process::Abort;

fn asked(rt: &impl Abort, answer: Answer) -> Asked {
    let settings = Settings::new(2, 4, 16).expect(rt, "settings within their limits");
    Asked::new(answer, settings, false, 1000).expect(rt, "no walks")
}

fn asked_within(rt: &impl Abort, workers: u32, limit: u64) -> Asked {
    let settings = Settings::new(workers, 4, 16).expect(rt, "settings within their limits");
    Asked::new(Answer::Distances, settings, false, limit).expect(rt, "a limit of at most 2^36")
}
