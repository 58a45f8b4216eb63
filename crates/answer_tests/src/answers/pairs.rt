//! Pairs: solves.

use crate::answers::added::{asked, six_with};
use crate::answers::answer_with_figures;
use job_answer::Answer;
use obim_engine::OpenGate;
use std::test::Fail;

/// Two pairs of one source, with one of another between, and one to itself.
pub const SIX_PAIRS: &[u8] =
    b"p sp 6 8\na 1 2 17\na 1 3 10\na 2 4 2\na 3 5 0\na 4 3 0\na 4 6 3\na 5 2 0\na 5 6 20\n\
      p aux sp p2p 4\nq 1 6\nq 6 1\nq 1 6\nq 1 1\n";

const FOUR: &[u8] = b"p aux sp p2p 4\nq 1 6\nq 6 1\nq 1 6\nq 1 1\n";

pub const SIX_PAIRS_ANSWER: &[u8] = b"q 1 6 15\nq 6 1 inf\nq 1 6 15\nq 1 1 0\n";

pub const SIX_PAIRS_WALKS: &[u8] =
    b"q 1 6 15\nw 6 15 1 3 5 2 4 6\nq 6 1 inf\nq 1 6 15\nw 6 15 1 3 5 2 4 6\nq 1 1 0\nw 1 0 1\n";

const TURNED: &[u8] = b"p aux sp p2p 6\nq 2 1\nq 1 2\nq 3 1\nq 2 3\nq 1 3\nq 3 2\n";

const BY_SOURCE: &[u8] = b"p aux sp p2p 6\nq 1 2\nq 1 3\nq 2 1\nq 2 3\nq 3 1\nq 3 2\n";

// Walks or not, the pairs, and the solves.
const RUNS: [(bool, &[u8], usize); 5] = [
    (false, b"p aux sp p2p 0\n", 0),
    (false, FOUR, 2),
    (true, FOUR, 3),
    (false, TURNED, 3),
    (true, BY_SOURCE, 3),
];

// Without walks a source is solved once, and with walks once for each run of pairs that it begins, also three at once.
#[test]
fn runs_of_pairs(rt: HostRuntime) -> Result<(), Fail> {
    for (walks, queries, runs) in RUNS {
        let text = six_with(rt.alloc(), queries)?;
        for (workers, at_once) in [(1, 1), (3, runs.max(1))] {
            let asked = asked(&rt, Answer::Distances, walks, (workers, 4, 16));
            let (_, figures) = answer_with_figures(&rt, rt.alloc(), &text, &asked, &OpenGate)?;
            assert_eq!(rt; (figures.solves, figures.at_once), (runs, at_once));
        }
    }
    Ok(())
}
