//! Raw labels, of sources and of pairs, and totals.

use crate::answers::added::six_with;
use crate::answers::pairs::SIX_PAIRS_ANSWER;
use job_answer::{Answer, Asked, Lines, answer_bytes};
use obim_engine::{OpenGate, Settings};
use std::process::Abort;
use std::test::Fail;

/// Labels 0, 10, 10, 12, 10 and 15.
pub const SIX_RAW: &[u8] = b"s 1\n\0\0\0\0\0\0\0\0\x0a\0\0\0\0\0\0\0\x0a\0\0\0\0\0\0\0\
    \x0c\0\0\0\0\0\0\0\x0a\0\0\0\0\0\0\0\x0f\0\0\0\0\0\0\0";

const ONE: &[u8] = b"p aux sp ss 1\ns 1\n";

const TWO: &[u8] = b"p aux sp ss 2\ns 6\ns 4\n";

const NO_SOURCE: &[u8] = b"p aux sp ss 0\n";

const GROWN: &[u8] = b"p aux sp ss 1\ns 1\np aux sp add 1\na 1 6 4\n";

const PAIRS: &[u8] = b"p aux sp p2p 4\nq 1 6\nq 6 1\nq 1 6\nq 1 1\n";

const NO_PAIR: &[u8] = b"p aux sp p2p 0\n";

const GROWN_PAIR: &[u8] = b"p aux sp p2p 1\nq 1 6\np aux sp add 1\na 1 6 4\n";

/// Costs 15, none, 15 and 0.
const SIX_RAW_PAIRS: &[u8] =
    b"\x0f\0\0\0\0\0\0\0\xff\xff\xff\xff\xff\xff\xff\xff\x0f\0\0\0\0\0\0\0\0\0\0\0\0\0\0\0";

const SIX_RAW_PAIR_LEVELS: &[u8] =
    b"\x03\0\0\0\0\0\0\0\xff\xff\xff\xff\xff\xff\xff\xff\x03\0\0\0\0\0\0\0\0\0\0\0\0\0\0\0";

const SIX_RAW_GROWN: &[u8] = b"s 1\n\0\0\0\0\0\0\0\0\x0a\0\0\0\0\0\0\0\x0a\0\0\0\0\0\0\0\
    \x0c\0\0\0\0\0\0\0\x0a\0\0\0\0\0\0\0\x0f\0\0\0\0\0\0\0\
    g 1\ns 1\n\0\0\0\0\0\0\0\0\x0a\0\0\0\0\0\0\0\x0a\0\0\0\0\0\0\0\
    \x0c\0\0\0\0\0\0\0\x0a\0\0\0\0\0\0\0\x04\0\0\0\0\0\0\0";

const SIX_RAW_LEVELS: &[u8] = b"s 1\n\0\0\0\0\0\0\0\0\x01\0\0\0\0\0\0\0\x01\0\0\0\0\0\0\0\
    \x02\0\0\0\0\0\0\0\x02\0\0\0\0\0\0\0\x03\0\0\0\0\0\0\0";

/// The labels from vertex 6, which reaches itself alone, and from 4.
const SIX_RAW_TWO: &[u8] = b"s 6\n\xff\xff\xff\xff\xff\xff\xff\xff\xff\xff\xff\xff\xff\xff\xff\xff\
    \xff\xff\xff\xff\xff\xff\xff\xff\xff\xff\xff\xff\xff\xff\xff\xff\
    \xff\xff\xff\xff\xff\xff\xff\xff\0\0\0\0\0\0\0\0\
    s 4\n\xff\xff\xff\xff\xff\xff\xff\xff\0\0\0\0\0\0\0\0\
    \0\0\0\0\0\0\0\0\0\0\0\0\0\0\0\0\0\0\0\0\0\0\0\0\x03\0\0\0\0\0\0\0";

const SIX_COMPONENTS: &[u8] = b"k 1 1\nk 2 1\nk 3 1\nk 4 1\nk 5 1\nk 6 1\n";

const RAW: Lines = Lines::Raw { pairs: false };

const RAW_PAIRS: Lines = Lines::Raw { pairs: true };

// The answer, the lines, what follows the graph, and what is written.
const ANSWERS: [(Answer, Lines, &[u8], &[u8]); 20] = [
    (Answer::Distances, RAW, ONE, SIX_RAW),
    (Answer::Distances, RAW, TWO, SIX_RAW_TWO),
    (Answer::Distances, RAW, GROWN, SIX_RAW_GROWN),
    (Answer::Distances, RAW, PAIRS, SIX_PAIRS_ANSWER),
    (Answer::Distances, RAW, NO_SOURCE, b""),
    (Answer::Levels, RAW, ONE, SIX_RAW_LEVELS),
    (Answer::Components, RAW, b"", SIX_COMPONENTS),
    (Answer::Distances, Lines::Totals, ONE, b"t 1 6 57 15 6\n"),
    (
        Answer::Distances,
        Lines::Totals,
        TWO,
        b"t 6 1 0 0 6\nt 4 5 3 3 6\n",
    ),
    (
        Answer::Distances,
        Lines::Totals,
        GROWN,
        b"t 1 6 57 15 6\ng 1\nt 1 6 46 12 4\n",
    ),
    (Answer::Distances, Lines::Totals, PAIRS, SIX_PAIRS_ANSWER),
    (Answer::Distances, Lines::Totals, NO_SOURCE, b""),
    (Answer::Levels, Lines::Totals, ONE, b"t 1 6 9 3 6\n"),
    (Answer::Components, Lines::Totals, b"", SIX_COMPONENTS),
    (Answer::Distances, RAW_PAIRS, PAIRS, SIX_RAW_PAIRS),
    (Answer::Levels, RAW_PAIRS, PAIRS, SIX_RAW_PAIR_LEVELS),
    (
        Answer::Distances,
        RAW_PAIRS,
        GROWN_PAIR,
        b"\x0f\0\0\0\0\0\0\0g 1\n\x04\0\0\0\0\0\0\0",
    ),
    (Answer::Distances, RAW_PAIRS, NO_PAIR, b""),
    (Answer::Distances, RAW_PAIRS, TWO, SIX_RAW_TWO),
    (Answer::Components, RAW_PAIRS, PAIRS, SIX_COMPONENTS),
];

fn asked_in_short(rt: &impl Abort, kind: Answer, lines: Lines, workers: u32) -> Asked {
    let settings = Settings::new(workers, 4, 16).expect(rt, "settings within their limits");
    Asked::by_lines(kind, settings, lines, 100000).expect(rt, "lines of any kind")
}

#[test]
fn answers_in_short(rt: HostRuntime) -> Result<(), Fail> {
    for (kind, lines, sections, want) in ANSWERS {
        let text = six_with(rt.alloc(), sections)?;
        for workers in [1, 3] {
            let asked = asked_in_short(&rt, kind, lines, workers);
            let bytes = answer_bytes(&rt, rt.alloc(), &text, &asked, &OpenGate)?;
            assert!(rt; bytes.as_slice() == want);
        }
    }
    Ok(())
}
