//! The words of command lines. Those of all options and faults are in `tests/command_lines.tsv` and
//! `tests/command_line_faults.tsv`.

mod refusals;

use command_line::{Options, Refusal, parse_options};
use job_answer::{Answer, Lines};
use obim_engine::Buckets;
use std::alloc::Global;
use std::test::Fail;

/// Words, and the labels, lines, workers and buckets that they ask for.
struct Row {
    words: &'static [&'static str],
    answer: Answer,
    lines: Lines,
    workers: u32,
    buckets: Buckets,
}

const ROWS: [Row; 3] = [
    Row {
        words: &["obim_query"],
        answer: Answer::Distances,
        lines: Lines::Each { walks: false },
        workers: 2,
        buckets: Buckets::Widening,
    },
    Row {
        words: &["obim_query", "-a", "levels", "--within", "3"],
        answer: Answer::Levels,
        lines: Lines::Within {
            walks: false,
            bound: 3,
        },
        workers: 2,
        buckets: Buckets::Widening,
    },
    Row {
        words: &["obim_query", "-Ww3", "--shift=4", "-"],
        answer: Answer::Distances,
        lines: Lines::Each { walks: true },
        workers: 3,
        buckets: Buckets::Even(4),
    },
];

#[test]
fn words_ask_for_options(rt: HostRuntime) -> Result<(), Fail> {
    for row in &ROWS {
        match parse_options(rt.alloc(), row.words) {
            Ok(options) => assert!(rt; is_asked(&options, row), "{:?}", row.words),
            Err(_) => assert!(rt; false, "{:?}", row.words),
        }
    }
    Ok(())
}

fn is_asked(options: &Options, row: &Row) -> bool {
    let settings = options.asked.settings;
    options.asked.answer == row.answer
        && options.asked.lines == row.lines
        && settings.workers == row.workers
        && settings.buckets == row.buckets
}

// A text is told from a refusal, though a caller prints neither.
#[test]
fn words_are_refused(rt: HostRuntime) -> Result<(), Fail> {
    assert!(rt; is_text(rt.alloc(), &["obim_query", "--help"]));
    assert!(rt; is_text(rt.alloc(), &["obim_query", "-V"]));
    assert!(rt; !is_text(rt.alloc(), &["obim_query", "--chunk", "0"]));
    assert!(rt; !is_text(rt.alloc(), &["obim_query", "--chunks", "1"]));
    Ok(())
}

/// Tells if the words ask for a text, not a sentence.
fn is_text(alloc: Global, words: &[&str]) -> bool {
    match parse_options(alloc, words) {
        Err(Refusal::Text(_)) => true,
        Err(Refusal::Line(line)) => line.is_empty(),
        _ => false,
    }
}
