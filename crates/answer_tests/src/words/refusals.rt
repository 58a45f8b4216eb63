//! The command line with one allocation refused: `Memory`, and judged once more what it asks for.

use command_line::{Options, Refusal, parse_options};
use job_answer::Answer;
use route_walks::refusable;

const WORDS: [&str; 4] = ["obim_query", "--answer", "levels", "-w3"];

/// The last value is refused.
const WRONG: [&str; 3] = ["obim_query", "--workers", "65"];

const WHY: &str = "invalid value '65' for '--workers': a number from 1 to 64, or auto";

#[test]
fn of_parse_options(rt: HostRuntime) {
    let alloc = rt.alloc();
    match refusable!(alloc, parse_options(alloc, &WORDS)) {
        Ok(options) => assert!(rt; is_wanted(&options)),
        Err(refusal) => {
            assert!(rt; matches!(refusal, Refusal::Memory));
            match parse_options(alloc, &WORDS) {
                Ok(options) => assert!(rt; is_wanted(&options)),
                Err(_) => assert!(rt; false),
            }
        }
    }
    match refusable!(alloc, parse_options(alloc, &WRONG)) {
        Err(Refusal::Line(line)) => {
            assert!(rt; line.as_str() == WHY);
        }
        Err(refusal) => assert!(rt; matches!(refusal, Refusal::Memory)),
        Ok(_) => assert!(rt; false),
    }
}

fn is_wanted(options: &Options) -> bool {
    options.asked.answer == Answer::Levels && options.asked.settings.workers == 3
}
