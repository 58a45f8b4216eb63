//! Explanations of wrong lines, worked by hand. Those of all faults are in `tests/explanations.tsv`.

use dimacs_text::{ExplainedFault, Explanation, JobReader, LineKind, MAX_KEPT_BYTES, TextFault};
use std::alloc::Global;
use std::process::Abort;
use std::test::Fail;

/// The explained fault of a text in pieces of a size.
fn refused(alloc: Global, text: &[u8], size: usize) -> Option<ExplainedFault> {
    let mut reader = JobReader::new(alloc);
    for piece in text.chunks(size.max(1)) {
        if reader.feed(piece).is_err() {
            return None;
        }
    }
    reader.finish_explained().err()
}

fn line_of(alloc: Global, explanation: &Explanation) -> Result<String, Fail> {
    Ok(match explanation.text {
        Some(text) => format!(in alloc; "{text}")?,
        None => format!(in alloc; "no line")?,
    })
}

fn place_of(alloc: Global, explanation: &Explanation) -> Result<String, Fail> {
    Ok(match explanation.place {
        Some(place) => format!(in alloc; "{place}")?,
        None => format!(in alloc; "no section")?,
    })
}

/// The line with its fields and the wrong one, what belongs there, and its place.
fn told(alloc: Global, explanation: &Explanation) -> Result<String, Fail> {
    let (line, fields, expected) = (explanation.line, explanation.fields, explanation.expected);
    let field = explanation.field.unwrap_or(0);
    let text = line_of(alloc, explanation)?;
    let place = place_of(alloc, explanation)?;
    Ok(format!(in alloc; "{line}: {text}; {field} of {fields}: {expected}; {place}")?)
}

const EXPLAINED: [(&str, &str); 9] = [
    ("", "1: no line; 0 of 0: the line 'p sp N M'; no section"),
    (
        "c\np max 2\t1\r\n",
        "2: p max 2\\t1\\r; 2 of 4: the line 'p sp N M'; no section",
    ),
    (
        "p sp 2 1\na 1 2\n",
        "2: a 1 2; 4 of 3: 3 numbers, as in 'a U V W'; 1 arc announced at line 1, 0 came before",
    ),
    (
        "p sp 6 2\n\na 1 2 3\na 1 7 x\n",
        "4: a 1 7 x; 4 of 4: a whole number from 0 to 4294967295; 2 arcs announced at line 1, 1 came before",
    ),
    (
        "p sp 6 2\na 1 7 3",
        "2: a 1 7 3; 3 of 4: a vertex from 1 to 6; 2 arcs announced at line 1, 0 came before",
    ),
    (
        "p sp 6 0\nc\np aux sp ss 1\nq 1 6\n",
        "4: q 1 6; 0 of 3: a line 's V'; 1 source announced at line 3, 0 came before",
    ),
    (
        "p sp 6 0\ns 1\n",
        "2: s 1; 0 of 2: 'p aux sp ss K' or 'p aux sp p2p K' or 'p aux sp add K' or the end of the text; \
         0 arcs announced at line 1, 0 came before",
    ),
    (
        "p sp 6 0\np aux sp p2p 2\nq 1 6",
        "4: no line; 0 of 0: a line 'q S T'; 2 pairs announced at line 2, 1 came before",
    ),
    (
        "p sp 6 0\np aux sp add 1\na 1 6 4\na 1 6 4\n",
        "4: a 1 6 4; 0 of 4: the end of the text; 1 added arc announced at line 2, 1 came before",
    ),
];

fn explanation_of(rt: &impl Abort, alloc: Global, text: &[u8], size: usize) -> Explanation {
    let refused = refused(alloc, text, size);
    let explanation = refused.and_then(|refused| refused.explanation);
    explanation.expect(rt, "a text that is refused")
}

fn expect_told(
    rt: &impl Abort,
    alloc: Global,
    text: &str,
    size: usize,
    want: &str,
) -> Result<(), Fail> {
    let explanation = explanation_of(rt, alloc, text.as_bytes(), size);
    let told = told(alloc, &explanation)?;
    assert!(rt; told.as_str() == want, "{want}");
    Ok(())
}

#[test]
fn explanations(rt: HostRuntime) -> Result<(), Fail> {
    for (text, want) in EXPLAINED {
        for size in [1, 7, 1000] {
            expect_told(&rt, rt.alloc(), text, size, want)?;
        }
    }
    Ok(())
}

/// A text whose second line has 1,000 bytes.
fn long_text(alloc: Global) -> Result<Vec<u8>, Fail> {
    let mut text = b"p sp 1 0\n".to_vec(alloc)?;
    text.resize(1009, b'\x1f')?;
    Ok(text)
}

const UNKNOWN: TextFault = TextFault::Line {
    line: 2,
    kind: LineKind::Unknown,
};

#[test]
fn fault_of_a_long_line(rt: HostRuntime) -> Result<(), Fail> {
    let text = long_text(rt.alloc())?;
    let refused = refused(rt.alloc(), &text, 100).expect(&rt, "a text that is refused");
    assert!(rt; refused.fault == UNKNOWN);
    Ok(())
}

/// Asserts that the line's first bytes and its length are kept.
fn expect_beginning(rt: &impl Abort, alloc: Global, explanation: &Explanation) -> Result<(), Fail> {
    assert!(rt; explanation.line == 2 && explanation.kind == LineKind::Unknown);
    let line = explanation.text.expect(rt, "a line");
    assert!(rt; line.length() == 1000 && line.bytes() == [b'\x1f'; MAX_KEPT_BYTES].as_slice());
    let shown = format!(in alloc; "{line}")?;
    assert!(rt; shown.len() == 4 * MAX_KEPT_BYTES);
    Ok(())
}

#[test]
fn beginnings_of_long_lines(rt: HostRuntime) -> Result<(), Fail> {
    let text = long_text(rt.alloc())?;
    let explanation = explanation_of(&rt, rt.alloc(), &text, 100);
    expect_beginning(&rt, rt.alloc(), &explanation)
}
