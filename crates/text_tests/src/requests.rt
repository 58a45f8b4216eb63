//! Lines after a graph of 2 vertices, and their requests.

use dimacs_text::SectionHead;
use request_reader::{Request, RequestReader};
use std::alloc::{AllocError, Global};
use std::process::Abort;
use std::test::Fail;

/// Lines from line 2 on, the outcome of each request, a whole one by its last line, and the line past the last if the last
/// request lacks lines.
type Row = (&'static [&'static str], &'static str, Option<u64>);

const ROWS: [Row; 51] = [
    // Sections of each kind, and the empty one.
    (
        &["p aux sp ss 2", "s 1", "s 2"],
        "4 Sources([0, 1]) None Sources\n",
        None,
    ),
    (
        &["p aux sp p2p 1", "q 1 2"],
        "3 Pairs([(0, 1)]) None Pairs\n",
        None,
    ),
    (
        &["p aux sp walk 1", "q 1 2"],
        "3 Pairs([(0, 1)]) None Walk\n",
        None,
    ),
    (
        &["p aux sp add 1", "a 1 2 4"],
        "3 Absent Some(1) Added\n",
        None,
    ),
    (
        &["p aux sp cut 2", "q 1 2", "q 2 2", "p aux sp cut 0"],
        "4 Pairs([(0, 1), (1, 1)]) None Removed\n5 Pairs([]) None Removed\n",
        None,
    ),
    (
        &["p aux sp set 1", "a 1 2 4"],
        "3 Absent Some(1) Replaced\n",
        None,
    ),
    (
        &["p aux sp arcs 1", "q 2 1"],
        "3 Pairs([(1, 0)]) None Listed\n",
        None,
    ),
    (&["p aux sp p2p 0"], "2 Pairs([]) None Pairs\n", None),
    // Blanks, a carriage return, comments and blank lines.
    (
        &[" p\taux  sp walk 1\r", "c x", "", "q 1 2"],
        "5 Pairs([(0, 1)]) None Walk\n",
        None,
    ),
    // Sources within a bound, from the least to the greatest.
    (
        &["p aux sp within 7 2", "s 2", "s 1"],
        "4 Sources([1, 0]) None Within 7\n",
        None,
    ),
    (
        &[" p\taux  sp within 0 1\r", "c x", "", "s 2"],
        "5 Sources([1]) None Within 0\n",
        None,
    ),
    (
        &["p aux sp within 18446744073709551614 0"],
        "2 Sources([]) None Within 18446744073709551614\n",
        None,
    ),
    // A bound is of one request.
    (
        &["p aux sp within 3 1", "s 1", "p aux sp ss 1", "s 1"],
        "3 Sources([0]) None Within 3\n5 Sources([0]) None Sources\n",
        None,
    ),
    (
        &["p aux sp within 3 2", "s 1", "p aux sp within 4 0"],
        "e 4 too few lines\n4 Sources([]) None Within 4\n",
        None,
    ),
    (
        &["p aux sp within 3 1", "q 1 1", "p aux sp ss 0"],
        "e 3 misplaced line\n4 Sources([]) None Sources\n",
        None,
    ),
    // A wrong head: the number of fields, no number, out of range.
    (
        &["p aux sp within 7", "p aux sp ss 0"],
        "e 2 wrong number of fields\n3 Sources([]) None Sources\n",
        None,
    ),
    (
        &["p aux sp within x 1 1", "p aux sp ss 0"],
        "e 2 wrong number of fields\n3 Sources([]) None Sources\n",
        None,
    ),
    (
        &["p aux sp within -1 1", "p aux sp ss 0"],
        "e 2 not a number\n3 Sources([]) None Sources\n",
        None,
    ),
    (
        &["p aux sp within 18446744073709551615 x", "p aux sp ss 0"],
        "e 2 not a number\n3 Sources([]) None Sources\n",
        None,
    ),
    (
        &["p aux sp within 18446744073709551615 1", "p aux sp ss 0"],
        "e 2 out of range\n3 Sources([]) None Sources\n",
        None,
    ),
    (
        &["p aux sp within 18446744073709551616 1", "p aux sp ss 0"],
        "e 2 out of range\n3 Sources([]) None Sources\n",
        None,
    ),
    (
        &["p aux sp within 7 1048577", "p aux sp ss 0"],
        "e 2 out of range\n3 Sources([]) None Sources\n",
        None,
    ),
    (&["p aux sp withins 7 0"], "e 2 unknown line\n", None),
    // Words of the kind and of lines, each of which can be left out.
    (
        &["p aux sp levels raw ss 1", "s 2", "p aux sp ss 0"],
        "3 Sources([1]) None Levels Raw Sources\n4 Sources([]) None Sources\n",
        None,
    ),
    (
        &["p aux sp distances each within 4 1", "s 1"],
        "3 Sources([0]) None Distances Each Within 4\n",
        None,
    ),
    (
        &[
            "p aux sp components p2p 0",
            "p aux sp totals ss 0",
            "p aux sp levels walk 0",
        ],
        "2 Pairs([]) None Components Pairs\n3 Sources([]) None Totals Sources\n4 Pairs([]) None Levels Walk\n",
        None,
    ),
    (
        &["p aux sp raw p2p 1", "q 1 2", "p aux sp levels raw p2p 0"],
        "3 Pairs([(0, 1)]) None Raw Pairs\n4 Pairs([]) None Levels Raw Pairs\n",
        None,
    ),
    (
        &[" p aux\tsp  walks p2p 1\r", "q 2 1"],
        "3 Pairs([(1, 0)]) None Walks Pairs\n",
        None,
    ),
    // Changes and listings take no words, and their own letter.
    (
        &[
            "p aux sp levels cut 0",
            "p aux sp each set 0",
            "p aux sp walks arcs 0",
            "p aux sp cut 1",
            "a 1 2 4",
            "p aux sp set 1",
            "q 1 2",
            "p aux sp cut 1048577",
        ],
        "e 2 unknown line\ne 3 unknown line\ne 4 unknown line\ne 6 misplaced line\n\
         e 8 misplaced line\ne 9 out of range\n",
        None,
    ),
    // Words in another order, one that doesn't go with the form, and no form.
    (
        &[
            "p aux sp raw levels ss 0",
            "p aux sp levels levels ss 0",
            "p aux sp totals within 1 0",
        ],
        "e 2 unknown line\ne 3 unknown line\ne 4 unknown line\n",
        None,
    ),
    (
        &[
            "p aux sp totals p2p 0",
            "p aux sp each walk 0",
            "p aux sp levels add 0",
            "p aux sp raw add 0",
        ],
        "e 2 unknown line\ne 3 unknown line\ne 4 unknown line\ne 5 unknown line\n",
        None,
    ),
    (
        &[
            "p aux sp components raw p2p 0",
            "p aux sp components walk 0",
            "p aux sp components within 1 0",
            "p aux sp components each ss 0",
        ],
        "e 2 unknown line\ne 3 unknown line\ne 4 unknown line\ne 5 unknown line\n",
        None,
    ),
    (
        &[
            "p aux sp",
            "p aux sp levels",
            "p aux sp each 1",
            "p aux sp levels ss",
        ],
        "e 2 unknown line\ne 3 unknown line\ne 4 unknown line\ne 5 wrong number of fields\n",
        None,
    ),
    // Walks are of one request.
    (
        &["p aux sp walk 1", "q 1 2", "p aux sp p2p 1", "q 2 1"],
        "3 Pairs([(0, 1)]) None Walk\n5 Pairs([(1, 0)]) None Pairs\n",
        None,
    ),
    // Nothing more comes, or nothing that says something.
    (&[], "", None),
    (&["c nothing", " "], "", None),
    // A record too many begins the next request.
    (
        &[
            "p aux sp p2p 1",
            "q 1 1",
            "q 2 2",
            "p aux sp p2p 1",
            "q 1 2",
        ],
        "3 Pairs([(0, 0)]) None Pairs\ne 4 misplaced line\n",
        None,
    ),
    (
        &["a 1 1 0", "p aux sp p2p 1", "q 1 2", "p aux sp ss 1", "s 1"],
        "e 2 too many lines\n6 Sources([0]) None Sources\n",
        None,
    ),
    (&["x", "p aux sp ss 1", "s 1"], "e 2 unknown line\n", None),
    // A request that the next section line cuts off.
    (
        &["p aux sp ss 2", "s 1", "p aux sp p2p 1", "q 1 1"],
        "e 4 too few lines\n5 Pairs([(0, 0)]) None Pairs\n",
        None,
    ),
    (
        &["p aux sp ss 2", "s 1", "p aux sp p2p x", "q 1 1"],
        "e 4 too few lines\ne 4 not a number\n",
        None,
    ),
    (
        &["p aux sp walk 2", "q 1 1", "p aux sp walk 0"],
        "e 4 too few lines\n4 Pairs([]) None Walk\n",
        None,
    ),
    // A wrong section line begins a request, and so does that of an unknown section.
    (
        &["p aux sp ss", "p aux sp ss 0"],
        "e 2 wrong number of fields\n3 Sources([]) None Sources\n",
        None,
    ),
    (
        &["p aux sp walk 1 2", "p aux sp ss 0"],
        "e 2 wrong number of fields\n3 Sources([]) None Sources\n",
        None,
    ),
    (
        &["p aux sp p2q 1", "q 1 1", "p aux sp ss 0"],
        "e 2 unknown line\n4 Sources([]) None Sources\n",
        None,
    ),
    (
        &[
            "p aux sp ss 1",
            "p aux sp walkx 1",
            "q 1 1",
            "p aux sp ss 0",
        ],
        "e 3 too few lines\ne 3 unknown line\n5 Sources([]) None Sources\n",
        None,
    ),
    // A vertex that the graph doesn't have; the rest is skipped.
    (
        &["p aux sp ss 2", "s 3", "s 1", "s 1", "p aux sp ss 1", "s 2"],
        "e 3 out of range\n7 Sources([1]) None Sources\n",
        None,
    ),
    // A second graph.
    (
        &["p sp 3 1", "a 1 3 0", "p aux sp ss 1", "s 1"],
        "e 2 misplaced line\n",
        None,
    ),
    // The end within a request, and after one that was refused.
    (&["p aux sp ss 2", "s 1"], "", Some(4)),
    (&["p aux sp walk 1", "c"], "", Some(4)),
    (&["p aux sp ss 2", "s 3"], "e 3 out of range\n", None),
];

/// Appends the words of a head, its form and its bound.
fn put_head(alloc: Global, told: &mut String, head: SectionHead) -> Result<(), AllocError> {
    if let Some(kind) = head.kind {
        told.push_str(&format!(in alloc; "{kind:?} ")?)?;
    }
    if let Some(lines) = head.lines {
        told.push_str(&format!(in alloc; "{lines:?} ")?)?;
    }
    told.push_str(&format!(in alloc; "{:?}", head.form)?)?;
    if let Some(bound) = head.bound {
        told.push_str(&format!(in alloc; " {bound}")?)?;
    }
    told.push_str("\n")?;
    Ok(())
}

fn put_told(alloc: Global, told: &mut String, request: Option<Request>) -> Result<(), AllocError> {
    let line = match request {
        None => return Ok(()),
        Some(Request::Asked { line, job, head }) => {
            let added = job.added.as_ref().map(|arcs| arcs.len());
            told.push_str(&format!(in alloc; "{line} {:?} {added:?} ", job.ask)?)?;
            return put_head(alloc, told, head);
        }
        Some(Request::Wrong { line, kind }) => format!(in alloc; "e {line} {kind}\n")?,
        Some(Request::NoMemory { line }) => format!(in alloc; "e {line} out of memory\n")?,
    };
    told.push_str(&line)?;
    Ok(())
}

fn expect(rt: &impl Abort, alloc: Global, row: &Row) -> Result<(), Fail> {
    let mut requests = RequestReader::new(alloc, 2, 2);
    let mut told = String::new(alloc);
    for line in row.0 {
        let events = requests.read(line.as_bytes());
        put_told(alloc, &mut told, events.ended)?;
        put_told(alloc, &mut told, events.completed)?;
    }
    assert!(rt; told.as_str() == row.1, "{told}");
    assert!(rt; requests.lacking() == row.2, "{told}");
    Ok(())
}

#[test]
fn lines_come_to_requests(rt: HostRuntime) -> Result<(), Fail> {
    for row in &ROWS {
        expect(&rt, rt.alloc(), row)?;
    }
    Ok(())
}
