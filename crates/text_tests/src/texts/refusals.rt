//! Each call with one allocation refused: `Memory` with the vector as it was, and made once more what was worked by
//! hand.

ghost use Rattle.std.specs.Prelude.{◌<◌, length};
ghost use Rattle.dimacs_text.specs.Reading.{IsReadAhead};

use crate::texts::readers::{NOTHING, ONE_ARC};
use crate::texts::several::large;
use crate::texts::{GRAPH, SHORT, assert_added, assert_job, assert_pairs, joined};
use answer_lines::{
    Totals, put_arc, put_components, put_distances, put_grown, put_label, put_labels, put_pair,
    put_raw, put_ready, put_refusal, put_removed, put_source, put_totals, put_walk,
};
use dimacs_text::{
    ExplainedFault, Job, JobReader, LineKind, Parts, ReadAhead, RequestDraft, TextFault, read_job,
    read_side_by_side,
};
use job_reader::{ReadFault, read_arcs_from, read_job_from};
use request_reader::{Request, RequestReader};
use route_walks::{ArcRec, INF, Memory, refusable};
use std::alloc::Global;
use std::process::Abort;
use std::test::Fail;
use std::thread::Threads;
use std::time::Clock;

// The vector before a call.
const FRONT: &[u8] = b"c\n";

// Sources and an added arc, for 6 vertices.
const QUERIES: &[u8] = b"p aux sp ss 3\ns 3\ns 5\ns 3\np aux sp add 1\na 1 6 4";

// More vertices than a walk's line has room for at first.
const WALK: [u32; 12] = [0, 2, 4, 1, 3, 5, 3, 2, 4, 1, 3, 5];

#[derive(Clone, Copy)]
enum Line {
    Source,
    Label,
    Labels,
    Distances,
    Components,
    Walk,
    Pair,
    Grown,
    Removed,
    Arc,
    Ready,
    Refusal,
    Raw,
    Totals,
}

const TOTALS: Totals = Totals {
    reached: 6,
    sum: 57,
    greatest: 15,
    farthest: 5,
};

fn put(out: &mut Vec<u8>, line: Line) -> Result<(), Memory> {
    match line {
        Line::Source => put_source(out, 268435455),
        Line::Label => put_label(out, 9, INF),
        Line::Labels => put_labels(out, 47, &[0, INF, 12, 7]),
        Line::Distances => put_distances(out, 0, &[0, 10, 10, 12, 10, 15]),
        Line::Components => put_components(out, 47, &[0, 0, 0, 47]),
        Line::Walk => put_walk(out, 15, &WALK),
        Line::Pair => put_pair(out, 0, 5, INF),
        Line::Grown => put_grown(out, 1),
        Line::Removed => put_removed(out, 4294967296),
        Line::Arc => put_arc(out, ArcRec::new(0, 268435455, 4294967295)),
        Line::Ready => put_ready(out, 268435456, 1074790400, 17),
        Line::Refusal => put_refusal(out, 17, "out of range"),
        Line::Raw => put_raw(out, &[0, 258]),
        Line::Totals => put_totals(out, 0, &TOTALS),
    }
}

// Asserts the outcome of a line in a vector without room: the vector as it was, and then the line.
fn expect_put(rt: &impl Abort, alloc: Global, line: Line, want: &str) -> Result<(), Fail> {
    let mut out = Vec::from_slice(alloc, FRONT)?;
    if let Err(Memory) = refusable!(alloc, put(&mut out, line)) {
        assert!(rt; out.as_slice() == FRONT);
        put(&mut out, line)?;
    }
    assert!(rt; out.as_slice() == want.as_bytes());
    Ok(())
}

fn feed_both(reader: &mut JobReader, front: &[u8], back: &[u8]) -> Result<(), Memory> {
    reader.feed(front)?;
    reader.feed(back)
}

#[derive(Clone, Copy)]
enum Read {
    Text,
    Pieces,
    Explained,
    Reader,
}

fn fed(alloc: Global, text: &[u8]) -> Result<JobReader, Memory> {
    let mut reader = JobReader::new(alloc);
    reader.feed(text)?;
    Ok(reader)
}

fn finished(alloc: Global, text: &[u8]) -> Result<Job, TextFault> {
    match fed(alloc, text) {
        Ok(reader) => reader.finish(),
        Err(Memory) => Err(TextFault::Memory),
    }
}

const REFUSED: ExplainedFault = ExplainedFault {
    fault: TextFault::Memory,
    explanation: None,
};

fn explained(alloc: Global, text: &[u8]) -> Result<Job, ExplainedFault> {
    match fed(alloc, text) {
        Ok(reader) => reader.finish_explained(),
        Err(Memory) => Err(REFUSED),
    }
}

// The job of a text, or true if memory was refused.
fn job_by<H: Threads + Clock + Sync>(
    rt: &H,
    alloc: Global,
    text: &[u8],
    read: Read,
) -> Result<Job, bool>
    requires { length text.now < 1000 }
{
    let (mut reader, mut told) = (text, NOTHING);
    match read {
        Read::Text => read_job(alloc, text).map_err(|fault| fault == TextFault::Memory),
        Read::Pieces => finished(alloc, text).map_err(|fault| fault == TextFault::Memory),
        Read::Explained => explained(alloc, text).map_err(|refused| refused == REFUSED),
        Read::Reader => read_job_from(rt, alloc, &mut reader, 1000, 2, &mut told).map_err(
            |fault| fault == ReadFault::Memory,
        ),
    }
}

fn read_again<H: Threads + Clock + Abort + Sync>(
    rt: &H,
    alloc: Global,
    text: &[u8],
    read: Read,
) -> Job {
    assert!(rt; text.len() < 1000);
    let job = match refusable!(alloc, job_by(rt, alloc, text, read)) {
        Ok(job) => Some(job),
        Err(is_memory) => {
            assert!(rt; is_memory);
            job_by(rt, alloc, text, read).ok()
        }
    };
    job.expect(rt, "the job of the text")
}

#[test]
fn of_read_job(rt: HostRuntime) -> Result<(), Fail> {
    let text = joined(rt.alloc(), GRAPH, QUERIES)?;
    let job = read_again(&rt, rt.alloc(), &text, Read::Text);
    assert_added(&rt, rt.alloc(), &job, "Sources([2, 4, 2])", &[SHORT])
}

// After a refusal nothing is known of the reader: the text goes to another one.
fn fed_again(rt: &impl Abort, alloc: Global, text: &[u8], cut: usize) -> Result<(), Fail> {
    let (front, back) = text.split_at(text.len().min(cut));
    let mut reader = JobReader::new(alloc);
    if let Err(Memory) = refusable!(alloc, feed_both(&mut reader, front, back)) {
        reader = JobReader::new(alloc);
        feed_both(&mut reader, front, back)?;
    }
    let job = reader.finish()?;
    assert_added(rt, alloc, &job, "Sources([2, 4, 2])", &[SHORT])
}

#[test]
fn of_job_reader_feed(rt: HostRuntime) -> Result<(), Fail> {
    let text = joined(rt.alloc(), GRAPH, QUERIES)?;
    for cut in [0, 5, 30, 90] {
        fed_again(&rt, rt.alloc(), &text, cut)?;
    }
    Ok(())
}

fn expect_large(rt: &impl Abort, reader: JobReader) -> Result<(), Fail> {
    let job = reader.finish()?;
    assert_job(rt, &job, 5000, ArcRec::new(999, 1993, 5999), &[4999]);
    Ok(())
}

// Reads ahead in the text by two threads and this one.
fn read_ahead(rt: &(impl Threads + Sync), ahead: &mut ReadAhead, text: &[u8])
    ensures { IsReadAhead text.now ahead.new }
{
    ahead.open(4);
    let parts = &Parts::new(text, 5000, ahead.threads());
    read_side_by_side(rt, &mut ahead.others, parts);
    ahead.one.read(parts);
    ahead.another.read(parts);
}

// If that is refused memory, one thread reads all lines.
#[test]
fn of_read_side_by_side(rt: HostRuntime) -> Result<(), Fail> {
    let alloc = rt.alloc();
    let text = large(alloc, 3000, b"c\n")?;
    let mut ahead = ReadAhead::new(alloc);
    refusable!(alloc, read_ahead(&rt, &mut ahead, &text));
    let mut reader = JobReader::new(alloc);
    reader.feed_with(&text, &ahead)?;
    expect_large(&rt, reader)
}

// If a run is refused memory its lines are read one by one.
#[test]
fn of_job_reader_feed_with(rt: HostRuntime) -> Result<(), Fail> {
    let alloc = rt.alloc();
    let text = large(alloc, 3000, b"c\n")?;
    let mut ahead = ReadAhead::new(alloc);
    read_ahead(&rt, &mut ahead, &text);
    let mut reader = JobReader::new(alloc);
    if let Err(Memory) = refusable!(alloc, reader.feed_with(&text, &ahead)) {
        reader = JobReader::new(alloc);
        reader.feed(&text)?;
    }
    expect_large(&rt, reader)
}

#[test]
fn of_read_ahead_new(rt: HostRuntime) -> Result<(), Fail> {
    let alloc = rt.alloc();
    let mut ahead = refusable!(alloc, ReadAhead::new(alloc));
    refusable!(alloc, ahead.clear());
    let mut reader = JobReader::new(alloc);
    reader.feed_with(b"p sp 1 0\n", &ahead)?;
    let job = reader.finish()?;
    assert!(rt; job.n == 1);
    Ok(())
}

fn expect_one_arc<H: Threads + Clock + Abort + Sync>(
    rt: &H,
    alloc: Global,
    text: &[u8],
    read: Read,
) {
    let job = read_again(rt, alloc, text, read);
    assert_job(rt, &job, 2, ArcRec::new(0, 1, 7), &[]);
}

// The last line has no end.
const UNENDED: &[u8] = b"p sp 2 1\na 1 2 7";

#[test]
fn of_job_reader_finish(rt: HostRuntime) {
    expect_one_arc(&rt, rt.alloc(), UNENDED, Read::Pieces);
}

#[test]
fn of_job_reader_finish_explained(rt: HostRuntime) {
    expect_one_arc(&rt, rt.alloc(), UNENDED, Read::Explained);
}

#[test]
fn of_job_reader_new(rt: HostRuntime) {
    let alloc = rt.alloc();
    let reader = refusable!(alloc, JobReader::new(alloc));
    let none = TextFault::Line {
        line: 1,
        kind: LineKind::NoProblem,
    };
    assert!(rt; reader.finish().err() == Some(none));
}

/// A graph, and bytes of the request after it.
const GRAPH_FIRST: &[u8] = b"p sp 2 1\na 1 2 7\np aux";

#[test]
fn of_job_reader_feed_graph(rt: HostRuntime) -> Result<(), Fail> {
    let alloc = rt.alloc();
    let mut reader = JobReader::new(alloc);
    let fed = match refusable!(alloc, reader.feed_graph(GRAPH_FIRST)) {
        Ok(fed) => fed,
        Err(Memory) => {
            reader = JobReader::new(alloc);
            reader.feed_graph(GRAPH_FIRST)?
        }
    };
    assert!(rt; fed == 17 && reader.has_graph());
    Ok(())
}

#[test]
fn of_job_reader_finish_graph(rt: HostRuntime) -> Result<(), Fail> {
    let alloc = rt.alloc();
    let mut reader = JobReader::new(alloc);
    reader.feed_graph(GRAPH_FIRST)?;
    let (graph, line) = refusable!(alloc, reader.finish_graph())?;
    assert!(rt; graph.n == 2 && line == 3);
    Ok(())
}

#[test]
fn of_read_job_from(rt: HostRuntime) {
    expect_one_arc(&rt, rt.alloc(), ONE_ARC, Read::Reader);
}

// The read bytes of a graph of which one arc comes, by several threads.
fn read_on<H: Threads + Clock + Sync>(
    rt: &H,
    alloc: Global,
) -> Result<(JobReader, usize), ReadFault> {
    let (mut job, mut reader) = (JobReader::new(alloc), b"a 1 2 7\n".as_slice());
    job.feed(b"p sp 2 200000\n")?;
    let count = read_arcs_from(rt, alloc, &mut reader, &mut job, 1000, 2)?;
    Ok((job, count))
}

#[test]
fn of_read_arcs_from(rt: HostRuntime) -> Result<(), Fail> {
    let alloc = rt.alloc();
    let (job, count) = match refusable!(alloc, read_on(&rt, alloc)) {
        Ok(read) => read,
        Err(fault) => {
            assert!(rt; fault == ReadFault::Memory);
            read_on(&rt, alloc)?
        }
    };
    assert!(rt; count == 8 && job.arcs_so_far() == Some((1, 200000)));
    Ok(())
}

#[test]
fn of_put_source(rt: HostRuntime) -> Result<(), Fail> {
    expect_put(&rt, rt.alloc(), Line::Source, "c\ns 268435456\n")
}

#[test]
fn of_put_label(rt: HostRuntime) -> Result<(), Fail> {
    expect_put(&rt, rt.alloc(), Line::Label, "c\nd 10 inf\n")
}

#[test]
fn of_put_labels(rt: HostRuntime) -> Result<(), Fail> {
    let lines = "c\nd 48 0\nd 49 inf\nd 50 12\nd 51 7\n";
    expect_put(&rt, rt.alloc(), Line::Labels, lines)
}

#[test]
fn of_put_distances(rt: HostRuntime) -> Result<(), Fail> {
    let lines = "c\ns 1\nd 1 0\nd 2 10\nd 3 10\nd 4 12\nd 5 10\nd 6 15\n";
    expect_put(&rt, rt.alloc(), Line::Distances, lines)
}

#[test]
fn of_put_components(rt: HostRuntime) -> Result<(), Fail> {
    let lines = "c\nk 48 1\nk 49 1\nk 50 1\nk 51 48\n";
    expect_put(&rt, rt.alloc(), Line::Components, lines)
}

#[test]
fn of_put_walk(rt: HostRuntime) -> Result<(), Fail> {
    let line = "c\nw 6 15 1 3 5 2 4 6 4 3 5 2 4 6\n";
    expect_put(&rt, rt.alloc(), Line::Walk, line)
}

#[test]
fn of_put_pair(rt: HostRuntime) -> Result<(), Fail> {
    expect_put(&rt, rt.alloc(), Line::Pair, "c\nq 1 6 inf\n")
}

#[test]
fn of_put_removed(rt: HostRuntime) -> Result<(), Fail> {
    expect_put(&rt, rt.alloc(), Line::Removed, "c\nx 4294967296\n")
}

#[test]
fn of_put_arc(rt: HostRuntime) -> Result<(), Fail> {
    let line = "c\na 1 268435456 4294967295\n";
    expect_put(&rt, rt.alloc(), Line::Arc, line)
}

#[test]
fn of_put_grown(rt: HostRuntime) -> Result<(), Fail> {
    expect_put(&rt, rt.alloc(), Line::Grown, "c\ng 1\n")
}

#[test]
fn of_put_ready(rt: HostRuntime) -> Result<(), Fail> {
    expect_put(
        &rt,
        rt.alloc(),
        Line::Ready,
        "c\nr 268435456 1074790400 17\n",
    )
}

#[test]
fn of_put_refusal(rt: HostRuntime) -> Result<(), Fail> {
    expect_put(&rt, rt.alloc(), Line::Refusal, "c\ne 17 out of range\n")
}

#[test]
fn of_put_raw(rt: HostRuntime) -> Result<(), Fail> {
    let bytes = "c\n\0\0\0\0\0\0\0\0\u{2}\u{1}\0\0\0\0\0\0";
    expect_put(&rt, rt.alloc(), Line::Raw, bytes)
}

#[test]
fn of_put_totals(rt: HostRuntime) -> Result<(), Fail> {
    expect_put(&rt, rt.alloc(), Line::Totals, "c\nt 1 6 57 15 6\n")
}

fn drafted(alloc: Global, vertices: u32) -> Result<RequestDraft, TextFault> {
    let mut draft = refusable!(alloc, RequestDraft::new(alloc, vertices));
    draft.read(b"p aux sp ss 1", 10)?;
    Ok(draft)
}

#[test]
fn of_request_draft_new(rt: HostRuntime) -> Result<(), Fail> {
    let draft = drafted(rt.alloc(), 6)?;
    assert!(rt; draft.is_short() && !draft.is_whole());
    Ok(())
}

#[test]
fn of_request_draft_read(rt: HostRuntime) -> Result<(), Fail> {
    let alloc = rt.alloc();
    let mut draft = drafted(alloc, 6)?;
    if let Err(fault) = refusable!(alloc, draft.read(b"s 3", 11)) {
        assert!(rt; fault == TextFault::Memory);
        draft = drafted(alloc, 6)?;
        draft.read(b"s 3", 11)?;
    }
    assert!(rt; draft.is_whole());
    let asked = format!(in alloc; "{:?}", draft.finish().ask)?;
    assert!(rt; asked.as_str() == "Sources([2])");
    Ok(())
}

#[test]
fn of_request_reader_new(rt: HostRuntime) {
    let alloc = rt.alloc();
    let requests = refusable!(alloc, RequestReader::new(alloc, 6, 10));
    assert!(rt; requests.lacking() == None);
}

// The pairs that a request asks, or the line at which memory was refused.
fn asked(found: Option<Request>) -> Result<Option<Job>, u64> {
    match found {
        Some(Request::Asked { job, .. }) => Ok(Some(job)),
        Some(Request::NoMemory { line }) => Err(line),
        _ => Ok(None),
    }
}

// If memory is refused the request is refused, and the next one is answered.
#[test]
fn of_request_reader_read(rt: HostRuntime) {
    let alloc = rt.alloc();
    let mut requests = RequestReader::new(alloc, 6, 10);
    requests.read(b"p aux sp p2p 1");
    let job = match asked(refusable!(alloc, requests.read(b"q 1 6")).completed) {
        Ok(job) => job,
        Err(line) => {
            assert!(rt; line == 11);
            requests.read(b"p aux sp p2p 1");
            asked(requests.read(b"q 1 6").completed).ok().flatten()
        }
    };
    assert_pairs(&rt, &job.expect(&rt, "the pair"), &[(0, 5)]);
}
