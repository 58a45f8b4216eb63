//! Guesses: files that are no jobs, and what can be done with them.

use dimacs_text::{Explanation, LineKind};

/// The beginnings of other files, and what to do with them.
const FILES: [(&[u8], &str); 16] = [
    (
        b"\x1f\x8b",
        "it looks like gzip: gzip -dc FILE | obim_query",
    ),
    (
        b"\x28\xb5\x2f\xfd",
        "it looks like zstd: zstd -dc FILE | obim_query",
    ),
    (b"\xfd7zXZ", "it looks like xz: xz -dc FILE | obim_query"),
    (b"BZh", "it looks like bzip2: bzip2 -dc FILE | obim_query"),
    (
        b"PK\x03\x04",
        "it looks like a zip archive: unzip -p FILE | obim_query",
    ),
    (b"\xff\xfe", UTF_16),
    (b"\xfe\xff", UTF_16),
    (
        b"\xef\xbb\xbf",
        "it begins with a byte order mark: sed '1s/^\\xef\\xbb\\xbf//' FILE | obim_query",
    ),
    (
        b"%%MatrixMarket",
        "it looks like Matrix Market: write 'p sp N M', and each entry as 'a U V W'",
    ),
    (
        b"%",
        "it looks like METIS: write 'p sp N M', and each neighbour as 'a U V W'",
    ),
    (
        b"#",
        "it looks like an edge list of SNAP: examples/to_gr.py --snap FILE >GRAPH",
    ),
    (
        b"<",
        "it looks like XML; a map of OpenStreetMap: examples/osm_to_gr.py FILE >GRAPH",
    ),
    (
        b"\x00\x00\x00\r",
        "it looks like a map in PBF: osmium cat FILE -f osm | examples/osm_to_gr.py >GRAPH",
    ),
    (b"{", JSON),
    (b"[", JSON),
    (b"\"", "it looks like CSV: examples/to_gr.py FILE >GRAPH"),
];

const UTF_16: &str = "it looks like UTF-16: iconv -f UTF-16 -t UTF-8 FILE | obim_query";

const JSON: &str = "it looks like JSON: write 'p sp N M', and each edge as 'a U V W'";

/// The bytes between columns of a table, and what to do with it.
const TABLES: [(u8, &str); 3] = [
    (b',', "it looks like CSV: examples/to_gr.py FILE >GRAPH"),
    (
        b';',
        "it looks like CSV with semicolons: examples/to_gr.py --delimiter ';' FILE >GRAPH",
    ),
    (
        b'\t',
        "it looks like a table with tabs: examples/to_gr.py --delimiter tab FILE >GRAPH",
    ),
];

const NUMBERS: &str = "it looks like METIS or a list of edges; of a list: \
    examples/to_gr.py --delimiter blanks FILE >GRAPH";

/// The beginnings of other DIMACS problem lines, and what they are of.
const PROBLEMS: [(&[u8], &str); 6] = [
    (b"p edge", COLOURING),
    (b"p col", COLOURING),
    (
        b"p max",
        "it is a problem of maximum flow, and not of shortest paths",
    ),
    (
        b"p min",
        "it is a problem of minimum cost flow, and not of shortest paths",
    ),
    (
        b"p asn",
        "it is a problem of assignment, and not of shortest paths",
    ),
    (
        b"p cnf",
        "it is a problem of satisfiability, and not of shortest paths",
    ),
];

const COLOURING: &str = "it is a graph of edges without weights: write 'p sp N M', and each edge \
    both ways as 'a U V 1'";

const QUERIES_FIRST: &str = "the graph comes before its queries: cat GRAPH QUERIES | obim_query";

const JOINED: &str =
    "the file before lacks its last line feed: sed -s '$a\\' GRAPH QUERIES | obim_query";

pub(crate) fn guess(explanation: &Explanation) -> Option<&'static str> {
    let Some(text) = &explanation.text else {
        return None;
    };
    let line = text.bytes();
    match explanation.kind {
        LineKind::Misplaced if explanation.place.is_none() => Some(QUERIES_FIRST),
        _ if has_later(line, b"p aux sp") => Some(JOINED),
        LineKind::Unknown if explanation.place.is_none() => guess_of_file(line),
        _ => None,
    }
}

/// Guesses by a line of no form before any problem line.
fn guess_of_file(line: &[u8]) -> Option<&'static str> {
    let first = line.first().copied().unwrap_or(0);
    let second = line.get(1).copied().unwrap_or(1);
    if let Some(advice) = beginning_of(line, &FILES).or(beginning_of(line, &PROBLEMS)) {
        return Some(advice);
    }
    if second == 0 {
        return Some(UTF_16);
    }
    if let Some(advice) = table_of(line) {
        return Some(advice);
    }
    if first.is_ascii_digit() {
        Some(NUMBERS)
    } else {
        None
    }
}

fn beginning_of(line: &[u8], rows: &[(&[u8], &'static str)]) -> Option<&'static str> {
    for (beginning, advice) in rows {
        if line.starts_with(beginning) {
            return Some(*advice);
        }
    }
    None
}

fn table_of(line: &[u8]) -> Option<&'static str> {
    for (between, advice) in TABLES {
        if line.contains(&between) {
            return Some(advice);
        }
    }
    None
}

fn has_later(line: &[u8], words: &[u8]) -> bool {
    for at in 1..line.len() {
        if line[at..].starts_with(words) {
            return true;
        }
    }
    false
}
