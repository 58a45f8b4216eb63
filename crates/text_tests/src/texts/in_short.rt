//! Raw labels and totals.

use answer_lines::{Totals, put_raw, put_totals};
use route_walks::{INF, Memory};
use std::alloc::Global;
use std::process::Abort;
use std::test::Fail;

// The labels, and their totals from vertex 8.
const TOTALS: [(&[u64], &str); 8] = [
    (&[0], "t 8 1 0 0 1\n"),
    (&[INF, 0, INF], "t 8 1 0 0 2\n"),
    (&[0, 10, 10, 12, 10, 15], "t 8 6 57 15 6\n"),
    (&[7, 3, 7, INF], "t 8 3 17 7 1\n"),
    (
        &[4294967295, INF, 4294967297],
        "t 8 2 8589934592 4294967297 3\n",
    ),
    (
        &[1 << 63, INF, 1 << 63],
        "t 8 2 18446744073709551616 9223372036854775808 1\n",
    ),
    (
        &[5, INF - 1, 1 << 63, INF - 1],
        "t 8 4 46116860184273879041 18446744073709551614 2\n",
    ),
    // If no label is a cost, there is no farthest vertex.
    (&[INF, INF], "t 8 0 0 0 3\n"),
];

fn put_totals_of(rt: &impl Abort, alloc: Global, labels: &[u64]) -> Result<Vec<u8>, Memory> {
    assert!(rt; labels.len() < 100);
    let mut out = Vec::new(alloc);
    put_totals(&mut out, 7, &Totals::of(labels))?;
    Ok(out)
}

#[test]
fn totals(rt: HostRuntime) -> Result<(), Fail> {
    for (labels, want) in TOTALS {
        let out = put_totals_of(&rt, rt.alloc(), labels)?;
        assert!(rt; out.as_slice() == want.as_bytes(), "{want}");
    }
    Ok(())
}

const LABELS: [u64; 5] = [0, 258, INF, 1 << 63, 0x0102_0304_0506_0708];

const BYTES: &[u8] = b"\0\0\0\0\0\0\0\0\x02\x01\0\0\0\0\0\0\xff\xff\xff\xff\xff\xff\xff\xff\
    \0\0\0\0\0\0\0\x80\x08\x07\x06\x05\x04\x03\x02\x01";

const MANY: [u64; 300] = [INF - 1; 300];

const WORD: &[u8] = b"\xfe\xff\xff\xff\xff\xff\xff\xff";

// Also more labels than a group.
#[test]
fn raw_labels(rt: HostRuntime) -> Result<(), Fail> {
    let mut out = Vec::new(rt.alloc());
    put_raw(&mut out, &LABELS)?;
    put_raw(&mut out, &[])?;
    assert!(rt; out.as_slice() == BYTES);
    for count in [63, 64, 65, 128, 129, 300] {
        let some = &MANY[..MANY.len().min(count)];
        let mut out = Vec::new(rt.alloc());
        put_raw(&mut out, some)?;
        assert!(rt; out.len() == 8 * some.len());
        assert!(rt; out.chunks(8).all(|word| word == WORD));
    }
    Ok(())
}
