//! A large text, which several threads read ahead.

use dimacs_text::JobReader;
use std::alloc::{AllocError, Global};
use std::process::Abort;
use std::test::Fail;

/// The arcs of a text of some 80 KB, at most five parts.
const ARCS: u32 = 6000;

/// A text of many arcs, with other bytes in front of one of them.
pub fn large(alloc: Global, place: u32, odd: &[u8]) -> Result<Vec<u8>, AllocError> {
    let mut text = Vec::from_slice(alloc, b"c roads\np sp 5000 6000\n")?;
    for i in 0..ARCS {
        if i == place {
            text.extend_from_slice(odd)?;
        }
        let (tail, head) = (i % 5000 + 1, i * 7 % 5000 + 1);
        let line = format!(in alloc; "a {tail} {head} {i}\n")?;
        text.extend_from_slice(line.as_bytes())?;
    }
    text.extend_from_slice(b"p aux sp ss 1\ns 5000")?;
    Ok(text)
}

fn expect_count(
    rt: &impl Abort,
    reader: &JobReader,
    so_far: Option<(usize, usize)>,
    ahead: Option<u32>,
) {
    assert!(rt; reader.arcs_so_far() == so_far);
    assert!(rt; reader.vertices_if_arcs_come() == ahead);
}

#[test]
fn arcs_are_counted_as_they_come(rt: HostRuntime) -> Result<(), Fail> {
    let mut reader = JobReader::new(rt.alloc());
    expect_count(&rt, &reader, None, None);
    reader.feed(b"p sp 3 2\na 1 2 1\na 2 3")?;
    expect_count(&rt, &reader, Some((1, 2)), Some(3));
    reader.feed(b" 1\np aux sp ss 1\n")?;
    expect_count(&rt, &reader, Some((2, 2)), None);
    Ok(())
}
