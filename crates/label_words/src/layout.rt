//! The places of the words of a run.
//!
//! Word 0 is the pending total, alone in its line of the cache. From word 8 on each vertex has its label and its mark,
//! in one line.

ghost use Rattle.std.specs.Prelude.{◌≡◌, ◌≤◌, [], replicate, IfOk};
ghost use Rattle.route_walks.specs.declared.graph.TheConstants.{MAX_VERTICES};
ghost use Rattle.label_words.specs.Layout.{label_word as label_at, mark_word as mark_at};
ghost use Rattle.label_words.specs.Layout.{vertex_count as vertices_of, word_count as count};
ghost use Rattle.label_words.specs.Sown.{IsSown};

use route_walks::{INF, Memory};
use std::alloc::Global;

pub(crate) const TOTAL: usize = 0;

/// The words before the first vertex.
const HEADER_WORDS: usize = 8;

pub(crate) const fn label_word(v: u32) -> usize
    ensures { result ≡ label_at v }
{
    2 * v as usize + HEADER_WORDS
}

pub(crate) const fn mark_word(v: u32) -> usize
    ensures { result ≡ mark_at v }
{
    2 * v as usize + HEADER_WORDS + 1
}

pub(crate) const fn word_count(n: u32) -> usize
    ensures { result ≡ count n }
{
    2 * n as usize + HEADER_WORDS
}

pub(crate) const fn vertex_count(words: usize) -> usize
    requires { 8 ≤ words }
    ensures { result ≡ vertices_of words }
{
    (words - HEADER_WORDS) / 2
}

/// The words of `n` vertices without a seed: labels `INF`, no mark, total 0.
pub(crate) fn cleared(alloc: Global, n: u32) -> Result<Vec<u64>, Memory>
    requires { n ≤ MAX_VERTICES }
    ensures { IfOk result (λ words. IsSown n [] words.items) }
{
    let mut words = Vec::with_capacity(alloc, word_count(n))?;
    words.extend_from_slice(&[0; HEADER_WORDS])?;
    put_cleared(&mut words, n);
    Ok(words)
}

fn put_cleared(words: &mut Vec<u64>, n: u32)
    requires vertices { n ≤ MAX_VERTICES }
    requires first { words.old.items ≡ replicate 8 0 }
    requires room { count n ≤ words.old.cap }
    ensures { IsSown n [] words.new.items }
{
    for _ in 0..n {
        words.push_reserved(INF);
        words.push_reserved(0);
    }
}
