//! The words that a run begins with, from seeds or from a pause.

ghost use Rattle.std.specs.Prelude.{◌≡◌, ℕ, ◌<◌, ◌≤◌, ◌++◌, ◌∷◌, [], List, length, IfOk};
ghost use Rattle.route_walks.specs.declared.graph.TheConstants.{MAX_VERTICES};
ghost use Rattle.route_walks.specs.declared.graph.Seed.{Seed};
ghost use Rattle.route_walks.specs.Walk.{AreSeeds};
ghost use Rattle.label_words.specs.Layout.{word_count as count};
ghost use Rattle.label_words.specs.Rule.{IsLaid};
ghost use Rattle.label_words.specs.Sown.{IsSown, state_of};

use crate::layout::{TOTAL, cleared, label_word, mark_word, word_count};
use route_walks::{Memory, Seed};
use std::alloc::Global;

/// The words of `n` vertices with these seeds.
pub(crate) fn lay(alloc: Global, n: u32, seeds: &[Seed]) -> Result<Vec<u64>, Memory>
    requires vertices { n ≤ MAX_VERTICES }
    requires seeds { AreSeeds n seeds.now }
    ensures { IfOk result (λ words. IsSown n seeds.now words.items) }
{
    let mut words = cleared(alloc, n)?;
    sow_all(&mut words, n, seeds);
    Ok(words)
}

fn sow_all(words: &mut [u64], n: u32, seeds: &[Seed])
    requires seeds { AreSeeds n seeds.now }
    requires none { IsSown n [] words.old }
    ensures { IsSown n seeds.now words.new }
{
    for seed in seeds {
        sow(words, seed);
    }
}

/// Gives the seed's vertex a mark, and its start if that is less than its label.
fn sow(words: &mut [u64], seed: &Seed)
    requires { (n : ℕ) × (seeds : List Seed) × (seed.now.vertex < n) × IsSown n seeds words.old }
    ensures { (n : ℕ) (seeds : List Seed)
        → IsSown n seeds words.old
        → seed.now.vertex < n
        → IsSown n (seeds ++ seed.now ∷ []) words.new }
{
    let (label, mark) = (label_word(seed.vertex), mark_word(seed.vertex));
    let new_marks = if words[mark] == 0 { 1 } else { 0 };
    words[label] = words[label].min(seed.start);
    words[TOTAL] += new_marks;
    words[mark] = 1;
}

pub(crate) fn lay_rest(
    alloc: Global,
    n: u32,
    labels: &[u64],
    marks: &[bool],
) -> Result<Vec<u64>, Memory>
    requires vertices { n ≤ MAX_VERTICES }
    requires labels { length labels.now ≡ n }
    requires marks { length marks.now ≡ n }
    ensures { IfOk result
        (λ words. IsLaid (state_of record { labels = labels.now; marks = marks.now }) n words.items) }
{
    let mut words = vec![in alloc; 0; word_count(n)]?;
    put_rest(&mut words, n, labels, marks);
    Ok(words)
}

fn put_rest(words: &mut [u64], n: u32, labels: &[u64], marks: &[bool])
    requires vertices { n ≤ MAX_VERTICES }
    requires count { length words.old ≡ count n }
    requires labels { length labels.now ≡ n }
    requires marks { length marks.now ≡ n }
    ensures { IsLaid (state_of record { labels = labels.now; marks = marks.now }) n words.new }
{
    let mut total = 0;
    for v in 0..n {
        let mark = u64::from(marks[v as usize]);
        words[label_word(v)] = labels[v as usize];
        words[mark_word(v)] = mark;
        total += mark;
    }
    words[TOTAL] = total;
}
