//! The lines of a block.

ghost use Rattle.std.specs.Prelude.{◌≡◌, ◌≢◌, ◌<◌, ◌≤◌, ◌++◌, ℕ, [], List, length, max};
ghost use Rattle.std.specs.Prelude.{All, IfErr, IfSome, OnErr, OnOk};
ghost use Rattle.answer_lines.specs.Lines.{components_text, distances_text, label_text, source_text};
ghost use Rattle.answer_lines.specs.Raw.{raw_text};
ghost use Rattle.answer_lines.specs.Totals.{totals_text};
ghost use Rattle.job_answer.specs.LineWalks.{AreReachedWithin, HasWalkAt, text_by};
ghost use Rattle.job_answer.specs.NearBlock.{AreTextsOf};
ghost use Rattle.job_answer.specs.NearPairs.{walk_part};
ghost use Rattle.job_answer.specs.Sinks.{Is, Puts};
ghost use Rattle.job_answer.specs.Within.{line_within, listed_text, text_within};

use crate::output::line_walks::{LineWalks, put_walk_line};
use crate::output::sink::Sink;
use answer_lines::{Totals, put_label, put_source, put_walk};
use route_walks::{INF, MAX_VERTICES, Memory};
use std::alloc::Global;
use std::io::Write;

/// Lines put between two looks at the buffer's size.
const LINES_A_LOOK: usize = 512;

/// Puts the lines of components.
pub fn put_component_lines<W: Write>(sink: &mut Sink<'_, W>, labels: &[u64])
    requires vertices { length labels.now ≤ MAX_VERTICES }
    requires finite { All (λ label. label < INF) labels.now }
    ensures { Puts W.contents (Is (components_text labels.now)) sink.old sink.new }
{
    let mut v = 0;
    for group in labels.chunks(LINES_A_LOOK) {
        let put = answer_lines::put_components(sink.waiting, v, group);
        sink.end(put);
        v += group.len() as u32;
    }
}

/// Puts the lines of a source.
pub fn put_all_labels<W: Write>(sink: &mut Sink<'_, W>, source: u32, labels: &[u64])
    requires source { source < MAX_VERTICES }
    requires vertices { length labels.now ≤ MAX_VERTICES }
    ensures { Puts W.contents (Is (distances_text source labels.now)) sink.old sink.new }
{
    put_first(sink, source);
    let mut v = 0;
    for group in labels.chunks(LINES_A_LOOK) {
        let put = answer_lines::put_labels(sink.waiting, v, group);
        sink.end(put);
        v += group.len() as u32;
    }
}

/// Puts the line of a source and its labels as bytes.
pub fn put_raw_block<W: Write>(sink: &mut Sink<'_, W>, source: u32, labels: &[u64])
    requires source { source < MAX_VERTICES }
    ensures { Puts W.contents (Is (raw_text source labels.now)) sink.old sink.new }
{
    put_first(sink, source);
    for group in labels.chunks(LINES_A_LOOK) {
        let put = answer_lines::put_raw(sink.waiting, group);
        sink.end(put);
    }
}

/// Puts the line of a source's totals.
pub fn put_totals_line<W: Write>(sink: &mut Sink<'_, W>, source: u32, labels: &[u64])
    requires vertices { length labels.now ≤ MAX_VERTICES }
    ensures { Puts W.contents (Is (totals_text source labels.now)) sink.old sink.new }
{
    let totals = Totals::of(labels);
    let put = answer_lines::put_totals(sink.waiting, source, &totals);
    sink.end(put);
}

/// Puts the line of a source and those of labels at most the bound, each with its walk if there are walks.
pub fn put_within<W: Write>(
    alloc: Global,
    sink: &mut Sink<'_, W>,
    source: u32,
    bound: u64,
    labels: &[u64],
    walks: &Option<LineWalks>,
)
    requires source { source < MAX_VERTICES }
    requires vertices { length labels.now ≤ MAX_VERTICES }
    requires walks { IfSome walks.now (AreReachedWithin bound labels.now) }
    ensures { Puts W.contents (Is (text_within source bound (text_by walks.now) labels.now)) sink.old sink.new }
{
    put_first(sink, source);
    for (v, label) in labels.iter().enumerate() {
        put_vertex(alloc, sink, v as u32, *label, bound, walks);
    }
}

/// Puts the line of a source and those of these vertices.
pub fn put_listed<W: Write>(sink: &mut Sink<'_, W>, source: u32, found: &[(u32, u64)])
    requires source { source < MAX_VERTICES }
    requires vertices { All (λ entry. entry.0 < MAX_VERTICES) found.now }
    ensures { Puts W.contents (Is (source_text source ++ listed_text label_text found.now)) sink.old sink.new }
{
    put_first(sink, source);
    for entry in found {
        let put = put_label(sink.waiting, entry.0, entry.1);
        sink.end(put);
    }
}

/// Puts the line of a source and those of these vertices, each with the walk at its place.
pub fn put_walked<W: Write>(
    sink: &mut Sink<'_, W>,
    source: u32,
    found: &[(u32, u64)],
    walks: &[Vec<u32>],
)
    requires source { source < MAX_VERTICES }
    requires vertices { All (λ entry. entry.0 < MAX_VERTICES) found.now }
    requires count { length walks.now ≡ length found.now }
    requires walked { All (λ walk. All (λ u. u < MAX_VERTICES) walk.items) walks.now }
    ensures { (text : ℕ → ℕ → List ℕ) → AreTextsOf text found.now walks.now
        → Puts W.contents (Is (source_text source ++ listed_text text found.now)) sink.old sink.new }
{
    put_first(sink, source);
    for (place, entry) in found.iter().enumerate() {
        let put = put_found_vertex(sink.waiting, entry.0, entry.1, &walks[place]);
        sink.end(put);
    }
}

/// Puts the line of a vertex, and of its walk if one leads there.
fn put_found_vertex(out: &mut Vec<u8>, v: u32, label: u64, walk: &[u32]) -> Result<(), Memory>
    requires vertex { v < MAX_VERTICES }
    requires walk { All (λ u. u < MAX_VERTICES) walk.now }
    ensures put { OnOk result (out.new.items ≡ out.old.items ++ (label_text v label ++ walk_part label walk.now)) }
{
    put_label(out, v, label)?;
    put_walk_part(out, label, walk)
}

/// Puts the line of a walk, if it has vertices.
pub(crate) fn put_walk_part(out: &mut Vec<u8>, label: u64, walk: &[u32]) -> Result<(), Memory>
    requires walk { All (λ u. u < MAX_VERTICES) walk.now }
    ensures put { OnOk result (out.new.items ≡ out.old.items ++ walk_part label walk.now) }
{
    if walk.is_empty() {
        return Ok(());
    }
    put_walk(out, label, walk)
}

/// Puts the line of a source.
fn put_first<W: Write>(sink: &mut Sink<'_, W>, source: u32)
    requires { source < MAX_VERTICES }
    ensures { Puts W.contents (Is (source_text source)) sink.old sink.new }
{
    let put = put_source(sink.waiting, source);
    sink.end(put);
}

/// Puts the lines of a vertex whose label is at most the bound.
fn put_vertex<W: Write>(
    alloc: Global,
    sink: &mut Sink<'_, W>,
    v: u32,
    label: u64,
    bound: u64,
    walks: &Option<LineWalks>,
)
    requires vertex { v < MAX_VERTICES }
    requires walks { label ≤ bound → IfSome walks.now (HasWalkAt v label) }
    ensures { Puts W.contents (Is (line_within bound (text_by walks.now) v label)) sink.old sink.new }
{
    // A walk may be long, so none is looked for once nothing more is written.
    if label > bound || sink.has_stopped() {
        return;
    }
    let put = put_vertex_lines(alloc, sink.waiting, v, label, walks);
    sink.end(put);
}

/// Puts the line of a vertex, and that of its walk if there is one.
fn put_vertex_lines(
    alloc: Global,
    out: &mut Vec<u8>,
    v: u32,
    label: u64,
    walks: &Option<LineWalks>,
) -> Result<(), Memory>
    requires vertex { v < MAX_VERTICES }
    requires walks { IfSome walks.now (HasWalkAt v label) }
    ensures put { OnOk result (out.new.items ≡ out.old.items ++ text_by walks.now v label) }
{
    put_label(out, v, label)?;
    match walks {
        Some(walks) => put_walk_line(alloc, out, v, label, walks),
        None => Ok(()),
    }
}
