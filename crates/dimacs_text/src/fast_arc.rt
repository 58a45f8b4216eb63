//! A fast way through the lines of arcs.
//!
//! Most lines of a text are arcs, `a U V W` with one blank before each number. Such a line is read in one pass over its
//! bytes, with no search for its end and no test of a bound: the bytes end with a line feed. `None` leaves any other
//! line to the reader of all lines.

ghost use Rattle.std.specs.Prelude.{◌≡◌, ◌<◌, ◌≤◌, ◌+◌, ◌-◌, ◌∷◌, [], length, drop, vec_len, vec_capacity, IfSome};
ghost use Rattle.dimacs_text.specs.reader.FastArc.{EndsWithFeed, AreDigits, LeadsSpaced};
ghost use Rattle.dimacs_text.specs.reader.FastArc.{EndsLine, IsArcLine};
ghost use Rattle.dimacs_text.specs.reader.Drafts.{ReadsArcs};
ghost use Rattle.dimacs_text.specs.declared.form.Form.TheVariants.{Counted};
ghost use Rattle.dimacs_text.specs.declared.form.Item.TheVariants.{Arc};
ghost use Rattle.dimacs_text.specs.Forms.{limits, in_limits};

use crate::form::Limit;
use crate::line::is_blank_byte;
use route_walks::ArcRec;

/// A number of more digits is left to the reader of all lines: so no number wraps.
const MANY_DIGITS: usize = 12;

/// The number whose digits begin at a place, at most `MANY_DIGITS` of them, and the place after them.
// Apart, since inlined it takes half as many instructions again for each digit.
#[inline(never)]
fn digits_at(bytes: &[u8], start: usize) -> (u64, usize)
    requires ended { EndsWithFeed bytes.now }
    requires inside { start < length bytes.now }
    ensures place { (start ≤ result.1) × (result.1 < length bytes.now) }
    ensures led { AreDigits bytes.now start result.1 result.0 }
{
    let mut value: u64 = 0;
    for count in 0..MANY_DIGITS {
        let byte = bytes[start + count];
        if !byte.is_ascii_digit() {
            return (value, start + count);
        }
        value = value * 10 + u64::from(byte - b'0');
    }
    (value, start + MANY_DIGITS)
}

/// The number after one blank, and the place after it.
#[inline(always)]
fn spaced_at(bytes: &[u8], start: usize) -> Option<(u64, usize)>
    requires ended { EndsWithFeed bytes.now }
    requires inside { start < length bytes.now }
    ensures place { IfSome result (λ found. (start < found.1) × (found.1 < length bytes.now)) }
    ensures number { IfSome result (λ found.
        LeadsSpaced (drop start bytes.now) found.0 (drop found.1 bytes.now)) }
{
    if !is_blank_byte(bytes[start]) {
        return None;
    }
    let (value, end) = digits_at(bytes, start + 1);
    if end == start + 1 {
        return None;
    }
    Some((value, end))
}

/// The place after the end of a line that has no field any more.
#[inline(always)]
fn line_end_at(bytes: &[u8], start: usize) -> Option<usize>
    requires ended { EndsWithFeed bytes.now }
    requires inside { start < length bytes.now }
    ensures place { IfSome result (λ after. (start < after) × (after ≤ length bytes.now)) }
    ensures ends { IfSome result (λ after. EndsLine (drop start bytes.now) [] (drop after bytes.now)) }
{
    if bytes[start] == b'\n' {
        Some(start + 1)
    } else if bytes[start] == b'\r' && bytes[start + 1] == b'\n' {
        Some(start + 2)
    } else {
        None
    }
}

/// Tells if the numbers of an arc's line are within their limits.
#[inline(always)]
fn admits_arc(vertices: u32, tail: u64, head: u64, weight: u64) -> bool
    ensures { result ≡ in_limits (limits vertices (Counted Arc)) (tail ∷ head ∷ weight ∷ []) }
{
    let vertex = Limit::vertex(vertices);
    vertex.admits(tail) && vertex.admits(head) && Limit::up_to(u32::MAX).admits(weight)
}

/// The arc whose line begins at a place, and the place after the line.
#[inline(always)]
pub fn arc_at(bytes: &[u8], start: usize, vertices: u32) -> Option<(ArcRec, usize)>
    requires ended { EndsWithFeed bytes.now }
    requires inside { start < length bytes.now }
    ensures place { IfSome result (λ found. (start < found.1) × (found.1 ≤ length bytes.now)) }
    ensures line { IfSome result (λ found.
        IsArcLine vertices (drop start bytes.now) found.0 (drop found.1 bytes.now)) }
{
    if bytes[start] != b'a' {
        return None;
    }
    let (tail, end) = spaced_at(bytes, start + 1)?;
    let (head, end) = spaced_at(bytes, end)?;
    let (weight, end) = spaced_at(bytes, end)?;
    let after = line_end_at(bytes, end)?;
    if !admits_arc(vertices, tail, head, weight) {
        return None;
    }
    let arc = ArcRec {
        tail: (tail - 1) as u32,
        head: (head - 1) as u32,
        weight: weight as u32,
    };
    Some((arc, after))
}

/// Adds the arcs whose lines follow from a place on, and returns their number and the place after them. A run ends at
/// any other line, and when the vector has no more room.
// Apart, so that its loop has the registers for itself.
#[inline(never)]
pub fn read_run(
    bytes: &[u8],
    start: usize,
    vertices: u32,
    room: u32,
    arcs: &mut Vec<ArcRec>,
) -> (u32, usize)
    requires ended { EndsWithFeed bytes.now }
    requires inside { start ≤ length bytes.now }
    requires room { vec_len arcs.old + room ≤ vec_capacity arcs.old }
    ensures few { result.0 ≤ room }
    ensures place { (start + result.0 ≤ result.1) × (result.1 ≤ length bytes.now) }
    ensures reads { ReadsArcs vertices (drop start bytes.now) arcs.old.items arcs.new.items result.0
        (drop result.1 bytes.now) }
{
    let mut at = start;
    let mut count = 0;
    while count < room && at < bytes.len() {
        let Some((arc, after)) = arc_at(bytes, at, vertices) else {
            break;
        };
        arcs.push_reserved(arc);
        at = after;
        count += 1;
    }
    (count, at)
}
