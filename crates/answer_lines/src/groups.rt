//! The lines of many vertices.
//!
//! Neighbouring vertices whose numbers differ in their last two digits are a group. Its lines are made in an array, the
//! last one first, and go out at once.

ghost use Rattle.std.specs.Prelude.{◌≡◌, ℕ, ◌+◌, ◌*◌, ◌/◌, ◌%◌, ◌<◌, ◌≤◌, ◌++◌, ◌∷◌, [], length, take};
ghost use Rattle.std.specs.Prelude.{drop, codes, All, OnOk, OnErr, slice_index};
ghost use Rattle.answer_lines.specs.Lines.{component_lines, component_text, distances_text, front_digits};
ghost use Rattle.answer_lines.specs.Lines.{label_lines, label_text, last_digits};

use crate::digits::{put_byte, put_cost, put_number};
use crate::lines::put_source;
use itoa::write_digits;
use route_walks::{INF, MAX_VERTICES, Memory};
use std::simd::Simd;

/// The most lines of a group, which begins at multiples of this.
const GROUP_LINES: usize = 50;

/// A bound on the bytes of a line.
const LINE_BYTES: usize = 40;

const GROUP_BYTES: usize = GROUP_LINES * LINE_BYTES;

/// The room of a head: a letter, a space and at most 7 digits of a vertex.
const HEAD_BYTES: usize = 16;

/// The two digits of each number below 100.
static PAIRS: [u8; 200] =
    *b"00010203040506070809101112131415161718192021222324252627282930313233343536373839404142434445464748495051525354555657585960616263646566676869707172737475767778798081828384858687888990919293949596979899";

/// The beginning of a group's lines, at the end of an array: letter, space, and the vertex without its last two digits.
#[derive(Drop)]
struct Head {
    bytes: [u8; HEAD_BYTES],
    start: usize,
    /// The least number with these digits.
    base: u32,
}

/// Puts the digits of a vertex without the last two into a head.
fn put_front(head: &mut [u8], hundreds: u64) -> usize
    requires room { length head.old ≡ HEAD_BYTES }
    requires short { hundreds < 10000000 }
    ensures place { (2 ≤ result) × (result ≤ HEAD_BYTES) }
    ensures put { drop result head.new ≡ front_digits hundreds }
{
    if hundreds == 0 {
        HEAD_BYTES
    } else {
        write_digits(hundreds, head, HEAD_BYTES)
    }
}

/// The head of the lines of a letter and of all numbers with these hundreds.
fn head_of(letter: u8, number: u32) -> Head
    requires short { number < 1000000000 }
    ensures place { result.start ≤ HEAD_BYTES }
    ensures base { result.base ≡ number / 100 * 100 }
    ensures head { drop result.start result.bytes ≡ letter ∷ codes " " ++ front_digits (number / 100) }
{
    let hundreds = number / 100;
    let mut bytes = [0u8; HEAD_BYTES];
    let end = put_front(&mut bytes, u64::from(hundreds));
    let end = put_byte(&mut bytes, end, b' ');
    let start = put_byte(&mut bytes, end, letter);
    Head {
        bytes,
        start,
        base: hundreds * 100,
    }
}

/// Puts a head in front of some lines, by a copy of its whole array.
fn put_head(lines: &mut [u8], end: usize, head: &Head) -> usize
    requires room { (HEAD_BYTES ≤ end) × (end ≤ length lines.old) }
    requires head { head.now.start ≤ HEAD_BYTES }
    ensures place { (end ≤ result + HEAD_BYTES) × (result ≤ end) }
    ensures put { drop result lines.new ≡ drop head.now.start head.now.bytes ++ drop end lines.old }
{
    Simd::<u8, HEAD_BYTES>::from_slice(&head.bytes).copy_to_slice(&mut lines[end - HEAD_BYTES..]);
    end - HEAD_BYTES + head.start
}

fn put_two(lines: &mut [u8], end: usize, pair: u32) -> usize
    requires room { (2 ≤ end) × (end ≤ length lines.old) }
    requires pair { pair < 100 }
    ensures place { result + 2 ≡ end }
    ensures put { drop result lines.new ≡ (48 + pair / 10) ∷ (48 + pair % 10) ∷ drop end lines.old }
{
    let from = pair as usize * 2;
    let end = put_byte(lines, end, PAIRS[from + 1]);
    put_byte(lines, end, PAIRS[from])
}

/// Puts the last two digits of a number, or its only one, in front of some lines. `pair` is the number of the two.
fn put_last(lines: &mut [u8], end: usize, number: u32, pair: u32) -> usize
    requires room { (2 ≤ end) × (end ≤ length lines.old) }
    requires pair { pair ≡ number % 100 }
    ensures place { (end ≤ result + 2) × (result ≤ end) }
    ensures put { drop result lines.new ≡ last_digits number ++ drop end lines.old }
{
    if number < 10 {
        put_byte(lines, end, b'0' + number as u8)
    } else {
        put_two(lines, end, pair)
    }
}

fn put_label_line(lines: &mut [u8], end: usize, head: &Head, v: u32, label: u64) -> usize
    requires room { (LINE_BYTES ≤ end) × (end ≤ length lines.old) }
    requires vertex { v < MAX_VERTICES }
    requires place { head.now.start ≤ HEAD_BYTES }
    requires base { head.now.base ≡ (v + 1) / 100 * 100 }
    requires head { drop head.now.start head.now.bytes ≡ codes "d " ++ front_digits ((v + 1) / 100) }
    ensures place { (end ≤ result + LINE_BYTES) × (result ≤ end) }
    ensures put { drop result lines.new ≡ label_text v label ++ drop end lines.old }
{
    let end = put_byte(lines, end, b'\n');
    let end = put_cost(lines, end, label);
    let end = put_byte(lines, end, b' ');
    let end = put_last(lines, end, v + 1, v + 1 - head.base);
    put_head(lines, end, head)
}

fn put_component_line(lines: &mut [u8], end: usize, head: &Head, v: u32, label: u64) -> usize
    requires room { (LINE_BYTES ≤ end) × (end ≤ length lines.old) }
    requires vertex { v < MAX_VERTICES }
    requires finite { label < INF }
    requires place { head.now.start ≤ HEAD_BYTES }
    requires base { head.now.base ≡ (v + 1) / 100 * 100 }
    requires head { drop head.now.start head.now.bytes ≡ codes "k " ++ front_digits ((v + 1) / 100) }
    ensures place { (end ≤ result + LINE_BYTES) × (result ≤ end) }
    ensures put { drop result lines.new ≡ component_text v label ++ drop end lines.old }
{
    let end = put_byte(lines, end, b'\n');
    let end = put_number(lines, end, label + 1);
    let end = put_byte(lines, end, b' ');
    let end = put_last(lines, end, v + 1, v + 1 - head.base);
    put_head(lines, end, head)
}

/// The number of these vertices that belong to the group of `first`.
fn group_len(first: u32, count: usize) -> usize
    requires { first < MAX_VERTICES }
    ensures some { 0 < count → 0 < result }
    ensures within { result ≤ count }
    ensures group { (first + 1) % GROUP_LINES + result ≤ GROUP_LINES }
{
    count.min(GROUP_LINES - (first as usize + 1) % GROUP_LINES)
}

/// Appends the lines `d V COST` of a group's vertices from `first` on.
fn put_label_group(
    out: &mut Vec<u8>,
    lines: &mut [u8],
    first: u32,
    labels: &[u64],
) -> Result<(), Memory>
    requires room { length lines.old ≡ GROUP_BYTES }
    requires group { (first + 1) % GROUP_LINES + length labels.now ≤ GROUP_LINES }
    requires vertices { first + length labels.now ≤ MAX_VERTICES }
    ensures room { length lines.new ≡ GROUP_BYTES }
    ensures ok { OnOk result (out.new.items ≡ out.old.items ++ label_lines first labels.now) }
    ensures err { OnErr result (out.new.items ≡ out.old.items) }
{
    let head = head_of(b'd', first + 1);
    let mut start = lines.len();
    for i in (0..labels.len()).rev() {
        start = put_label_line(lines, start, &head, first + i as u32, labels[i]);
    }
    out.extend_from_slice(&lines[start..])?;
    Ok(())
}

/// Appends the lines `k V LABEL` of a group's vertices from `first` on.
fn put_component_group(
    out: &mut Vec<u8>,
    lines: &mut [u8],
    first: u32,
    labels: &[u64],
) -> Result<(), Memory>
    requires room { length lines.old ≡ GROUP_BYTES }
    requires group { (first + 1) % GROUP_LINES + length labels.now ≤ GROUP_LINES }
    requires vertices { first + length labels.now ≤ MAX_VERTICES }
    requires finite { All (λ label. label < INF) labels.now }
    ensures room { length lines.new ≡ GROUP_BYTES }
    ensures ok { OnOk result (out.new.items ≡ out.old.items ++ component_lines first labels.now) }
    ensures err { OnErr result (out.new.items ≡ out.old.items) }
{
    let head = head_of(b'k', first + 1);
    let mut start = lines.len();
    for i in (0..labels.len()).rev() {
        start = put_component_line(lines, start, &head, first + i as u32, labels[i]);
    }
    out.extend_from_slice(&lines[start..])?;
    Ok(())
}

/// Appends the lines `d V COST` of the vertices from `first` on, in rising order; the cost of `INF` is `inf`.
pub fn put_labels(out: &mut Vec<u8>, first: u32, labels: &[u64]) -> Result<(), Memory>
    requires vertices { first + length labels.now ≤ MAX_VERTICES }
    ensures ok { OnOk result (out.new.items ≡ out.old.items ++ label_lines first labels.now) }
    ensures err { OnErr result (out.new.items ≡ out.old.items) }
{
    let before = out.len();
    let mut lines = [0u8; GROUP_BYTES];
    let mut v = first;
    let mut rest = labels;
    while !rest.is_empty() {
        let (group, more) = rest.split_at(group_len(v, rest.len()));
        if put_label_group(out, &mut lines, v, group).is_err() {
            out.truncate(before);
            return Err(Memory);
        }
        v += group.len() as u32;
        rest = more;
    }
    Ok(())
}

/// Appends the lines `k V LABEL` of the vertices from `first` on. A label is a vertex too: counted from 0, and from 1
/// in the line.
pub fn put_components(out: &mut Vec<u8>, first: u32, labels: &[u64]) -> Result<(), Memory>
    requires vertices { first + length labels.now ≤ MAX_VERTICES }
    requires finite { All (λ label. label < INF) labels.now }
    ensures ok { OnOk result (out.new.items ≡ out.old.items ++ component_lines first labels.now) }
    ensures err { OnErr result (out.new.items ≡ out.old.items) }
{
    let start = out.len();
    let mut lines = [0u8; GROUP_BYTES];
    let mut v = first;
    let mut rest = labels;
    while !rest.is_empty() {
        let (group, more) = rest.split_at(group_len(v, rest.len()));
        if put_component_group(out, &mut lines, v, group).is_err() {
            out.truncate(start);
            return Err(Memory);
        }
        v += group.len() as u32;
        rest = more;
    }
    Ok(())
}

/// Appends the line of a source, and the line of each vertex.
pub fn put_distances(out: &mut Vec<u8>, s: u32, labels: &[u64]) -> Result<(), Memory>
    requires source { s < MAX_VERTICES }
    requires vertices { length labels.now ≤ MAX_VERTICES }
    ensures ok { OnOk result (out.new.items ≡ out.old.items ++ distances_text s labels.now) }
    ensures err { OnErr result (out.new.items ≡ out.old.items) }
{
    let before = out.len();
    put_source(out, s)?;
    if put_labels(out, 0, labels).is_err() {
        out.truncate(before);
        return Err(Memory);
    }
    Ok(())
}
