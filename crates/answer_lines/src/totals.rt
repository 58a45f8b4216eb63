//! Totals of the labels from a source.

ghost use Rattle.std.specs.Prelude.{◌≡◌, ◌+◌, ◌^◌, ◌<◌, ◌≤◌, ◌==◌, ◌++◌, max, length, drop, codes, decimal};
ghost use Rattle.std.specs.Prelude.{if◌then◌else◌, OnOk, OnErr};
ghost use Rattle.answer_lines.specs.Totals.{cost_or_0, farthest, greatest, reached, sum_of, totals_line};

use crate::digits::{put_byte, put_number, put_start};
use itoa::write_digits;
use route_walks::{INF, MAX_VERTICES, Memory};

/// The most bytes of a line: a letter, four numbers of 20 digits, one of 39, five spaces and a line feed.
const MAX_TOTALS_BYTES: usize = 126;

/// The totals of the labels from a source.
#[derive(Clone, Copy, Debug, PartialEq, Eq)]
pub struct Totals {
    /// The number of vertices with a label other than `INF`.
    pub reached: u32,
    /// The sum of their labels.
    pub sum: u128,
    /// The greatest of their labels, or 0.
    pub greatest: u64,
    /// The first vertex with that label, from 0; the number of labels if no vertex is reached.
    pub farthest: u32,
}

impl Totals {
    /// Sums up these labels.
    pub fn of(labels: &[u64]) -> Totals
        requires vertices { length labels.now ≤ MAX_VERTICES }
        ensures reached { result.reached ≡ reached labels.now }
        ensures sum { result.sum ≡ sum_of labels.now }
        ensures greatest { result.greatest ≡ greatest labels.now }
        ensures farthest { result.farthest ≡ farthest labels.now }
    {
        let mut totals = Totals {
            reached: 0,
            sum: 0,
            greatest: 0,
            farthest: labels.len() as u32,
        };
        for v in (0..labels.len()).rev() {
            totals = totals.with_label(v as u32, labels[v]);
        }
        totals
    }

    /// Adds the label of the vertex before those that were added.
    fn with_label(self, v: u32, label: u64) -> Totals
        requires reached { self.reached < MAX_VERTICES }
        requires sum { self.sum < 2 ^ 127 }
        requires greatest { self.greatest < INF }
        ensures reached { result.reached ≡ (if label == INF then 0 else 1) + self.reached }
        ensures sum { result.sum ≡ cost_or_0 label + self.sum }
        ensures greatest { result.greatest ≡ max (cost_or_0 label) self.greatest }
        ensures farthest { result.farthest
            ≡ (if label == max (cost_or_0 label) self.greatest then v else self.farthest) }
    {
        if label == INF {
            return self;
        }
        let (reached, sum) = (self.reached + 1, self.sum + u128::from(label));
        if label < self.greatest {
            return Totals {
                reached,
                sum,
                greatest: self.greatest,
                farthest: self.farthest,
            };
        }
        Totals {
            reached,
            sum,
            greatest: label,
            farthest: v,
        }
    }
}

/// Appends the line `t S REACHED SUM GREATEST FARTHEST` of a source.
pub fn put_totals(out: &mut Vec<u8>, s: u32, totals: &Totals) -> Result<(), Memory>
    ensures ok { OnOk result (out.new.items ≡ out.old.items ++ totals_line s totals.now.reached totals.now.sum
        totals.now.greatest totals.now.farthest) }
    ensures err { OnErr result (out.new.items ≡ out.old.items) }
{
    let mut line = [0u8; MAX_TOTALS_BYTES];
    let end = put_byte(&mut line, MAX_TOTALS_BYTES, b'\n');
    let end = put_field(&mut line, end, u64::from(totals.farthest) + 1);
    let end = put_field(&mut line, end, totals.greatest);
    let end = put_sum(&mut line, end, totals.sum);
    let end = put_field(&mut line, end, u64::from(totals.reached));
    let start = put_start(&mut line, end, b't', u64::from(s) + 1);
    out.extend_from_slice(&line[start..])?;
    Ok(())
}

fn put_field(line: &mut [u8], end: usize, number: u64) -> usize
    requires { (21 ≤ end) × (end ≤ length line.old) }
    ensures place { (end ≤ result + 21) × (result ≤ end) }
    ensures put { drop result line.new ≡ codes " " ++ decimal number ++ drop end line.old }
{
    let end = put_number(line, end, number);
    put_byte(line, end, b' ')
}

/// Puts a space and a number of up to 128 bits in front of a line's end.
fn put_sum(line: &mut [u8], end: usize, number: u128) -> usize
    requires { (40 ≤ end) × (end ≤ length line.old) }
    ensures place { (end ≤ result + 40) × (result ≤ end) }
    ensures put { drop result line.new ≡ codes " " ++ decimal number ++ drop end line.old }
{
    let mut left = number;
    let mut at = end;
    while left > u128::from(u64::MAX) {
        at = put_byte(line, at, b'0' + (left % 10) as u8);
        left /= 10;
    }
    let start = write_digits(left as u64, line, at);
    put_byte(line, start, b' ')
}
