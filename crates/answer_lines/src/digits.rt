//! The parts of a line, which is made from its end.

ghost use Rattle.std.specs.Prelude.{◌≡◌, ◌+◌, ◌<◌, ◌≤◌, ◌++◌, ◌∷◌, length, drop, decimal, codes};
ghost use Rattle.answer_lines.specs.Lines.{cost_text};

use itoa::write_digits;
use route_walks::INF;

/// The most bytes of a line: a letter, three numbers of 20 digits, three spaces and a line feed.
pub(crate) const MAX_LINE_BYTES: usize = 65;

pub(crate) fn put_byte(line: &mut [u8], end: usize, byte: u8) -> usize
    requires { (0 < end) × (end ≤ length line.old) }
    ensures place { result + 1 ≡ end }
    ensures put { drop result line.new ≡ byte ∷ drop end line.old }
{
    line[end - 1] = byte;
    end - 1
}

pub(crate) fn put_number(line: &mut [u8], end: usize, number: u64) -> usize
    requires { (20 ≤ end) × (end ≤ length line.old) }
    ensures place { (end ≤ result + 20) × (result ≤ end) }
    ensures put { drop result line.new ≡ decimal number ++ drop end line.old }
{
    write_digits(number, line, end)
}

/// Puts a letter, a space and a number in front of a line's end.
pub(crate) fn put_start(line: &mut [u8], end: usize, letter: u8, number: u64) -> usize
    requires { (22 ≤ end) × (end ≤ length line.old) }
    ensures place { (end ≤ result + 22) × (result ≤ end) }
    ensures put { drop result line.new ≡ letter ∷ codes " " ++ decimal number ++ drop end line.old }
{
    let end = put_number(line, end, number);
    let end = put_byte(line, end, b' ');
    put_byte(line, end, letter)
}

pub(crate) fn put_cost(line: &mut [u8], end: usize, label: u64) -> usize
    requires { (20 ≤ end) × (end ≤ length line.old) }
    ensures place { (end ≤ result + 20) × (result ≤ end) }
    ensures put { drop result line.new ≡ cost_text label ++ drop end line.old }
{
    if label == INF {
        let end = put_byte(line, end, b'f');
        let end = put_byte(line, end, b'n');
        put_byte(line, end, b'i')
    } else {
        put_number(line, end, label)
    }
}
