//! Lines, fields and numbers.

ghost use Rattle.std.specs.Prelude.{◌≡◌, ◌<◌, ◌≤◌, ◌∷◌, [], length, take};
ghost use Rattle.std.specs.Bool.{OnTrue};
ghost use Rattle.std.specs.Prelude.{true, MatchOption, option_map, slice_index};
ghost use Rattle.dimacs_text.specs.Lines.{without_cr, is_blank, begins_comment, fields, number};
ghost use Rattle.dimacs_text.specs.reader.FastArc.{EndsWithFeed, HasNoFeed};
ghost use Rattle.dimacs_text.specs.reader.Pieces.{SkipsBlanks, SplitsRun, capped};

/// The bytes of a line that are looked at for the letter of a comment, which may come after blanks.
const MOST_BLANKS: usize = 1 << 10;

/// The place of the line feed that ends the line which begins at a place.
pub fn line_end(bytes: &[u8], start: usize) -> usize
    requires ended { EndsWithFeed bytes.now }
    requires inside { start < length bytes.now }
    ensures place { (start ≤ result) × (result < length bytes.now) }
    ensures feed { slice_index bytes.now result ≡ 10 }
    ensures first { HasNoFeed bytes.now start result }
{
    let mut end = start;
    while bytes[end] != b'\n' {
        end += 1;
    }
    end
}

/// The place after the last line feed, or 0 if the bytes have no line feed.
pub fn after_last_feed(bytes: &[u8]) -> usize
    ensures place { result ≤ length bytes.now }
    ensures ended { EndsWithFeed (take result bytes.now) }
    ensures last { HasNoFeed bytes.now result (length bytes.now) }
{
    let mut end = bytes.len();
    while end > 0 && bytes[end - 1] != b'\n' {
        end -= 1;
    }
    end
}

/// A line without the carriage return at its end.
pub fn trim_cr(line: &[u8]) -> &[u8]
    ensures { result.now ≡ without_cr line.now }
{
    if line.is_empty() || line[line.len() - 1] != b'\r' {
        return line;
    }
    &line[..line.len() - 1]
}

/// Tells if a byte is a space or a tab.
pub fn is_blank_byte(byte: u8) -> bool
    ensures { result ≡ is_blank byte }
{
    byte == b' ' || byte == b'\t'
}

/// Returns the bytes after the blanks at the start.
pub fn skip_blanks(bytes: &[u8]) -> &[u8]
    ensures { SkipsBlanks bytes.now result.now }
{
    for (i, byte) in bytes.iter().enumerate() {
        if !is_blank_byte(*byte) {
            return &bytes[i..];
        }
    }
    &bytes[bytes.len()..]
}

/// Tells if the bytes are known to begin a comment, whatever comes after them on their line. Only the first of
/// them are looked at, so that it costs the same each time more of a long line has come.
pub fn begins_comment(bytes: &[u8]) -> bool
    ensures { OnTrue result (begins_comment bytes.now ≡ true) }
{
    let (first, _) = bytes.split_at(bytes.len().min(MOST_BLANKS));
    let rest = skip_blanks(first);
    !rest.is_empty() && rest[0] == b'c'
}

/// The bytes before the first blank, and the rest from there on.
fn split_run(bytes: &[u8]) -> (&[u8], &[u8])
    ensures { SplitsRun bytes.now result.0.now result.1.now }
{
    for (i, byte) in bytes.iter().enumerate() {
        if is_blank_byte(*byte) {
            return (&bytes[..i], &bytes[i..]);
        }
    }
    (bytes, &bytes[bytes.len()..])
}

/// The first field of a line, and what comes after it.
pub fn next_field(line: &[u8]) -> Option<(&[u8], &[u8])>
    ensures fields { MatchOption result (fields line.now ≡ [])
        (λ found. fields line.now ≡ found.0.now ∷ fields found.1.now) }
    ensures filled { MatchOption result (Unit {0}) (λ found. 0 < length found.0.now) }
{
    let rest = skip_blanks(line);
    if rest.is_empty() {
        return None;
    }
    Some(split_run(rest))
}

/// The number that a field is, or 2^64 - 1 if it is larger.
pub fn number_of(field: &[u8]) -> Option<u64>
    ensures { result ≡ option_map capped (number field.now) }
{
    if field.is_empty() {
        return None;
    }
    let mut value: u64 = 0;
    for byte in field {
        if !byte.is_ascii_digit() {
            return None;
        }
        value = value
            .saturating_mul(10)
            .saturating_add(u64::from(*byte - b'0'));
    }
    Some(value)
}
