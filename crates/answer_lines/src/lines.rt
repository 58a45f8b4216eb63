//! One line at a time, made before it is appended.

ghost use Rattle.std.specs.Prelude.{◌≡◌, ◌<◌, ◌++◌, codes, decimal, OnOk, OnErr};
ghost use Rattle.answer_lines.specs.Lines.{arc_text, grown_text, label_text, pair_text, ready_text, refusal_text};
ghost use Rattle.answer_lines.specs.Lines.{removed_text, source_text};

use crate::digits::{MAX_LINE_BYTES, put_byte, put_cost, put_number, put_start};
use route_walks::{ArcRec, MAX_VERTICES, Memory};

/// Appends the line `s V` of a source.
pub fn put_source(out: &mut Vec<u8>, s: u32) -> Result<(), Memory>
    requires { s < MAX_VERTICES }
    ensures ok { OnOk result (out.new.items ≡ out.old.items ++ source_text s) }
    ensures err { OnErr result (out.new.items ≡ out.old.items) }
{
    let mut line = [0u8; MAX_LINE_BYTES];
    let end = put_byte(&mut line, MAX_LINE_BYTES, b'\n');
    let start = put_start(&mut line, end, b's', u64::from(s) + 1);
    out.extend_from_slice(&line[start..])?;
    Ok(())
}

/// Appends the line `d V COST` of a vertex; the cost of `INF` is `inf`.
pub fn put_label(out: &mut Vec<u8>, v: u32, label: u64) -> Result<(), Memory>
    requires { v < MAX_VERTICES }
    ensures ok { OnOk result (out.new.items ≡ out.old.items ++ label_text v label) }
    ensures err { OnErr result (out.new.items ≡ out.old.items) }
{
    let mut line = [0u8; MAX_LINE_BYTES];
    let end = put_byte(&mut line, MAX_LINE_BYTES, b'\n');
    let end = put_cost(&mut line, end, label);
    let end = put_byte(&mut line, end, b' ');
    let start = put_start(&mut line, end, b'd', u64::from(v) + 1);
    out.extend_from_slice(&line[start..])?;
    Ok(())
}

/// Appends the line `q S T COST` of a pair; the cost of `INF` is `inf`.
pub fn put_pair(out: &mut Vec<u8>, s: u32, t: u32, label: u64) -> Result<(), Memory>
    requires source { s < MAX_VERTICES }
    requires target { t < MAX_VERTICES }
    ensures ok { OnOk result (out.new.items ≡ out.old.items ++ pair_text s t label) }
    ensures err { OnErr result (out.new.items ≡ out.old.items) }
{
    let mut line = [0u8; MAX_LINE_BYTES];
    let end = put_byte(&mut line, MAX_LINE_BYTES, b'\n');
    let end = put_cost(&mut line, end, label);
    let end = put_byte(&mut line, end, b' ');
    let end = put_number(&mut line, end, u64::from(t) + 1);
    let end = put_byte(&mut line, end, b' ');
    let start = put_start(&mut line, end, b'q', u64::from(s) + 1);
    out.extend_from_slice(&line[start..])?;
    Ok(())
}

/// Appends the line `g K` for `k` added arcs.
pub fn put_grown(out: &mut Vec<u8>, k: u32) -> Result<(), Memory>
    ensures ok { OnOk result (out.new.items ≡ out.old.items ++ grown_text k) }
    ensures err { OnErr result (out.new.items ≡ out.old.items) }
{
    let mut line = [0u8; MAX_LINE_BYTES];
    let end = put_byte(&mut line, MAX_LINE_BYTES, b'\n');
    let start = put_start(&mut line, end, b'g', u64::from(k));
    out.extend_from_slice(&line[start..])?;
    Ok(())
}

/// Appends the line `x K` for `k` removed arcs.
pub fn put_removed(out: &mut Vec<u8>, k: u64) -> Result<(), Memory>
    ensures ok { OnOk result (out.new.items ≡ out.old.items ++ removed_text k) }
    ensures err { OnErr result (out.new.items ≡ out.old.items) }
{
    let mut line = [0u8; MAX_LINE_BYTES];
    let end = put_byte(&mut line, MAX_LINE_BYTES, b'\n');
    let start = put_start(&mut line, end, b'x', k);
    out.extend_from_slice(&line[start..])?;
    Ok(())
}

/// Appends the line `a U V W` of an arc.
pub fn put_arc(out: &mut Vec<u8>, arc: ArcRec) -> Result<(), Memory>
    requires tail { arc.tail < MAX_VERTICES }
    requires head { arc.head < MAX_VERTICES }
    ensures ok { OnOk result (out.new.items ≡ out.old.items ++ arc_text arc) }
    ensures err { OnErr result (out.new.items ≡ out.old.items) }
{
    let mut line = [0u8; MAX_LINE_BYTES];
    let end = put_byte(&mut line, MAX_LINE_BYTES, b'\n');
    let end = put_number(&mut line, end, u64::from(arc.weight));
    let end = put_byte(&mut line, end, b' ');
    let end = put_number(&mut line, end, u64::from(arc.head) + 1);
    let end = put_byte(&mut line, end, b' ');
    let start = put_start(&mut line, end, b'a', u64::from(arc.tail) + 1);
    out.extend_from_slice(&line[start..])?;
    Ok(())
}

/// Appends the line `r N M LINE`: how many vertices and arcs a graph has, and the number of a line.
pub fn put_ready(out: &mut Vec<u8>, n: u32, arcs: u64, number: u64) -> Result<(), Memory>
    ensures ok { OnOk result (out.new.items ≡ out.old.items ++ ready_text n arcs number) }
    ensures err { OnErr result (out.new.items ≡ out.old.items) }
{
    let mut line = [0u8; MAX_LINE_BYTES];
    let end = put_byte(&mut line, MAX_LINE_BYTES, b'\n');
    let end = put_number(&mut line, end, number);
    let end = put_byte(&mut line, end, b' ');
    let end = put_number(&mut line, end, arcs);
    let end = put_byte(&mut line, end, b' ');
    let start = put_start(&mut line, end, b'r', u64::from(n));
    out.extend_from_slice(&line[start..])?;
    Ok(())
}

/// Appends the line `e LINE WORDS` of a wrong line: its number, and what is wrong.
pub fn put_refusal(out: &mut Vec<u8>, line: u64, words: &str) -> Result<(), Memory>
    ensures ok { OnOk result (out.new.items ≡ out.old.items ++ refusal_text line words.now) }
    ensures err { OnErr result (out.new.items ≡ out.old.items) }
{
    let before = out.len();
    put_wrong(out, line)?;
    if put_words(out, words).is_err() {
        out.truncate(before);
        return Err(Memory);
    }
    Ok(())
}

fn put_wrong(out: &mut Vec<u8>, number: u64) -> Result<(), Memory>
    ensures ok { OnOk result (out.new.items ≡ out.old.items ++ codes "e " ++ decimal number ++ codes " ") }
    ensures err { OnErr result (out.new.items ≡ out.old.items) }
{
    let mut line = [0u8; MAX_LINE_BYTES];
    let end = put_byte(&mut line, MAX_LINE_BYTES, b' ');
    let start = put_start(&mut line, end, b'e', number);
    out.extend_from_slice(&line[start..])?;
    Ok(())
}

fn put_words(out: &mut Vec<u8>, words: &str) -> Result<(), Memory>
    ensures ok { OnOk result (out.new.items ≡ out.old.items ++ words.now ++ codes "\n") }
    ensures err { OnErr result (out.new.items ≡ out.old.items) }
{
    let before = out.len();
    out.extend_from_slice(words.as_bytes())?;
    if out.push(b'\n').is_err() {
        out.truncate(before);
        return Err(Memory);
    }
    Ok(())
}
