//! The line of a walk, which may be long.

ghost use Rattle.std.specs.Prelude.{◌≡◌, ◌+◌, ◌<◌, ◌++◌, length, decimal, codes, All, OnOk, OnErr};
ghost use Rattle.answer_lines.specs.Lines.{vertices_text, walk_text};

use crate::digits::{MAX_LINE_BYTES, put_byte, put_number, put_start};
use route_walks::{MAX_VERTICES, Memory};

/// Appends the line `w V COST V .. V` of a walk: its last vertex, its cost, and its vertices in order.
pub fn put_walk(out: &mut Vec<u8>, cost: u64, walk: &[u32]) -> Result<(), Memory>
    requires some { 0 < length walk.now }
    requires vertices { All (λ v. v < MAX_VERTICES) walk.now }
    ensures ok { OnOk result (out.new.items ≡ out.old.items ++ walk_text cost walk.now) }
    ensures err { OnErr result (out.new.items ≡ out.old.items) }
{
    let before = out.len();
    put_target(out, walk[walk.len() - 1], cost)?;
    if put_vertices(out, walk).is_err() {
        out.truncate(before);
        return Err(Memory);
    }
    Ok(())
}

fn put_target(out: &mut Vec<u8>, v: u32, cost: u64) -> Result<(), Memory>
    requires { v < MAX_VERTICES }
    ensures ok { OnOk result (out.new.items
        ≡ out.old.items ++ codes "w " ++ decimal (v + 1) ++ codes " " ++ decimal cost) }
    ensures err { OnErr result (out.new.items ≡ out.old.items) }
{
    let mut line = [0u8; MAX_LINE_BYTES];
    let end = put_number(&mut line, MAX_LINE_BYTES, cost);
    let end = put_byte(&mut line, end, b' ');
    let start = put_start(&mut line, end, b'w', u64::from(v) + 1);
    out.extend_from_slice(&line[start..])?;
    Ok(())
}

fn put_vertices(out: &mut Vec<u8>, walk: &[u32]) -> Result<(), Memory>
    requires { All (λ v. v < MAX_VERTICES) walk.now }
    ensures ok { OnOk result (out.new.items ≡ out.old.items ++ vertices_text walk.now) }
    ensures err { OnErr result (out.new.items ≡ out.old.items) }
{
    let before = out.len();
    for vertex in walk {
        if put_vertex(out, *vertex).is_err() {
            out.truncate(before);
            return Err(Memory);
        }
    }
    if out.push(b'\n').is_err() {
        out.truncate(before);
        return Err(Memory);
    }
    Ok(())
}

fn put_vertex(out: &mut Vec<u8>, v: u32) -> Result<(), Memory>
    requires { v < MAX_VERTICES }
    ensures ok { OnOk result (out.new.items ≡ out.old.items ++ codes " " ++ decimal (v + 1)) }
    ensures err { OnErr result (out.new.items ≡ out.old.items) }
{
    let mut line = [0u8; MAX_LINE_BYTES];
    let end = put_number(&mut line, MAX_LINE_BYTES, u64::from(v) + 1);
    let start = put_byte(&mut line, end, b' ');
    out.extend_from_slice(&line[start..])?;
    Ok(())
}
