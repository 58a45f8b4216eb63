//! The arcs of a graph that are sure to come.
//!
//! A reader that stays open may give nothing after a graph until it is answered. So no more bytes are waited for than
//! the missing arcs have.

ghost use Rattle.std.specs.Prelude.{◌≡◌, ◌≤◌, ◌+◌, [], IfOk, IfErr, length};
ghost use Rattle.job_reader.specs.Pieces.{Feeds};
ghost use Rattle.job_reader.specs.Request.{IsOfSystem};
ghost use Rattle.job_reader.specs.Taken.{TakesAtMost};

use crate::fault::ReadFault;
use crate::pieces::Pieces;
use crate::step::step;
use dimacs_text::{JobReader, SHORTEST_ARC_BYTES};
use std::alloc::Global;
use std::io::Read;
use std::thread::Threads;
use std::time::Clock;

/// The fewest sure bytes that are worth threads.
const MIN_BYTES_FOR_THREADS: usize = 1 << 20;

/// Reads on in a graph, at most `limit` bytes and none that may come after it. It reads nothing if many threads aren't
/// worth it, and stops at the reader's end and soon after a wrong line. At most `threads` threads work, and no more
/// than 16.
///
/// # Errors
/// `Read` or `Memory`. Nothing is then known of the job.
pub fn read_arcs_from<H: Threads + Clock + Sync, R: Read>(
    rt: &H,
    alloc: Global,
    reader: &mut R,
    job: &mut JobReader,
    limit: usize,
    threads: usize,
) -> Result<usize, ReadFault>
    ensures feeds { IfOk result (λ count. Feeds limit count job.old job.new
        (R.remaining reader.old) (R.remaining reader.new)) }
    ensures short { IfErr result (λ _. TakesAtMost limit (R.remaining reader.old) (R.remaining reader.new)) }
    ensures only { IfErr result IsOfSystem }
{
    if threads < 2 || sure_bytes(job, 0) < MIN_BYTES_FOR_THREADS {
        return Ok(0);
    }
    let mut pieces = Pieces::new(alloc, threads)?;
    read_sure(rt, reader, job, limit, &mut pieces)
}

fn read_sure<H: Threads + Clock + Sync, R: Read>(
    rt: &H,
    reader: &mut R,
    job: &mut JobReader,
    limit: usize,
    pieces: &mut Pieces,
) -> Result<usize, ReadFault>
    requires front { pieces.old.front ≡ [] }
    requires back { pieces.old.back ≡ [] }
    ensures feeds { IfOk result (λ count. Feeds limit count job.old job.new
        (R.remaining reader.old) (R.remaining reader.new)) }
    ensures short { IfErr result (λ _. TakesAtMost limit (R.remaining reader.old) (R.remaining reader.new)) }
    ensures only { IfErr result IsOfSystem }
{
    let mut left = limit;
    let mut ended = false;
    for _ in 0..u64::MAX {
        let next = next_piece(job, pieces, left, ended);
        if next == 0 && pieces.front.len() == 0 && pieces.back.len() == 0 {
            return Ok(limit - left);
        }
        // If no more bytes are sure, those at hand are fed first: then more may be.
        let ends = step(rt, reader, job, pieces, left, next)?;
        left -= pieces.spare.len();
        ended = ended || ends;
        pieces.turn();
    }
    // No reader is asked so often.
    Err(ReadFault::Read)
}

/// The bytes of the next piece: none after the reader's end.
fn next_piece(job: &JobReader, pieces: &Pieces, left: usize, ended: bool) -> usize
    ensures { result ≤ left }
{
    let at_hand = pieces.front.len().saturating_add(pieces.back.len());
    let sure = sure_bytes(job, at_hand);
    if ended || sure < MIN_BYTES_FOR_THREADS {
        0
    } else {
        pieces.readers.piece().min(sure).min(left)
    }
}

/// The bytes that are sure to follow those at hand.
fn sure_bytes(job: &JobReader, at_hand: usize) -> usize {
    match job.arcs_so_far() {
        Some((read, all)) if !job.is_refused() => all
            .saturating_sub(read)
            .saturating_sub(1)
            .saturating_mul(SHORTEST_ARC_BYTES)
            .saturating_sub(at_hand),
        _ => 0,
    }
}
