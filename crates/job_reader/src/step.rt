//! A step of reading: a piece is fed while the next bytes are taken.

ghost use Rattle.std.specs.Prelude.{◌≡◌, ◌≤◌, ◌+◌, ◌-◌, IfOk, IfErr, OnOk, All};
ghost use Rattle.std.specs.Thread.{IsSync};
ghost use Rattle.dimacs_text.specs.Reading.{AreRunsOf, IsReadAhead, Reads};
ghost use Rattle.job_reader.specs.Pieces.{Fills, StepsOn, StopsShort};

use crate::fault::ReadFault;
use crate::piece::Piece;
use crate::pieces::Pieces;
use dimacs_text::{ArcRuns, JobReader, Parts, ReadAhead, read_side_by_side};
use route_walks::Memory;
use std::io::Read;
use std::thread::{Threads, join_mut};
use std::time::{Clock, Duration};

/// Feeds the front piece and takes the next bytes, up to the limit, into the spare one, while threads read ahead in the
/// back one. Returns true if the reader has ended. On an error at most `left` bytes were taken.
pub(crate) fn step<H: Threads + Clock + Sync, R: Read>(
    rt: &H,
    reader: &mut R,
    job: &mut JobReader,
    pieces: &mut Pieces,
    left: usize,
    limit: usize,
) -> Result<bool, ReadFault>
    requires limit { limit ≤ left + 1 }
    ensures on { IfOk result (StepsOn limit job.old job.new pieces.old.front pieces.new.spare
        (R.remaining reader.old) (R.remaining reader.new)) }
    ensures short { IfErr result (StopsShort left (R.remaining reader.old) (R.remaining reader.new)) }
    ensures back { pieces.new.back ≡ pieces.old.back }
{
    let Some(vertices) = job.vertices_if_arcs_come() else {
        return feed_and_fill(reader, job, &pieces.front, &mut pieces.spare, limit);
    };
    // The byte past the limit is taken only after the front piece was fed: if memory for that is refused,
    // no more than the limit may have been read.
    let threads = if limit > left {
        1
    } else {
        pieces.readers.threads()
    };
    let count = pieces.front.len();
    let begun = rt.monotonic().unwrap_or(Duration::ZERO);
    let ended = if threads < 2 {
        feed_and_fill(reader, job, &pieces.front, &mut pieces.spare, limit)?
    } else {
        step_beside(rt, reader, job, pieces, vertices, limit)?
    };
    let spent = rt.monotonic().unwrap_or(begun).saturating_sub(begun);
    pieces.readers.see(threads, count, spent);
    Ok(ended)
}

/// Feeds the front piece and fills the spare one. Returns true if the reader has ended.
fn feed_and_fill<R: Read>(
    reader: &mut R,
    job: &mut JobReader,
    front: &Piece,
    spare: &mut Piece,
    limit: usize,
) -> Result<bool, ReadFault>
    ensures on { IfOk result (StepsOn limit job.old job.new front.now spare.new
        (R.remaining reader.old) (R.remaining reader.new)) }
    ensures short { IfErr result (StopsShort (limit - 1) (R.remaining reader.old) (R.remaining reader.new)) }
{
    front.feed_to(job)?;
    spare.fill(reader, limit)
}

/// Does a step by all the threads that read.
fn step_beside<H: Threads + Sync, R: Read>(
    rt: &H,
    reader: &mut R,
    job: &mut JobReader,
    pieces: &mut Pieces,
    vertices: u32,
    limit: usize,
) -> Result<bool, ReadFault>
    ensures on { IfOk result (StepsOn limit job.old job.new pieces.old.front pieces.new.spare
        (R.remaining reader.old) (R.remaining reader.new)) }
    ensures short { IfErr result (StopsShort limit (R.remaining reader.old) (R.remaining reader.new)) }
    ensures back { pieces.new.back ≡ pieces.old.back }
{
    // That of the spare piece was fed.
    let mut ahead = pieces.spare.take_ahead();
    ahead.open(pieces.readers.threads());
    let ended = feed_fill_and_read(rt, reader, job, pieces, &mut ahead, vertices, limit);
    pieces.back.put_ahead(ahead);
    ended
}

/// Feeds the front piece by another thread, fills the spare one, and reads ahead in the back one by all threads.
/// Returns true if the reader has ended.
fn feed_fill_and_read<H: Threads + Sync, R: Read>(
    rt: &H,
    reader: &mut R,
    job: &mut JobReader,
    pieces: &mut Pieces,
    ahead: &mut ReadAhead,
    vertices: u32,
    limit: usize,
) -> Result<bool, ReadFault>
    ensures on { IfOk result (StepsOn limit job.old job.new pieces.old.front pieces.new.spare
        (R.remaining reader.old) (R.remaining reader.new)) }
    ensures short { IfErr result (StopsShort limit (R.remaining reader.old) (R.remaining reader.new)) }
    ensures back { pieces.new.back ≡ pieces.old.back }
    ensures ahead { IsReadAhead pieces.new.back ahead.new }
{
    let parts = &Parts::new(pieces.back.bytes(), vertices, ahead.threads());
    let front = &pieces.front;
    let spare = &mut pieces.spare;
    let ReadAhead {
        one,
        another,
        others,
        ..
    } = ahead;
    let (fed, filled) = join_mut(
        rt,
        &mut || -> Result<(), Memory>
            ensures fed { OnOk result (Reads job.entry.now job.exit.now front.entry.now) }
            ensures ahead { AreRunsOf parts.entry.now.bytes.now one.exit.now }
        {
            let fed = front.feed_to(job);
            one.read(parts);
            fed
        },
        &mut || -> Result<bool, ReadFault>
            requires sync { IsSync H.row }
            ensures fills { IfOk result (Fills limit spare.exit.now
                (R.remaining reader.entry.now) (R.remaining reader.exit.now)) }
            ensures short { IfErr result (StopsShort limit
                (R.remaining reader.entry.now) (R.remaining reader.exit.now)) }
            ensures another { AreRunsOf parts.entry.now.bytes.now another.exit.now }
            ensures others { All (AreRunsOf parts.entry.now.bytes.now) others.exit.now.items }
        { fill_beside(rt, reader, spare, limit, another, others, parts) },
    );
    fed?;
    let ended = filled?;
    Ok(ended)
}

/// Fills a piece while other threads read ahead, and then reads ahead too. Returns true if the reader has ended.
fn fill_beside<H: Threads + Sync, R: Read>(
    rt: &H,
    reader: &mut R,
    spare: &mut Piece,
    limit: usize,
    another: &mut ArcRuns,
    others: &mut Vec<ArcRuns>,
    parts: &Parts,
) -> Result<bool, ReadFault>
    ensures fills { IfOk result (Fills limit spare.new (R.remaining reader.old) (R.remaining reader.new)) }
    ensures short { IfErr result (StopsShort limit (R.remaining reader.old) (R.remaining reader.new)) }
    ensures another { AreRunsOf parts.now.bytes.now another.new }
    ensures others { All (AreRunsOf parts.now.bytes.now) others.new.items }
{
    if others.is_empty() {
        return fill_then_read(reader, spare, limit, another, parts);
    }
    let ((), filled) = join_mut(
        rt,
        &mut ||
            requires sync { IsSync H.row }
            ensures { All (AreRunsOf parts.entry.now.bytes.now) others.exit.now.items }
        { read_side_by_side(rt, others, parts) },
        &mut || -> Result<bool, ReadFault>
            ensures fills { IfOk result (Fills limit spare.exit.now
                (R.remaining reader.entry.now) (R.remaining reader.exit.now)) }
            ensures short { IfErr result (StopsShort limit
                (R.remaining reader.entry.now) (R.remaining reader.exit.now)) }
            ensures ahead { AreRunsOf parts.entry.now.bytes.now another.exit.now }
        { fill_then_read(reader, spare, limit, another, parts) },
    );
    filled
}

/// Fills a piece, and then reads ahead. Returns true if the reader has ended.
fn fill_then_read<R: Read>(
    reader: &mut R,
    spare: &mut Piece,
    limit: usize,
    list: &mut ArcRuns,
    parts: &Parts,
) -> Result<bool, ReadFault>
    ensures fills { IfOk result (Fills limit spare.new (R.remaining reader.old) (R.remaining reader.new)) }
    ensures short { IfErr result (StopsShort limit (R.remaining reader.old) (R.remaining reader.new)) }
    ensures ahead { AreRunsOf parts.now.bytes.now list.new }
{
    let filled = spare.fill(reader, limit);
    list.read(parts);
    filled
}
