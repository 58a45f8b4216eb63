//! The way from a reader to the job in its text.

ghost use Rattle.std.specs.Prelude.{◌≡◌, ◌^◌, ◌≤◌, [], IfOk, IfErr, List, ℕ};
ghost use Rattle.dimacs_text.specs.Faults.{IsFaultOf};
ghost use Rattle.dimacs_text.specs.Jobs.{content_of, IsJobText, IsWithinLimits};
ghost use Rattle.dimacs_text.specs.Reading.{HasRead};
ghost use Rattle.job_reader.specs.Request.{HasTaken, IsRequest, SaysOfText};

use crate::fault::ReadFault;
use crate::pieces::Pieces;
use crate::step::step;
use crate::watch::ReadWatch;
use dimacs_text::{Job, JobReader, TextFault};
use std::alloc::Global;
use std::io::{Read, empty};
use std::thread::Threads;
use std::time::Clock;

/// Reads the job in all that the reader gives, and at most one byte past the limit. After a fault of the text the rest
/// is read all the same. At most `threads` threads work, and no more than 16.
pub fn read_job_from<H: Threads + Clock + Sync, R: Read>(
    rt: &H,
    alloc: Global,
    reader: &mut R,
    limit: u64,
    threads: usize,
    watch: &mut impl ReadWatch,
) -> Result<Job, ReadFault>
    requires { limit ≤ 2 ^ 36 }
    ensures job { IfOk result (λ job. IsRequest limit
        (R.remaining reader.old) (R.remaining reader.new) (content_of job)) }
    ensures taken { IfErr result (HasTaken limit
        (R.remaining reader.old) (R.remaining reader.new)) }
    ensures says { IfErr result (SaysOfText (R.remaining reader.old) (R.remaining reader.new)) }
{
    let mut pieces = Pieces::new(alloc, threads)?;
    read_pieces(rt, alloc, reader, limit, &mut pieces, watch)
}

fn read_pieces<H: Threads + Clock + Sync, R: Read>(
    rt: &H,
    alloc: Global,
    reader: &mut R,
    limit: u64,
    pieces: &mut Pieces,
    watch: &mut impl ReadWatch,
) -> Result<Job, ReadFault>
    requires limit { limit ≤ 2 ^ 36 }
    requires front { pieces.old.front ≡ [] }
    requires back { pieces.old.back ≡ [] }
    ensures job { IfOk result (λ job. IsRequest limit
        (R.remaining reader.old) (R.remaining reader.new) (content_of job)) }
    ensures taken { IfErr result (HasTaken limit
        (R.remaining reader.old) (R.remaining reader.new)) }
    ensures says { IfErr result (SaysOfText (R.remaining reader.old) (R.remaining reader.new)) }
{
    let mut job = JobReader::new(alloc);
    let mut left = limit as usize;
    let mut ended = false;
    while !ended {
        let limit = pieces.readers.piece().min(left + 1);
        let fed = pieces.front.len();
        ended = step(rt, reader, &mut job, pieces, left, limit)?;
        if pieces.spare.len() > left {
            return Err(ReadFault::TooLong);
        }
        left -= pieces.spare.len();
        if fed > 0 {
            watch.see_text(fed, job.arcs_so_far());
        }
        pieces.turn();
    }
    // The reader has ended, so this feeds the front piece and reads ahead in the last one, and takes nothing.
    step(rt, &mut empty(), &mut job, pieces, 0, 0)?;
    pieces.back.feed_to(&mut job)?;
    let fed = pieces.front.len().saturating_add(pieces.back.len());
    watch.see_text(fed, job.arcs_so_far());
    Ok(finish(job, watch)?)
}

/// The job of the text that was read. If it is refused, the watch sees why.
fn finish(reader: JobReader, watch: &mut impl ReadWatch) -> Result<Job, TextFault>
    ensures job { (text : List ℕ) → HasRead reader text
        → IfOk result (λ job. IsJobText text (content_of job)) }
    ensures within { (text : List ℕ) → HasRead reader text
        → IfOk result (λ job. IsWithinLimits (content_of job)) }
    ensures fault { (text : List ℕ) → HasRead reader text → IfErr result (IsFaultOf text) }
{
    match reader.finish_explained() {
        Ok(job) => Ok(job),
        Err(refused) => {
            if let Some(explanation) = &refused.explanation {
                watch.see_fault(explanation);
            }
            Err(refused.fault)
        }
    }
}
