//! The facts that a caller learns at a fault, each proved from the contract of `answer`.

ghost use Rattle.std.specs.Prelude.{◌≡◌, ◌≢◌, ◌+◌, ◌≤◌, ◌++◌, ℕ, List, length, IfErr};
ghost use Rattle.dimacs_text.specs.Jobs.{Content, IsJobText};
ghost use Rattle.dimacs_text.specs.declared.fault.LineKind.{LineKind};
ghost use Rattle.job_answer.specs.Within.{IsAnswerTextBy};
ghost use Rattle.job_answer.specs.Outcome.{IsAnswerOf};

use dimacs_text::laws::a_text_has_one_job;
use job_answer::laws::asked_jobs_have_answers_by_lines;
use job_answer::{Asked, Fault, answer};
use obim_engine::Gate;
use std::alloc::Global;
use std::sync::Wait;
use std::thread::Threads;
use std::time::Clock;

/// Appends the answer to the vector, or nothing if the text is refused, or a prefix at a later fault.
pub(crate) fn append_answer<H: Threads + Wait + Clock + Sync, G: Gate + Sync>(
    rt: &H,
    alloc: Global,
    text: &[u8],
    bytes: &mut Vec<u8>,
    asked: &Asked,
    gate: &G,
) -> Result<(), Fault>
    ensures unread { result ≡ Err Fault.Read → bytes.new.items ≡ bytes.old.items }
    ensures too_long { result ≡ Err Fault.TooLong → bytes.new.items ≡ bytes.old.items }
    ensures unasked { result ≡ Err Fault.NoAsk → bytes.new.items ≡ bytes.old.items }
    ensures faulty { (line : ℕ) (kind : LineKind)
        → result ≡ Err (Fault.Text line kind) → bytes.new.items ≡ bytes.old.items }
    ensures prefix { IfErr result (λ _. (job : Content) (reply : List ℕ)
        → IsJobText text.now job → IsAnswerTextBy asked.now.answer asked.now.lines job reply
        → (left : List ℕ) × (bytes.old.items ++ reply ≡ bytes.new.items ++ left)) }
    // It is a prefix of an answer.
    ensures begun { result ≡ Err Fault.Write → (reply : List ℕ)
        × IsAnswerOf asked.now.answer asked.now.lines text.now reply
        × (left : List ℕ) × (bytes.old.items ++ reply ≡ bytes.new.items ++ left) }
{
    a_text_has_one_job();
    asked_jobs_have_answers_by_lines();
    let mut reader = text;
    answer(rt, alloc, &mut reader, bytes, asked, gate)
}

/// The bytes of the text that are left after a fault: one more than the limit is gone if it is too long, and else at
/// most the limit.
pub(crate) fn left_after_fault<H: Threads + Wait + Clock + Sync, G: Gate + Sync>(
    rt: &H,
    alloc: Global,
    text: &[u8],
    asked: &Asked,
    gate: &G,
) -> (Result<(), Fault>, usize)
    ensures too_long { result.0 ≡ Err Fault.TooLong
        → length text.now ≡ result.1 + (asked.now.limit + 1) }
    ensures others { IfErr result.0
        (λ fault. fault ≢ Fault.TooLong → length text.now ≤ result.1 + asked.now.limit) }
{
    let mut reader = text;
    let mut bytes = Vec::new(alloc);
    let outcome = answer(rt, alloc, &mut reader, &mut bytes, asked, gate);
    (outcome, reader.len())
}
