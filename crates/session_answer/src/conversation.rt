//! The conversation after a graph: requests in the bytes that come, and their replies.

ghost use Rattle.std.specs.Prelude.{◌≡◌, ◌≤◌, ◌<◌, ◌++◌, ◌∷◌, [], ℕ, List, Option, length, ⊤, IfErr, IfNone, IfOk, IfSome, OnErr, OnOk};
ghost use Rattle.std.specs.Prelude.{slice_index, true, false};
ghost use Rattle.dimacs_text.specs.Jobs.{Content, content_of, IsWithinLimits};
ghost use Rattle.dimacs_text.specs.Lines.{begins_comment, lines};
ghost use Rattle.dimacs_text.specs.reader.FastArc.{HasNoFeed};
ghost use Rattle.job_answer.specs.Bytes.{GivesPrefix, WritesPrefix};
ghost use Rattle.job_answer.specs.Outcome.{IsWritingFault};
ghost use Rattle.answer_lines.specs.Lines.{refusal_text};
ghost use Rattle.request_reader.specs.Reading.{outcomes_in, last_of, vertices_of, HasRequests, IsRefusedLast};
ghost use Rattle.request_reader.specs.Requests.{Outcome, no_memory};
ghost use Rattle.std.specs.Io.KnownBytes.{Appends};
ghost use Rattle.session_answer.specs.Conversations.{AreAnswered, HasHeard, HasRepliedTo, IsConsistent, IsKeptOf, Replies};
ghost use Rattle.session_answer.specs.Cuts.{AreCutAfterBytes, AreCutAfterLines, AreRepliesCut, EndsShort};
ghost use Rattle.session_answer.specs.Replies.{AreKept, AreReplies, HoldsGraph, IsAskedIn, IsRequestWithin, IsReplied};
ghost use Rattle.session_answer.specs.Replies.{out_of_memory, vertices_in};
ghost use Rattle.session_answer.specs.Terms.{terms_of};

use crate::kind_graph::ReplyOutcome;
use crate::session::{NO_MEMORY, Session, refuse};
use dimacs_text::{LineKind, begins_comment};
use job_answer::{Context, Fault};
use least_costs::Workspace;
use obim_engine::Gate;
use request_reader::{Request, RequestReader};
use std::alloc::{AllocError, Global};
use std::io::Write;
use std::mem::replace;
use std::sync::Wait;
use std::thread::Threads;
use std::time::Clock;

/// A graph that is kept, and the requests as far as they have come.
#[derive(Drop)]
pub(crate) struct Conversation {
    pub(crate) session: Session,
    pub(crate) requests: RequestReader,
    /// The bytes of the last line, whose line feed hasn't come. Those of a comment are let go.
    pub(crate) unfinished: Vec<u8>,
    /// True if the last line is a comment whose line feed hasn't come.
    pub(crate) in_comment: bool,
    /// The workspace that is kept from one request to the next. `None` after a request was refused memory.
    pub(crate) kept: Option<Workspace>,
}

impl Conversation {
    /// Takes the next bytes, and replies to each request that is complete in them.
    pub(crate) fn take<H: Threads + Wait + Clock + Sync, W: Write, G: Gate + Sync>(
        &mut self,
        context: &Context<'_, H, G>,
        writer: &mut W,
        bytes: &[u8],
    ) -> Result<(), Fault>
        requires kept { IsConsistent self.old }
        ensures heard { (graph : Content) (first : ℕ) (heard : List ℕ) (before : Option (List ℕ))
            → HasHeard (terms_of context.now.asked.now) graph first self.old heard
            before (W.contents writer.old)
            → OnOk result (HasHeard (terms_of context.now.asked.now) graph first
            self.new (heard ++ bytes.now) before (W.contents writer.new)) }
        ensures cut { (graph : Content) (first : ℕ) (heard : List ℕ) (before : Option (List ℕ))
            → HasHeard (terms_of context.now.asked.now) graph first self.old heard
            before (W.contents writer.old)
            → OnErr result (AreCutAfterBytes (terms_of context.now.asked.now) graph
            first (heard ++ bytes.now) before (W.contents writer.new)) }
        ensures kept { OnOk result (IsConsistent self.new) }
        ensures kinds { IfErr result IsWritingFault }
    {
        job_answer::laws::answer_texts_by_lines_are_unique();
        let mut at = 0;
        while let Some(end) = next_feed(bytes, at) {
            self.end_line(context, writer, &bytes[at..end])?;
            at = end + 1;
        }
        self.keep(&bytes[at..])?;
        Ok(())
    }

    /// Keeps bytes of a line whose line feed hasn't come, unless it is a comment.
    fn keep(&mut self, bytes: &[u8]) -> Result<(), AllocError>
        ensures kept { OnOk result ((begun : List ℕ) → IsKeptOf self.old.in_comment self.old.unfinished.items begun
            → IsKeptOf self.new.in_comment self.new.unfinished.items (begun ++ bytes.now)) }
        ensures requests { self.new.requests ≡ self.old.requests }
        ensures session { self.new.session ≡ self.old.session }
    {
        if self.in_comment {
            return Ok(());
        }
        self.unfinished.extend_from_slice(bytes)?;
        if !begins_comment(&self.unfinished) {
            return Ok(());
        }
        self.unfinished.clear();
        self.in_comment = true;
        Ok(())
    }

    /// Takes the rest of a line, whose line feed came after it.
    fn end_line<H: Threads + Wait + Clock + Sync, W: Write, G: Gate + Sync>(
        &mut self,
        context: &Context<'_, H, G>,
        writer: &mut W,
        rest: &[u8],
    ) -> Result<(), Fault>
        requires kept { IsConsistent self.old }
        requires no_feed { HasNoFeed rest.now 0 (length rest.now) }
        ensures heard { (graph : Content) (first : ℕ) (heard : List ℕ) (before : Option (List ℕ))
            → HasHeard (terms_of context.now.asked.now) graph first self.old heard
            before (W.contents writer.old)
            → OnOk result (HasHeard (terms_of context.now.asked.now) graph first
            self.new (heard ++ rest.now ++ 10 ∷ []) before (W.contents writer.new)) }
        ensures cut { (graph : Content) (first : ℕ) (heard : List ℕ) (before : Option (List ℕ))
            → HasHeard (terms_of context.now.asked.now) graph first self.old heard
            before (W.contents writer.old)
            → OnErr result (AreCutAfterBytes (terms_of context.now.asked.now) graph
            first (heard ++ rest.now ++ 10 ∷ []) before (W.contents writer.new)) }
        ensures kept { OnOk result (IsConsistent self.new) }
        ensures kinds { IfErr result IsWritingFault }
    {
        if self.in_comment {
            self.end_comment();
            return Ok(());
        }
        if self.unfinished.is_empty() {
            // The whole line is there, and is read where it stands.
            return self.take_line(context, writer, rest);
        }
        self.end_unfinished(context, writer, rest)
    }

    /// Passes by the comment that was begun.
    fn end_comment(&mut self)
        ensures requests { (first : ℕ) (ls : List (List ℕ)) (outcomes : List Outcome) (line : List ℕ)
            → HasRequests self.old.requests first ls outcomes → begins_comment line ≡ true
            → HasRequests self.new.requests first (ls ++ line ∷ []) outcomes }
        ensures vertices { vertices_of self.new.requests ≡ vertices_of self.old.requests }
        ensures session { self.new.session ≡ self.old.session }
        ensures unfinished { self.new.unfinished ≡ self.old.unfinished }
        ensures outside { self.new.in_comment ≡ false }
    {
        self.in_comment = false;
        self.requests.pass_comment();
    }

    /// Takes the rest of a line that came in pieces, whose line feed came after it.
    fn end_unfinished<H: Threads + Wait + Clock + Sync, W: Write, G: Gate + Sync>(
        &mut self,
        context: &Context<'_, H, G>,
        writer: &mut W,
        rest: &[u8],
    ) -> Result<(), Fault>
        requires kept { IsConsistent self.old }
        requires outside { self.old.in_comment ≡ false }
        requires no_feed { HasNoFeed rest.now 0 (length rest.now) }
        ensures heard { (graph : Content) (first : ℕ) (heard : List ℕ) (before : Option (List ℕ))
            → HasHeard (terms_of context.now.asked.now) graph first self.old heard
            before (W.contents writer.old)
            → OnOk result (HasHeard (terms_of context.now.asked.now) graph first
            self.new (heard ++ rest.now ++ 10 ∷ []) before (W.contents writer.new)) }
        ensures cut { (graph : Content) (first : ℕ) (heard : List ℕ) (before : Option (List ℕ))
            → HasHeard (terms_of context.now.asked.now) graph first self.old heard
            before (W.contents writer.old)
            → OnErr result (AreCutAfterBytes (terms_of context.now.asked.now) graph
            first (heard ++ rest.now ++ 10 ∷ []) before (W.contents writer.new)) }
        ensures kept { OnOk result (IsConsistent self.new) }
        ensures kinds { IfErr result IsWritingFault }
    {
        job_answer::laws::answer_texts_by_lines_are_unique();
        self.unfinished.extend_from_slice(rest)?;
        let line = replace(&mut self.unfinished, Vec::new(context.alloc));
        self.take_line(context, writer, &line)
    }

    /// Takes a line, and replies to the requests that end there.
    fn take_line<H: Threads + Wait + Clock + Sync, W: Write, G: Gate + Sync>(
        &mut self,
        context: &Context<'_, H, G>,
        writer: &mut W,
        line: &[u8],
    ) -> Result<(), Fault>
        requires kept { IsConsistent self.old }
        ensures replied { (graph : Content) (first : ℕ) (ls : List (List ℕ)) (before : Option (List ℕ))
            → HasRepliedTo (terms_of context.now.asked.now) graph first self.old ls
            before (W.contents writer.old)
            → OnOk result (HasRepliedTo (terms_of context.now.asked.now) graph first
            self.new (ls ++ line.now ∷ []) before (W.contents writer.new)) }
        ensures cut { (graph : Content) (first : ℕ) (ls : List (List ℕ)) (before : Option (List ℕ))
            → HasRepliedTo (terms_of context.now.asked.now) graph first self.old ls
            before (W.contents writer.old)
            → OnErr result (AreCutAfterLines (terms_of context.now.asked.now) graph
            first (ls ++ line.now ∷ []) before (W.contents writer.new)) }
        ensures kept { OnOk result (IsConsistent self.new) }
        ensures unfinished { self.new.unfinished ≡ self.old.unfinished }
        ensures in_comment { self.new.in_comment ≡ self.old.in_comment }
        ensures kinds { IfErr result IsWritingFault }
    {
        job_answer::laws::answer_texts_by_lines_are_unique();
        let events = self.requests.read(line);
        let ReplyOutcome::Written = self.reply(context, writer, events.ended)? else {
            // What ends before the line asks nothing.
            return Err(Fault::Memory);
        };
        let ReplyOutcome::Written = self.reply(context, writer, events.completed)? else {
            return self.refuse_last(context.alloc, writer);
        };
        Ok(())
    }

    /// Refuses the last request, which was whole with the last line, for want of memory.
    fn refuse_last<W: Write>(&mut self, alloc: Global, writer: &mut W) -> Result<(), Fault>
        ensures requests { (first : ℕ) (all : List (List ℕ)) (outcomes : List Outcome)
            → IsRefusedLast self.old.requests first all outcomes
            → HasRequests self.new.requests first all (outcomes ++ no_memory (last_of self.old.requests) ∷ []) }
        ensures reply { OnOk result (Appends (W.contents writer.old) (W.contents writer.new)
            (refusal_text (last_of self.old.requests) out_of_memory)) }
        ensures cut { OnErr result (GivesPrefix (W.contents writer.old) (W.contents writer.new)
            (refusal_text (last_of self.old.requests) out_of_memory)) }
        ensures vertices { vertices_of self.new.requests ≡ vertices_of self.old.requests }
        ensures session { self.new.session ≡ self.old.session }
        ensures unfinished { self.new.unfinished ≡ self.old.unfinished }
        ensures in_comment { self.new.in_comment ≡ self.old.in_comment }
        ensures kinds { IfErr result IsWritingFault }
    {
        let line = self.requests.refuse();
        refuse(alloc, writer, line, NO_MEMORY)
    }

    /// Replies to a request, if there is one.
    fn reply<H: Threads + Wait + Clock + Sync, W: Write, G: Gate + Sync>(
        &mut self,
        context: &Context<'_, H, G>,
        writer: &mut W,
        request: Option<Request>,
    ) -> Result<ReplyOutcome, Fault>
        requires kept { AreKept self.old.session }
        requires within { IfSome request (IsRequestWithin (vertices_in self.old.session)) }
        ensures replied { (graph : Content) → HoldsGraph graph self.old.session
            → IfOk result (λ reply. IsReplied reply
            (Replies (terms_of context.now.asked.now) graph (outcomes_in request)
            self.new.session (W.contents writer.old) (W.contents writer.new))
            (Replies (terms_of context.now.asked.now) graph [] self.new.session
            (W.contents writer.old) (W.contents writer.new))) }
        ensures asked { IfOk result (λ reply. IsReplied reply ⊤ (IsAskedIn request)) }
        ensures cut { (graph : Content) → HoldsGraph graph self.old.session
            → OnErr result (WritesPrefix (AreReplies (terms_of context.now.asked.now)
            graph (outcomes_in request)) (W.contents writer.old) (W.contents writer.new)) }
        ensures kept { OnOk result (AreKept self.new.session) }
        ensures vertices { OnOk result
            (vertices_in self.new.session ≡ vertices_in self.old.session) }
        ensures requests { self.new.requests ≡ self.old.requests }
        ensures unfinished { self.new.unfinished ≡ self.old.unfinished }
        ensures in_comment { self.new.in_comment ≡ self.old.in_comment }
        ensures kinds { IfErr result IsWritingFault }
    {
        match request {
            None => Ok(ReplyOutcome::Written),
            Some(request) => { self.session.reply(context, writer, request, &mut self.kept) },
        }
    }

    /// Takes the last line, if it has no line feed.
    fn end_last_line<H: Threads + Wait + Clock + Sync, W: Write, G: Gate + Sync>(
        &mut self,
        context: &Context<'_, H, G>,
        writer: &mut W,
    ) -> Result<(), Fault>
        requires kept { IsConsistent self.old }
        ensures replied { (graph : Content) (first : ℕ) (heard : List ℕ) (before : Option (List ℕ))
            → HasHeard (terms_of context.now.asked.now) graph first self.old heard
            before (W.contents writer.old)
            → OnOk result (HasRepliedTo (terms_of context.now.asked.now) graph first
            self.new (lines heard) before (W.contents writer.new)) }
        ensures cut { (graph : Content) (first : ℕ) (heard : List ℕ) (before : Option (List ℕ))
            → HasHeard (terms_of context.now.asked.now) graph first self.old heard
            before (W.contents writer.old)
            → OnErr result (AreRepliesCut (terms_of context.now.asked.now) graph
            first (lines heard) before (W.contents writer.new)) }
        ensures kinds { IfErr result IsWritingFault }
    {
        if self.in_comment {
            self.end_comment();
            return Ok(());
        }
        if self.unfinished.is_empty() {
            return Ok(());
        }
        let line = replace(&mut self.unfinished, Vec::new(context.alloc));
        self.take_line(context, writer, &line)
    }

    /// Ends the conversation after the last byte. In the middle of a request that is a fault.
    pub(crate) fn end<H: Threads + Wait + Clock + Sync, W: Write, G: Gate + Sync>(
        &mut self,
        context: &Context<'_, H, G>,
        writer: &mut W,
    ) -> Result<(), Fault>
        requires kept { IsConsistent self.old }
        ensures answered { (graph : Content) (first : ℕ) (heard : List ℕ) (before : Option (List ℕ))
            → HasHeard (terms_of context.now.asked.now) graph first self.old heard
            before (W.contents writer.old)
            → OnOk result (AreAnswered (terms_of context.now.asked.now) graph first
            heard before (W.contents writer.new)) }
        ensures cut { (graph : Content) (first : ℕ) (heard : List ℕ) (before : Option (List ℕ))
            → HasHeard (terms_of context.now.asked.now) graph first self.old heard
            before (W.contents writer.old)
            → OnErr result (AreRepliesCut (terms_of context.now.asked.now) graph
            first (lines heard) before (W.contents writer.new)) }
        ensures says { (graph : Content) (first : ℕ) (heard : List ℕ) (before : Option (List ℕ))
            → HasHeard (terms_of context.now.asked.now) graph first self.old heard
            before (W.contents writer.old)
            → IfErr result (EndsShort graph.n first (lines heard)) }
    {
        job_answer::laws::answer_texts_by_lines_are_unique();
        self.end_last_line(context, writer)?;
        match self.requests.lacking() {
            None => Ok(()),
            Some(line) => Err(Fault::Text {
                line,
                kind: LineKind::TooFew,
            }),
        }
    }
}

/// The place of the first line feed from a place on.
fn next_feed(bytes: &[u8], from: usize) -> Option<usize>
    requires { from ≤ length bytes.now }
    ensures some { IfSome result (λ place. (from ≤ place) × (place < length bytes.now)
        × (slice_index bytes.now place ≡ 10) × HasNoFeed bytes.now from place) }
    ensures none { IfNone result (HasNoFeed bytes.now from (length bytes.now)) }
{
    let mut place = from;
    while place < bytes.len() {
        if bytes[place] == b'\n' {
            return Some(place);
        }
        place += 1;
    }
    None
}
