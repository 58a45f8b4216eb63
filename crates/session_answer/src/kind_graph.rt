//! The network of one kind of labels, and the answers in it.

ghost use Rattle.std.specs.Prelude.{◌≡◌, [], All, IfErr, IfOk, OnErr, OnOk};
ghost use Rattle.std.specs.Io.KnownBytes.{Appends};
ghost use Rattle.dimacs_text.specs.Jobs.{Content, IsPairWithin, IsQuestionWithin, question_of};
ghost use Rattle.least_costs.specs.Network.{HasArcs};
ghost use Rattle.job_answer.specs.Bytes.{GivesPrefix, Writes, WritesPrefix};
ghost use Rattle.job_answer.specs.Graphs.{AreGraphs};
ghost use Rattle.job_answer.specs.Outcome.{IsWritingFault};
ghost use Rattle.job_answer.specs.declared.question.asked.Answer.TheVariants.{Distances};
ghost use Rattle.session_answer.specs.Replies.{HoldsKind, IsAnswerIn, IsBodyIn, IsReplied, listing_text};
ghost use Rattle.session_answer.specs.Changes.{change_seen, changed_by, pairs_of};
ghost use Rattle.session_answer.specs.Terms.{terms_of};

use crate::change::{Change, pairs_of};
use crate::listing::put_listed;
use crate::query::Query;
use crate::terms::lines_for;
use answer_lines::put_ready;
use dimacs_text::Ask;
use job_answer::{
    Answer, Context, Fault, Graphs, NoWatch, Question, answer_question, graphs_by, is_unasked,
    plan_of, write_whole,
};
use least_costs::Workspace;
use obim_engine::Gate;
use route_walks::Memory;
use std::alloc::Global;
use std::io::Write;
use std::sync::Wait;
use std::thread::Threads;
use std::time::Clock;

/// The most lines, or vertices on walks, of a reply that is made in memory before its first byte is given: some
/// megabytes. No reply depends on it.
const FEW_WORDS: usize = 1 << 16;

/// The outcome of the reply to a request.
#[derive(Clone, Copy, Debug, PartialEq, Eq)]
pub(crate) enum ReplyOutcome {
    /// The reply was written in full.
    Written,
    /// Memory was refused before the first byte of the reply: nothing was given, and nothing is done.
    NotStarted,
}

/// The network of a kind of labels, after all changes.
#[derive(Drop)]
pub(crate) struct KindGraph {
    pub(crate) graphs: Graphs,
    /// The number of arcs of the graph.
    pub(crate) arcs: usize,
}

impl KindGraph {
    /// Makes the network of the kind that is asked for, from that of the weights.
    pub(crate) fn derived<H: Threads + Sync, G>(
        &self,
        context: &Context<'_, H, G>,
    ) -> Result<KindGraph, Memory>
        ensures holds { (graph : Content) → HoldsKind Distances graph self.now
            → IfOk result (HoldsKind context.now.asked.now.answer graph) }
        ensures are { IfOk result (λ kept. AreGraphs kept.graphs) }
        ensures vertices { IfOk result (λ kept. kept.graphs.network.n ≡ self.now.graphs.network.n) }
    {
        let threads = context.asked.settings.workers as usize;
        let (rt, alloc, answer) = (context.rt, context.alloc, context.asked.answer);
        let graphs = graphs_by(rt, alloc, answer, &self.graphs.network, threads)?;
        Ok(KindGraph {
            graphs,
            arcs: self.arcs,
        })
    }

    /// Makes the network after a change.
    pub(crate) fn changed(&self, alloc: Global, change: &Change) -> Result<KindGraph, Memory>
        ensures holds { (graph : Content) → HoldsKind Distances graph self.now
            → HasArcs graph.arcs self.now.graphs.network
            → IfOk result (HoldsKind Distances (changed_by graph (change_seen change.now))) }
        ensures arcs { (graph : Content) → HoldsKind Distances graph self.now
            → HasArcs graph.arcs self.now.graphs.network
            → IfOk result (λ kept. HasArcs (changed_by graph (change_seen change.now)).arcs kept.graphs.network) }
        ensures are { IfOk result (λ kept. AreGraphs kept.graphs) }
        ensures vertices { IfOk result (λ kept. kept.graphs.network.n ≡ self.now.graphs.network.n) }
    {
        let (removed, added) = (change.removed(), change.added());
        let Ok(network) = self.graphs.network.changed(alloc, removed, added) else {
            return Err(Memory);
        };
        let count = network.rows().arc_count();
        // Whatever network it is, its ends are vertices.
        let _ = network.n();
        Ok(KindGraph {
            graphs: Graphs {
                network,
                grown: None,
            },
            arcs: count,
        })
    }

    /// Makes the network ready for pairs, if searches gain more than that takes.
    pub(crate) fn prepare<H: Threads + Wait + Clock + Sync, G: Gate + Sync>(
        &mut self,
        context: &Context<'_, H, G>,
        ask: &Ask,
        kept: &mut Option<Workspace>,
    )
        requires within { IsQuestionWithin self.old.graphs.network.n (question_of ask.now) }
        ensures { self.new ≡ self.old }
    {
        if matches!(context.asked.answer, Answer::Components) {
            return;
        }
        let (Ask::Pairs(pairs), Some(kept)) = (ask, kept) else {
            return;
        };
        let (rt, alloc, gate) = (context.rt, context.alloc, context.gate);
        let network = &mut self.graphs.network;
        kept.prepare(rt, alloc, network, plan_of(context.asked), gate, pairs);
    }

    /// Replies to what is asked. A short reply is made in memory first, so that nothing was given if memory is refused.
    pub(crate) fn reply_asked<H: Threads + Wait + Clock + Sync, W: Write, G: Gate + Sync>(
        &self,
        context: &Context<'_, H, G>,
        writer: &mut W,
        query: &Query,
        kept: &mut Option<Workspace>,
    ) -> Result<ReplyOutcome, Fault>
        requires graphs { AreGraphs self.now.graphs }
        requires within { IsQuestionWithin self.now.graphs.network.n (question_of query.now.ask) }
        ensures answered { (graph : Content) → HoldsKind context.now.asked.now.answer graph self.now
            → IfOk result (λ reply. IsReplied reply (Writes (IsAnswerIn (terms_of context.now.asked.now) graph
            (question_of query.now.ask) query.now.line) (W.contents writer.old) (W.contents writer.new))
            (Appends (W.contents writer.old) (W.contents writer.new) [])) }
        ensures cut { (graph : Content) → HoldsKind context.now.asked.now.answer graph self.now
            → OnErr result (WritesPrefix (IsAnswerIn (terms_of context.now.asked.now) graph
            (question_of query.now.ask) query.now.line) (W.contents writer.old) (W.contents writer.new)) }
        ensures kinds { IfErr result IsWritingFault }
    {
        job_answer::laws::answer_texts_by_lines_are_unique();
        if !self.is_short(context, &query.ask) {
            self.answer(context, writer, query, kept)?;
            return Ok(ReplyOutcome::Written);
        }
        let text = match self.answer_text(context, query, kept) {
            Ok(text) => text,
            Err(Fault::Spawn) => return Err(Fault::Spawn),
            Err(_) => return Ok(ReplyOutcome::NotStarted),
        };
        write_whole(writer, &text)?;
        Ok(ReplyOutcome::Written)
    }

    /// Replies with the arcs between the pairs of a question. If memory is refused, nothing is given.
    pub(crate) fn reply_listed<W: Write>(
        &self,
        alloc: Global,
        writer: &mut W,
        ask: Ask,
        line: u64,
    ) -> Result<ReplyOutcome, Fault>
        requires within { IsQuestionWithin self.now.graphs.network.n (question_of ask) }
        ensures listed { (graph : Content) → HoldsKind Distances graph self.now
            → HasArcs graph.arcs self.now.graphs.network
            → IfOk result (λ outcome. IsReplied outcome (Appends (W.contents writer.old) (W.contents writer.new)
            (listing_text graph (pairs_of (question_of ask)) line))
            (Appends (W.contents writer.old) (W.contents writer.new) [])) }
        ensures cut { (graph : Content) → HoldsKind Distances graph self.now
            → HasArcs graph.arcs self.now.graphs.network
            → OnErr result (GivesPrefix (W.contents writer.old) (W.contents writer.new)
            (listing_text graph (pairs_of (question_of ask)) line)) }
        ensures kinds { IfErr result IsWritingFault }
    {
        let pairs = pairs_of(alloc, ask);
        let Ok(text) = self.listing(alloc, &pairs, line) else {
            return Ok(ReplyOutcome::NotStarted);
        };
        write_whole(writer, &text)?;
        Ok(ReplyOutcome::Written)
    }

    /// Makes the lines of the arcs between pairs, and the one that names the line that asks for them.
    fn listing(&self, alloc: Global, pairs: &[(u32, u32)], line: u64) -> Result<Vec<u8>, Memory>
        requires within { All (IsPairWithin self.now.graphs.network.n) pairs.now }
        ensures { (graph : Content) → HoldsKind Distances graph self.now → HasArcs graph.arcs self.now.graphs.network
            → IfOk result (λ text. text.items ≡ listing_text graph pairs.now line) }
    {
        let mut text = Vec::new(alloc);
        put_listed(alloc, &mut text, &self.graphs.network, pairs)?;
        put_ready(&mut text, self.graphs.network.n(), self.arcs as u64, line)?;
        Ok(text)
    }

    /// Makes the text of an answer and of how large the graph is.
    fn answer_text<H: Threads + Wait + Clock + Sync, G: Gate + Sync>(
        &self,
        context: &Context<'_, H, G>,
        query: &Query,
        kept: &mut Option<Workspace>,
    ) -> Result<Vec<u8>, Fault>
        requires graphs { AreGraphs self.now.graphs }
        requires within { IsQuestionWithin self.now.graphs.network.n (question_of query.now.ask) }
        ensures text { (graph : Content) → HoldsKind context.now.asked.now.answer graph self.now
            → IfOk result (λ text. IsAnswerIn (terms_of context.now.asked.now) graph
            (question_of query.now.ask) query.now.line text.items) }
        ensures kinds { IfErr result IsWritingFault }
    {
        let mut text = Vec::new(context.alloc);
        self.answer(context, &mut text, query, kept)?;
        Ok(text)
    }

    /// Tells if a reply is so short that it may be made in memory. No reply depends on it.
    fn is_short<H, G>(&self, context: &Context<'_, H, G>, ask: &Ask) -> bool {
        let (answer, lines) = (context.asked.answer, context.asked.lines);
        let n = self.graphs.network.n() as usize;
        let (count, has_walks) = match (answer, ask) {
            (Answer::Components, _) | (_, Ask::Absent) => (n, false),
            (_, Ask::Sources(sources)) => (sources.len().saturating_mul(n), lines.has_walks()),
            (_, Ask::Pairs(pairs)) => (pairs.len(), lines.has_walks()),
        };
        let words = if has_walks { n } else { 1 };
        count.saturating_mul(words) <= FEW_WORDS
    }

    /// Writes what is asked, and how large the graph is.
    pub(crate) fn answer<H: Threads + Wait + Clock + Sync, W: Write, G: Gate + Sync>(
        &self,
        context: &Context<'_, H, G>,
        writer: &mut W,
        query: &Query,
        kept: &mut Option<Workspace>,
    ) -> Result<(), Fault>
        requires graphs { AreGraphs self.now.graphs }
        requires within { IsQuestionWithin self.now.graphs.network.n (question_of query.now.ask) }
        ensures answered { (graph : Content) → HoldsKind context.now.asked.now.answer graph self.now
            → OnOk result (Writes (IsAnswerIn (terms_of context.now.asked.now) graph
            (question_of query.now.ask) query.now.line) (W.contents writer.old) (W.contents writer.new)) }
        ensures cut { (graph : Content) → HoldsKind context.now.asked.now.answer graph self.now
            → OnErr result (WritesPrefix (IsAnswerIn (terms_of context.now.asked.now) graph
            (question_of query.now.ask) query.now.line) (W.contents writer.old) (W.contents writer.new)) }
        ensures kinds { IfErr result IsWritingFault }
    {
        job_answer::laws::answer_texts_by_lines_are_unique();
        self.write_body(context, writer, &query.ask, kept)?;
        let n = self.graphs.network.n();
        let mut ready = Vec::new(context.alloc);
        put_ready(&mut ready, n, self.arcs as u64, query.line)?;
        write_whole(writer, &ready)
    }

    /// Writes what is asked, if something is.
    fn write_body<H: Threads + Wait + Clock + Sync, W: Write, G: Gate + Sync>(
        &self,
        context: &Context<'_, H, G>,
        writer: &mut W,
        ask: &Ask,
        kept: &mut Option<Workspace>,
    ) -> Result<(), Fault>
        requires graphs { AreGraphs self.now.graphs }
        requires within { IsQuestionWithin self.now.graphs.network.n (question_of ask.now) }
        ensures body { (graph : Content) → HoldsKind context.now.asked.now.answer graph self.now
            → OnOk result (Writes (IsBodyIn (terms_of context.now.asked.now) graph (question_of ask.now))
            (W.contents writer.old) (W.contents writer.new)) }
        ensures cut { (graph : Content) → HoldsKind context.now.asked.now.answer graph self.now
            → OnErr result (WritesPrefix (IsBodyIn (terms_of context.now.asked.now) graph
            (question_of ask.now)) (W.contents writer.old) (W.contents writer.new)) }
        ensures kinds { IfErr result IsWritingFault }
    {
        if is_unasked(context.asked.answer, ask) {
            return Ok(());
        }
        let question = Question {
            graphs: &self.graphs,
            ask,
            lines: lines_for(context.asked.lines, ask),
        };
        answer_question(context, writer, &question, kept, &mut NoWatch)
    }
}
