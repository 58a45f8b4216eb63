//! The graph of a session, and the reply to one request.

ghost use Rattle.std.specs.Prelude.{◌≡◌, [], Some, ⊤, IfErr, IfOk, IfSome, OnErr, OnOk};
ghost use Rattle.std.specs.Io.KnownBytes.{Appends};
ghost use Rattle.answer_lines.specs.Lines.{refusal_text};
ghost use Rattle.dimacs_text.specs.Jobs.{Content, content_of, question_of, IsAddedWithin, IsQuestionWithin, IsWithinLimits};
ghost use Rattle.job_answer.specs.Bytes.{GivesPrefix, Writes, WritesPrefix};
ghost use Rattle.job_answer.specs.Outcome.{IsWritingFault};
ghost use Rattle.job_answer.specs.declared.question.asked.Answer.{Answer};
ghost use Rattle.request_reader.specs.Reading.{outcome_of};
ghost use Rattle.session_answer.specs.Replies.{AreKept, HoldsGraph, HoldsKind, IsAnswerIn, IsAsked, IsBeside};
ghost use Rattle.session_answer.specs.Replies.{IsReplyFor, IsReplyTo, IsRequestWithin, IsReplied, graph_after, vertices_in};
ghost use Rattle.session_answer.specs.Changes.{change_seen, change_text, changed_by};
ghost use Rattle.session_answer.specs.Terms.{terms_of};

use crate::change::Change;
use crate::kind_graph::{KindGraph, ReplyOutcome};
use crate::query::Query;
use crate::terms::asked_by;
use answer_lines::put_refusal;
use dimacs_text::{Ask, HeadForm, Job};
use job_answer::{Answer, Context, Fault, HierarchyUse, graphs_for, write_whole};
use least_costs::Workspace;
use obim_engine::Gate;
use request_reader::Request;
use route_walks::Memory;
use std::alloc::Global;
use std::io::Write;
use std::sync::Wait;
use std::thread::Threads;
use std::time::Clock;

/// The words of a refusal for want of memory.
pub(crate) const NO_MEMORY: &str = "out of memory";

/// A graph that is kept: its network of weights, and that of the other kind that was asked for last. Both other kinds
/// would take several times the memory of the weights.
#[derive(Drop)]
pub(crate) struct Session {
    pub(crate) weights: KindGraph,
    pub(crate) other: Option<OtherGraph>,
}

/// The network of levels or components.
#[derive(Drop)]
pub(crate) struct OtherGraph {
    pub(crate) answer: Answer,
    pub(crate) graph: KindGraph,
}

impl Session {
    /// Makes the network of a graph, whose list of arcs is given back, by up to `threads` threads.
    pub(crate) fn open<H: Threads + Sync>(
        rt: &H,
        alloc: Global,
        graph: Job,
        threads: usize,
    ) -> Result<Session, Memory>
        requires limits { IsWithinLimits (content_of graph) }
        ensures holds { IfOk result (HoldsGraph (content_of graph)) }
        ensures kept { IfOk result AreKept }
    {
        let Job { n, arcs, .. } = graph;
        let count = arcs.len();
        let graphs = graphs_for(rt, alloc, Answer::Distances, n, arcs, None, threads)?;
        Ok(Session {
            weights: KindGraph {
                graphs,
                arcs: count,
            },
            other: None,
        })
    }

    /// Makes a hierarchy of the weights, if it is asked for before the first request.
    pub(crate) fn contract_at_once<H: Threads + Wait + Clock + Sync, G: Gate + Sync>(
        &mut self,
        context: &Context<'_, H, G>,
    )
        ensures { self.new ≡ self.old }
    {
        if context.asked.hierarchy != HierarchyUse::Now {
            return;
        }
        if matches!(context.asked.answer, Answer::Distances) {
            let none = Ask::Pairs(Vec::new(context.alloc));
            self.weights
                .prepare(context, &none, &mut Some(Workspace::new()));
        }
    }

    /// Replies to a request: what it asks for, or in one line why it is refused. If memory is refused for what it asks
    /// before the first byte of the reply, nothing is done.
    pub(crate) fn reply<H: Threads + Wait + Clock + Sync, W: Write, G: Gate + Sync>(
        &mut self,
        context: &Context<'_, H, G>,
        writer: &mut W,
        request: Request,
        kept: &mut Option<Workspace>,
    ) -> Result<ReplyOutcome, Fault>
        requires kept { AreKept self.old }
        requires within { IsRequestWithin (vertices_in self.old) request }
        ensures reply { (graph : Content) → HoldsGraph graph self.old
            → IfOk result (λ reply. IsReplied reply (Writes (IsReplyFor (terms_of context.now.asked.now) graph
            (outcome_of request)) (W.contents writer.old) (W.contents writer.new))
            (Appends (W.contents writer.old) (W.contents writer.new) [])) }
        ensures asked { IfOk result (λ reply. IsReplied reply ⊤ (IsAsked request)) }
        ensures cut { (graph : Content) → HoldsGraph graph self.old
            → OnErr result (WritesPrefix (IsReplyFor (terms_of context.now.asked.now) graph
            (outcome_of request)) (W.contents writer.old) (W.contents writer.new)) }
        // A change stays.
        ensures graph { (graph : Content) → HoldsGraph graph self.old
            → IfOk result (λ reply. IsReplied reply (HoldsGraph (graph_after graph (outcome_of request)) self.new)
            (HoldsGraph graph self.new)) }
        ensures kept { OnOk result (AreKept self.new) }
        ensures vertices { OnOk result (vertices_in self.new ≡ vertices_in self.old) }
        ensures kinds { IfErr result IsWritingFault }
    {
        match request {
            Request::Wrong { line, kind } => {
                refuse(context.alloc, writer, line, kind.words())?;
                Ok(ReplyOutcome::Written)
            }
            Request::NoMemory { line } => {
                refuse(context.alloc, writer, line, NO_MEMORY)?;
                Ok(ReplyOutcome::Written)
            }
            Request::Asked { line, job, head } => {
                let Job { ask, added, .. } = job;
                if matches!(head.form, HeadForm::Listed) {
                    return self.weights.reply_listed(context.alloc, writer, ask, line);
                }
                let Ok((change, ask)) = Change::of(context.alloc, head.form, ask, added) else {
                    return Ok(ReplyOutcome::NotStarted);
                };
                let query = Query { ask, line };
                let asked = asked_by(head, context.asked);
                let context = Context {
                    rt: context.rt,
                    alloc: context.alloc,
                    asked: &asked,
                    gate: context.gate,
                };
                if change.is_none() {
                    return self.reply_asked(&context, writer, &query, kept);
                }
                self.reply_changed(&context, writer, &change, &query, kept)
            }
        }
    }

    /// Replies to what is asked, by the network of its kind. If memory is refused for that network, nothing is done.
    fn reply_asked<H: Threads + Wait + Clock + Sync, W: Write, G: Gate + Sync>(
        &mut self,
        context: &Context<'_, H, G>,
        writer: &mut W,
        query: &Query,
        kept: &mut Option<Workspace>,
    ) -> Result<ReplyOutcome, Fault>
        requires kept { AreKept self.old }
        requires within { IsQuestionWithin (vertices_in self.old) (question_of query.now.ask) }
        ensures answered { (graph : Content) → HoldsGraph graph self.old
            → IfOk result (λ reply. IsReplied reply (Writes (IsAnswerIn (terms_of context.now.asked.now) graph
            (question_of query.now.ask) query.now.line) (W.contents writer.old) (W.contents writer.new))
            (Appends (W.contents writer.old) (W.contents writer.new) [])) }
        ensures cut { (graph : Content) → HoldsGraph graph self.old
            → OnErr result (WritesPrefix (IsAnswerIn (terms_of context.now.asked.now) graph
            (question_of query.now.ask) query.now.line) (W.contents writer.old) (W.contents writer.new)) }
        ensures graph { (graph : Content) → HoldsGraph graph self.old → HoldsGraph graph self.new }
        ensures kept { AreKept self.new }
        ensures vertices { vertices_in self.new ≡ vertices_in self.old }
        ensures kinds { IfErr result IsWritingFault }
    {
        let answer = context.asked.answer;
        if matches!(answer, Answer::Distances) {
            self.weights.prepare(context, &query.ask, kept);
            return self.weights.reply_asked(context, writer, query, kept);
        }
        let Ok(mut graph) = self.taken(context) else {
            return Ok(ReplyOutcome::NotStarted);
        };
        graph.prepare(context, &query.ask, kept);
        let reply = graph.reply_asked(context, writer, query, kept);
        self.put(answer, graph);
        reply
    }

    /// Writes what is asked, and how large the graph is, by the network of the kind that is asked for.
    pub(crate) fn answer<H: Threads + Wait + Clock + Sync, W: Write, G: Gate + Sync>(
        &mut self,
        context: &Context<'_, H, G>,
        writer: &mut W,
        query: &Query,
        kept: &mut Option<Workspace>,
    ) -> Result<(), Fault>
        requires kept { AreKept self.old }
        requires within { IsQuestionWithin (vertices_in self.old) (question_of query.now.ask) }
        ensures answered { (graph : Content) → HoldsGraph graph self.old
            → OnOk result (Writes (IsAnswerIn (terms_of context.now.asked.now) graph
            (question_of query.now.ask) query.now.line) (W.contents writer.old) (W.contents writer.new)) }
        ensures cut { (graph : Content) → HoldsGraph graph self.old
            → OnErr result (WritesPrefix (IsAnswerIn (terms_of context.now.asked.now) graph
            (question_of query.now.ask) query.now.line) (W.contents writer.old) (W.contents writer.new)) }
        ensures graph { (graph : Content) → HoldsGraph graph self.old → HoldsGraph graph self.new }
        ensures kept { AreKept self.new }
        ensures vertices { vertices_in self.new ≡ vertices_in self.old }
        ensures kinds { IfErr result IsWritingFault }
    {
        job_answer::laws::answer_texts_by_lines_are_unique();
        let answer = context.asked.answer;
        if matches!(answer, Answer::Distances) {
            return self.weights.answer(context, writer, query, kept);
        }
        let graph = self.taken(context)?;
        let answered = graph.answer(context, writer, query, kept);
        self.put(answer, graph);
        answered
    }

    /// Takes the network of the kind that is asked for, which isn't that of weights, or makes it. One of another kind goes
    /// first.
    fn taken<H: Threads + Sync, G>(
        &mut self,
        context: &Context<'_, H, G>,
    ) -> Result<KindGraph, Memory>
        requires kept { AreKept self.old }
        ensures holds { (graph : Content) → HoldsGraph graph self.old
            → IfOk result (HoldsKind context.now.asked.now.answer graph) }
        ensures graph { (graph : Content) → HoldsGraph graph self.old → HoldsGraph graph self.new }
        ensures beside { IfOk result (IsBeside self.new.weights) }
        ensures weights { self.new.weights ≡ self.old.weights }
        ensures kept { AreKept self.new }
    {
        if let Some(other) = self.other.take() {
            if other.answer == context.asked.answer {
                return Ok(other.graph);
            }
        }
        self.weights.derived(context)
    }

    /// Keeps the network of a kind beside that of weights.
    fn put(&mut self, answer: Answer, graph: KindGraph)
        requires kept { AreKept self.old }
        requires beside { IsBeside self.old.weights graph }
        ensures graph { (all : Content) → HoldsGraph all self.old → HoldsKind answer all graph → HoldsGraph all self.new }
        ensures weights { self.new.weights ≡ self.old.weights }
        ensures kept { AreKept self.new }
    {
        self.other = Some(OtherGraph { answer, graph });
    }

    /// Changes the graph, and replies how many arcs that removes and adds, and to what is asked.
    fn reply_changed<H: Threads + Wait + Clock + Sync, W: Write, G: Gate + Sync>(
        &mut self,
        context: &Context<'_, H, G>,
        writer: &mut W,
        change: &Change,
        query: &Query,
        kept: &mut Option<Workspace>,
    ) -> Result<ReplyOutcome, Fault>
        requires kept { AreKept self.old }
        requires within { IsQuestionWithin (vertices_in self.old) (question_of query.now.ask) }
        requires added { IsAddedWithin (vertices_in self.old) (change_seen change.now).added }
        ensures reply { (graph : Content) → HoldsGraph graph self.old
            → IfOk result (λ reply. IsReplied reply (Writes (IsReplyTo (terms_of context.now.asked.now) graph
            (change_seen change.now) (question_of query.now.ask) query.now.line) (W.contents writer.old) (W.contents writer.new))
            (Appends (W.contents writer.old) (W.contents writer.new) [])) }
        ensures cut { (graph : Content) → HoldsGraph graph self.old
            → OnErr result (WritesPrefix (IsReplyTo (terms_of context.now.asked.now) graph (change_seen change.now)
            (question_of query.now.ask) query.now.line) (W.contents writer.old) (W.contents writer.new)) }
        ensures graph { (graph : Content) → HoldsGraph graph self.old
            → IfOk result (λ reply. IsReplied reply (HoldsGraph (changed_by graph (change_seen change.now)) self.new)
            (HoldsGraph graph self.new)) }
        ensures kept { OnOk result (AreKept self.new) }
        ensures vertices { OnOk result (vertices_in self.new ≡ vertices_in self.old) }
        ensures kinds { IfErr result IsWritingFault }
    {
        let ReplyOutcome::Written = self.change(context, writer, change)? else {
            return Ok(ReplyOutcome::NotStarted);
        };
        self.answer(context, writer, query, kept)?;
        Ok(ReplyOutcome::Written)
    }

    /// Changes the graph, and writes how many arcs that removes and adds. If memory is refused, nothing is done.
    fn change<H: Threads + Sync, W: Write, G>(
        &mut self,
        context: &Context<'_, H, G>,
        writer: &mut W,
        change: &Change,
    ) -> Result<ReplyOutcome, Fault>
        requires kept { AreKept self.old }
        requires within { IsAddedWithin (vertices_in self.old) (change_seen change.now).added }
        ensures graph { (graph : Content) → HoldsGraph graph self.old
            → IfOk result (λ reply. IsReplied reply (HoldsGraph (changed_by graph (change_seen change.now)) self.new)
            (HoldsGraph graph self.new)) }
        ensures kept { AreKept self.new }
        ensures vertices { vertices_in self.new ≡ vertices_in self.old }
        ensures reply { (graph : Content) → HoldsGraph graph self.old → IfOk result (λ reply. IsReplied reply
            (Appends (W.contents writer.old) (W.contents writer.new) (change_text (change_seen change.now) graph.arcs))
            (Appends (W.contents writer.old) (W.contents writer.new) [])) }
        ensures cut { (graph : Content) → HoldsGraph graph self.old → OnErr result (GivesPrefix (W.contents writer.old)
            (W.contents writer.new) (change_text (change_seen change.now) graph.arcs)) }
        ensures kinds { IfErr result IsWritingFault }
    {
        // The network of another kind is made again when it is asked for, so there is room for the new one.
        self.other = None;
        let Ok(changed) = self.changed(context, change) else {
            return Ok(ReplyOutcome::NotStarted);
        };
        // The lines are made first: once the graph has changed no memory is asked for up to the first byte.
        let Ok(text) = change.text(context.alloc, self.weights.arcs, changed.weights.arcs) else {
            return Ok(ReplyOutcome::NotStarted);
        };
        *self = changed;
        write_whole(writer, &text)?;
        Ok(ReplyOutcome::Written)
    }

    /// Makes the network after a change, and that of the kind that is asked for.
    fn changed<H: Threads + Sync, G>(
        &self,
        context: &Context<'_, H, G>,
        change: &Change,
    ) -> Result<Session, Memory>
        ensures holds { (graph : Content) → HoldsGraph graph self.now
            → IfOk result (HoldsGraph (changed_by graph (change_seen change.now))) }
        ensures kept { IfOk result AreKept }
        ensures vertices { IfOk result (λ session. vertices_in session ≡ vertices_in self.now) }
    {
        let answer = context.asked.answer;
        let mut session = Session {
            weights: self.weights.changed(context.alloc, change)?,
            other: None,
        };
        if matches!(answer, Answer::Distances) {
            return Ok(session);
        }
        let graph = session.weights.derived(context)?;
        session.put(answer, graph);
        Ok(session)
    }
}

/// Writes the line that refuses a request.
pub(crate) fn refuse<W: Write>(
    alloc: Global,
    writer: &mut W,
    line: u64,
    words: &str,
) -> Result<(), Fault>
    ensures reply { OnOk result (Appends (W.contents writer.old) (W.contents writer.new) (refusal_text line words.now)) }
    ensures cut { OnErr result (GivesPrefix (W.contents writer.old) (W.contents writer.new)
        (refusal_text line words.now)) }
    ensures kinds { IfErr result IsWritingFault }
{
    let mut text = Vec::new(alloc);
    put_refusal(&mut text, line, words)?;
    write_whole(writer, &text)
}
