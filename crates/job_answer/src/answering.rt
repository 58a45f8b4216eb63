//! The way from a job text to its answer.

ghost use Rattle.std.specs.Prelude.{◌≡◌, ◌↔◌, false, IfOk, IfErr, IsTrue, OnErr, OnOk};
ghost use Rattle.dimacs_text.specs.Jobs.{Content, content_of, question_of, IsQuestionWithin, IsWithinLimits};
ghost use Rattle.job_answer.specs.Bytes.{Writes, WritesPrefix};
ghost use Rattle.job_answer.specs.Graphs.{AreGraphs};
ghost use Rattle.job_answer.specs.InNetworks.{IsStartIn};
ghost use Rattle.job_answer.specs.Questions.{IsAnswerable, IsOfJob, IsTextOf};
ghost use Rattle.job_answer.specs.declared.question.asked.Lines.TheVariants.{Each};
ghost use Rattle.least_costs.specs.declared.start.Start.TheVariants.{Everywhere};
ghost use Rattle.job_answer.specs.Outcome.{IsAnswerOf, IsReply, IsReplyFault, IsTrueOfBytes};
ghost use Rattle.job_answer.specs.Outcome.{IsWritingFault, is_unasked};
ghost use Rattle.job_answer.specs.Sinks.{Puts};
ghost use Rattle.job_answer.specs.Within.{HasNoSources, IsAnswerTextBy};

use crate::fault::Fault;
use crate::laws;
use crate::output::blocks::{put_solved, put_sources};
use crate::output::pairs::put_pairs;
use crate::output::sink::{Sink, WRITE_BYTES};
use crate::question::Question;
use crate::question::asked::{Answer, Asked, Lines};
use crate::question::env::Context;
use crate::question::graphs::{Graphs, graphs_for, plan_of};
use crate::question::saving::asked_for;
use crate::solving::pair_queries::PairQueries;
use crate::watch::{NoWatch, Phase, Watch};
use dimacs_text::{Ask, Job};
use job_reader::{ReadWatch, read_job_from};
use least_costs::{HierarchyUse, Network, Start, Workers, Workspace, count_sources};
use obim_engine::Gate;
use std::alloc::Global;
use std::io::{Read, Write};
use std::sync::Wait;
use std::thread::Threads;
use std::time::Clock;

/// With at least this many sources, pairs are searched by the thread that asks: its searches take room, and reversing
/// the rows takes time.
const MANY_SOURCES: usize = 32;

/// Reads a job text to its end and writes its answer: exactly the bytes that the least labels of the job make, whatever
/// the settings and the gate are. A fault of the text is found before anything is written.
///
/// Within a bound, a source has the lines of vertices that cost at most the bound, and pairs have no answer. Components
/// have one answer by all lines.
pub fn answer<H: Threads + Wait + Clock + Sync, R: Read, W: Write, G: Gate + Sync>(
    rt: &H,
    alloc: Global,
    reader: &mut R,
    writer: &mut W,
    asked: &Asked,
    gate: &G,
) -> Result<(), Fault>
    ensures { IsReply asked.now.limit asked.now.answer asked.now.lines
        (R.remaining reader.old) (R.remaining reader.new)
        (W.contents writer.old) (W.contents writer.new) result }
{
    answer_watched(rt, alloc, reader, writer, asked, gate, &mut NoWatch)
}

/// Does as `answer`, and shows a watch how far it is.
pub fn answer_watched<H: Threads + Wait + Clock + Sync, R: Read, W: Write, G: Gate + Sync>(
    rt: &H,
    alloc: Global,
    reader: &mut R,
    writer: &mut W,
    asked: &Asked,
    gate: &G,
    watch: &mut (impl ReadWatch + Watch),
) -> Result<(), Fault>
    ensures { IsReply asked.now.limit asked.now.answer asked.now.lines
        (R.remaining reader.old) (R.remaining reader.new)
        (W.contents writer.old) (W.contents writer.new) result }
{
    let threads = asked.settings.workers as usize;
    let job = read_job_from(rt, alloc, reader, asked.limit, threads, watch)?;
    watch.end(rt, Phase::Reading);
    let context = Context {
        rt,
        alloc,
        asked,
        gate,
    };
    answer_job(&context, writer, job, watch)
}

/// Returns the answer to a text in memory. No fault is `Write`.
pub fn answer_bytes<H: Threads + Wait + Clock + Sync, G: Gate + Sync>(
    rt: &H,
    alloc: Global,
    text: &[u8],
    asked: &Asked,
    gate: &G,
) -> Result<Vec<u8>, Fault>
    ensures answered { IfOk result
        (λ bytes. IsAnswerOf asked.now.answer asked.now.lines text.now bytes.items) }
    ensures says { IfErr result (IsTrueOfBytes asked.now.limit asked.now.answer asked.now.lines text.now) }
{
    let mut reader = text;
    let mut bytes = Vec::new(alloc);
    match answer(rt, alloc, &mut reader, &mut bytes, asked, gate) {
        Ok(()) => Ok(bytes),
        // A vector fails to take bytes only if it is refused memory.
        Err(Fault::Write) => Err(Fault::Memory),
        Err(fault) => Err(fault),
    }
}

fn answer_job<H: Threads + Wait + Clock + Sync, W: Write, G: Gate + Sync>(
    context: &Context<'_, H, G>,
    writer: &mut W,
    job: Job,
    watch: &mut impl Watch,
) -> Result<(), Fault>
    requires limits { IsWithinLimits (content_of job) }
    ensures reply { OnOk result (Writes
        (IsAnswerTextBy context.now.asked.now.answer context.now.asked.now.lines (content_of job))
        (W.contents writer.old) (W.contents writer.new)) }
    ensures says { IfErr result
        (IsReplyFault context.now.asked.now.answer context.now.asked.now.lines (content_of job)
        (W.contents writer.old) (W.contents writer.new)) }
{
    let (rt, alloc, asked) = (context.rt, context.alloc, context.asked);
    if is_unasked(asked.answer, &job.ask) {
        return Err(Fault::NoAsk);
    }
    if has_no_sources(asked.answer, asked.lines, &job.ask) {
        return Err(Fault::NoSources);
    }
    let Job {
        n,
        arcs,
        ask,
        added,
    } = job;
    let threads = asked.settings.workers as usize;
    let mut graphs = graphs_for(rt, alloc, asked.answer, n, arcs, added, threads)?;
    let rows = graphs.network.rows();
    watch.see_rows(rows.n(), rows.arc_count());
    watch.end(rt, Phase::Rows);
    let mut kept = Workspace::new().searching(are_searched(asked, &ask));
    prepare(context, &mut graphs, &ask, &mut kept);
    show_means(&graphs.network, watch);
    watch.end(rt, Phase::Preparing);
    let question = Question {
        graphs: &graphs,
        ask: &ask,
        lines: asked.lines,
    };
    let mut kept = Some(kept);
    let answered = answer_question(context, writer, &question, &mut kept, watch);
    show_searches(&kept, watch);
    answered
}

/// Shows a watch by what pairs are searched.
fn show_means(network: &Network, watch: &mut impl Watch) {
    watch.see_landmarks(network.landmark_count());
    watch.see_hierarchy(network.hierarchy_arc_count());
}

/// Shows a watch what searches visited.
fn show_searches(kept: &Option<Workspace>, watch: &mut impl Watch) {
    if let Some(kept) = kept {
        watch.see_search_visits(kept.search_visits());
    }
}

/// Makes the network of a job ready for pairs, if these are searched: its rows are reversed, and landmarks are chosen or a
/// hierarchy is made if that saves time.
fn prepare<H: Threads + Wait + Clock + Sync, G: Gate + Sync>(
    context: &Context<'_, H, G>,
    graphs: &mut Graphs,
    ask: &Ask,
    kept: &mut Workspace,
)
    requires { IsQuestionWithin graphs.old.network.n (question_of ask.now) }
    ensures { graphs.new ≡ graphs.old }
{
    let (Answer::Distances | Answer::Levels, Ask::Pairs(pairs)) = (context.asked.answer, ask) else {
        return;
    };
    if graphs.grown.is_some() {
        return;
    }
    let (rt, alloc, gate) = (context.rt, context.alloc, context.gate);
    reverse_if(kept.searches(), alloc, graphs);
    let plan = plan_of(context.asked);
    kept.prepare(rt, alloc, &mut graphs.network, plan, gate, pairs);
}

fn reverse_if(turns: bool, alloc: Global, graphs: &mut Graphs)
    ensures { graphs.new ≡ graphs.old }
{
    if turns {
        graphs.network.reverse(alloc);
    }
}

/// Tells if the pairs have so many sources that searches by the thread that asks are worth their room, or a hierarchy is
/// asked for.
fn are_searched(asked: &Asked, ask: &Ask) -> bool {
    match ask {
        Ask::Pairs(pairs) => {
            count_sources(pairs) >= MANY_SOURCES || asked.hierarchy == HierarchyUse::Now
        }
        Ask::Absent | Ask::Sources(_) => false,
    }
}

/// Writes the answer to a question, as to a job of that graph, and flushes the writer once; at a fault a prefix was
/// written. It takes what is kept from one question to the next, and returns it.
pub fn answer_question<H: Threads + Wait + Clock + Sync, W: Write, G: Gate + Sync>(
    context: &Context<'_, H, G>,
    writer: &mut W,
    question: &Question<'_>,
    kept: &mut Option<Workspace>,
    watch: &mut impl Watch,
) -> Result<(), Fault>
    requires { IsAnswerable context.now.asked.now.answer question.now }
    ensures reply { (job : Content) → IsOfJob context.now.asked.now.answer question.now job
        → OnOk result (Writes (IsAnswerTextBy context.now.asked.now.answer question.now.lines job)
        (W.contents writer.old) (W.contents writer.new)) }
    ensures prefix { (job : Content) → IsOfJob context.now.asked.now.answer question.now job
        → OnErr result (WritesPrefix (IsAnswerTextBy context.now.asked.now.answer question.now.lines job)
        (W.contents writer.old) (W.contents writer.new)) }
    ensures kinds { IfErr result IsWritingFault }
{
    // What is least in the network is least for the arcs that it was made of, and so are its walks.
    route_walks::laws::least_labels_follow_the_arcs();
    walk_report::laws::hops_and_parents_follow_the_arcs();
    let asked = asked_for(context.asked, question.graphs, question.ask);
    let context = Context {
        rt: context.rt,
        alloc: context.alloc,
        asked: &asked,
        gate: context.gate,
    };
    write_text(&context, writer, question, kept, watch)
}

/// Tells if a job asks for nothing: the answer needs a section of queries, and there is no such section.
pub fn is_unasked(answer: Answer, ask: &Ask) -> bool
    ensures { result ≡ is_unasked answer (question_of ask.now) }
{
    match answer {
        Answer::Components => false,
        Answer::Distances | Answer::Levels => match ask {
            Ask::Absent => true,
            Ask::Sources(_) | Ask::Pairs(_) => false,
        },
    }
}

fn has_no_sources(answer: Answer, lines: Lines, ask: &Ask) -> bool
    ensures { IsTrue result ↔ HasNoSources answer lines (question_of ask.now) }
{
    match (answer, lines) {
        (Answer::Components, _) | (_, Lines::Each { .. } | Lines::Raw { .. } | Lines::Totals) => {
            false
        }
        (_, Lines::Within { .. }) => matches!(ask, Ask::Pairs(_)),
    }
}

fn write_text<H: Threads + Wait + Clock + Sync, W: Write, G: Gate + Sync>(
    context: &Context<'_, H, G>,
    writer: &mut W,
    question: &Question<'_>,
    kept: &mut Option<Workspace>,
    watch: &mut impl Watch,
) -> Result<(), Fault>
    requires { IsAnswerable context.now.asked.now.answer question.now }
    ensures text { OnOk result (Writes (IsTextOf context.now.asked.now.answer question.now)
        (W.contents writer.old) (W.contents writer.new)) }
    ensures prefix { OnErr result (WritesPrefix (IsTextOf context.now.asked.now.answer question.now)
        (W.contents writer.old) (W.contents writer.new)) }
    ensures kinds { IfErr result IsWritingFault }
{
    // So what is a prefix of this text is one of the text that another run would write.
    laws::blocks_are_unique();
    laws::lines_are_unique();
    route_walks::laws::least_labels_exist();
    walk_report::laws::hops_and_parents_exist();
    let mut waiting = Vec::new(context.alloc);
    let mut sink = Sink {
        writer,
        waiting: &mut waiting,
        piece: WRITE_BYTES,
        stop: None,
    };
    put_text(context, &mut sink, question, kept, watch);
    sink.finish()
}

fn put_text<H: Threads + Wait + Clock + Sync, W: Write, G: Gate + Sync>(
    context: &Context<'_, H, G>,
    sink: &mut Sink<'_, W>,
    question: &Question<'_>,
    kept: &mut Option<Workspace>,
    watch: &mut impl Watch,
)
    requires { IsAnswerable context.now.asked.now.answer question.now }
    ensures { Puts W.contents (IsTextOf context.now.asked.now.answer question.now)
        sink.old sink.new }
{
    let (graphs, lines) = (question.graphs, question.lines);
    match (context.asked.answer, question.ask) {
        (Answer::Components, _) => put_all(context, sink, question, kept, watch),
        (_, Ask::Sources(sources)) => put_sources(context, sink, *question, sources, kept, watch),
        (_, Ask::Pairs(pairs)) => {
            let queries = PairQueries { graphs, pairs };
            put_pairs(context, sink, queries, lines, kept, watch)
        }
        (_, Ask::Absent) => unreachable!(),
    }
}

fn put_all<H: Threads + Wait + Clock + Sync, W: Write, G: Gate + Sync>(
    context: &Context<'_, H, G>,
    sink: &mut Sink<'_, W>,
    question: &Question<'_>,
    kept: &mut Option<Workspace>,
    watch: &mut impl Watch,
)
    requires graphs { AreGraphs question.now.graphs.now }
    ensures { Puts W.contents (IsStartIn question.now.graphs.now (Each false) Everywhere) sink.old sink.new }
{
    // Components have neither walks nor costs, so their block is the same by all lines.
    let question = Question {
        graphs: question.graphs,
        ask: question.ask,
        lines: Lines::Each { walks: false },
    };
    let mut workers = Workers::new(context.asked.settings, context.gate, kept.take());
    put_solved(
        &context.env(),
        sink,
        &question,
        Start::Everywhere,
        &mut workers,
        watch,
    );
    *kept = Some(workers.into_workspace());
}
