//! A session, from its first byte to its last.

ghost use Rattle.std.specs.Prelude.{◌<◌, ◌≤◌, ◌^◌, ℕ, List, [], Option, IfErr, IfOk, OnErr, OnOk, length};
ghost use Rattle.dimacs_text.specs.Jobs.{absent, content_of, Content, IsWithinLimits};
ghost use Rattle.job_answer.specs.Bytes.{Writes, WritesPrefix};
ghost use Rattle.job_answer.specs.Outcome.{IsWritingFault};
ghost use Rattle.session_answer.specs.Conversations.{HasConversed, HasHeard, IsAnsweredSession, IsConsistent};
ghost use Rattle.session_answer.specs.Cuts.{AreCutAfterBytes, EndsAfterGraph, EndsBy, IsCutConversation, IsCutSession};
ghost use Rattle.session_answer.specs.Replies.{AreKept, HoldsGraph, IsAnswerIn, vertices_in};
ghost use Rattle.session_answer.specs.Terms.{Terms, terms_of};

use crate::conversation::Conversation;
use crate::initial_graph::{InitialGraph, read_initial_graph, read_some};
use crate::query::Query;
use crate::session::Session;
use dimacs_text::{Ask, Job};
use job_answer::{Asked, Context, Fault};
use least_costs::Workspace;
use obim_engine::Gate;
use request_reader::RequestReader;
use route_walks::Memory;
use std::alloc::Global;
use std::io::{Read, Write};
use std::sync::Wait;
use std::thread::Threads;
use std::time::Clock;

/// The most bytes of a read.
const MAX_READ_BYTES: usize = 1 << 16;

/// Reads a graph, and replies to it and to each request after it as soon as its last line has come, up to the end of
/// what the reader gives. A fault of the graph ends it at once; one of a request is replied to in one line.
///
/// A graph of more than `asked.limit` bytes is `TooLong`; requests have no limit, also if they come in one read with the
/// graph.
pub fn answer_session<H: Threads + Wait + Clock + Sync, R: Read, W: Write, G: Gate + Sync>(
    rt: &H,
    alloc: Global,
    reader: &mut R,
    writer: &mut W,
    asked: &Asked,
    gate: &G,
) -> Result<(), Fault>
    ensures answered { OnOk result (IsAnsweredSession asked.now.limit (terms_of asked.now)
        (R.remaining reader.old) (R.remaining reader.new)
        (W.contents writer.old) (W.contents writer.new)) }
    // At each fault a prefix of the replies was written.
    ensures cut { OnErr result (IsCutSession asked.now.limit (terms_of asked.now)
        (R.remaining reader.old) (R.remaining reader.new)
        (W.contents writer.old) (W.contents writer.new)) }
    // The fault is that of the text, or the system's.
    ensures says { IfErr result (EndsBy asked.now.limit (R.remaining reader.old) (R.remaining reader.new)) }
{
    // A small request is answered by one worker, however many there are.
    let asked = asked.with_saving(true);
    let context = Context {
        rt,
        alloc,
        asked: &asked,
        gate,
    };
    let mut buffer = vec![in alloc; 0; MAX_READ_BYTES]?;
    answer_by(&context, reader, writer, &mut buffer)
}

/// Answers a session, with room for the bytes of a read.
fn answer_by<H: Threads + Wait + Clock + Sync, R: Read, W: Write, G: Gate + Sync>(
    context: &Context<'_, H, G>,
    reader: &mut R,
    writer: &mut W,
    buffer: &mut [u8],
) -> Result<(), Fault>
    requires room { 0 < length buffer.old }
    requires limit { context.now.asked.now.limit ≤ 2 ^ 36 }
    ensures answered { OnOk result (IsAnsweredSession context.now.asked.now.limit (terms_of context.now.asked.now) (R.remaining reader.old) (R.remaining reader.new)
        (W.contents writer.old) (W.contents writer.new)) }
    ensures cut { OnErr result (IsCutSession context.now.asked.now.limit (terms_of context.now.asked.now)
        (R.remaining reader.old) (R.remaining reader.new)
        (W.contents writer.old) (W.contents writer.new)) }
    ensures says { IfErr result (EndsBy context.now.asked.now.limit (R.remaining reader.old) (R.remaining reader.new)) }
{
    job_answer::laws::answer_texts_by_lines_are_unique();
    let threads = context.asked.settings.workers as usize;
    let (rt, alloc) = (context.rt, context.alloc);
    let initial = read_initial_graph(rt, alloc, reader, buffer, context.asked.limit, threads)?;
    let (at, end, has_ended, line) = (initial.at, initial.end, initial.has_ended, initial.line);
    let last = line.saturating_sub(1);
    let session = greeted_session(context, writer, initial.graph, last)?;
    if has_ended {
        return Ok(());
    }
    let mut conversation = begun_conversation(context, writer, session, line, &buffer[at..end])?;
    converse(context, reader, writer, buffer, &mut conversation)
}

/// Opens a session, with a hierarchy if one is asked for before the first request.
fn open_session<H: Threads + Wait + Clock + Sync, G: Gate + Sync>(
    context: &Context<'_, H, G>,
    graph: Job,
) -> Result<Session, Memory>
    requires limits { IsWithinLimits (content_of graph) }
    ensures holds { IfOk result (HoldsGraph (content_of graph)) }
    ensures kept { IfOk result AreKept }
{
    let most = context.asked.settings.workers as usize;
    let mut session = Session::open(context.rt, context.alloc, graph, most)?;
    session.contract_at_once(context);
    Ok(session)
}

/// Opens a session, and writes how large its graph is: the answer to a request that asks for nothing, on this line.
fn greeted_session<H: Threads + Wait + Clock + Sync, W: Write, G: Gate + Sync>(
    context: &Context<'_, H, G>,
    writer: &mut W,
    graph: Job,
    line: u64,
) -> Result<Session, Fault>
    requires limits { IsWithinLimits (content_of graph) }
    ensures answered { OnOk result (Writes (IsAnswerIn (terms_of context.now.asked.now) (content_of graph) absent line)
        (W.contents writer.old) (W.contents writer.new)) }
    ensures cut { OnErr result (WritesPrefix (IsAnswerIn (terms_of context.now.asked.now) (content_of graph) absent line)
        (W.contents writer.old) (W.contents writer.new)) }
    ensures holds { IfOk result (HoldsGraph (content_of graph)) }
    ensures kept { IfOk result AreKept }
    ensures kinds { IfErr result IsWritingFault }
{
    let mut session = open_session(context, graph)?;
    let greeting = Query {
        ask: Ask::Absent,
        line,
    };
    session.answer(context, writer, &greeting, &mut None)?;
    Ok(session)
}

/// Begins the conversation about a graph, whose next line has this number, and replies to what is complete in these bytes.
fn begun_conversation<H: Threads + Wait + Clock + Sync, W: Write, G: Gate + Sync>(
    context: &Context<'_, H, G>,
    writer: &mut W,
    session: Session,
    line: u64,
    bytes: &[u8],
) -> Result<Conversation, Fault>
    requires kept { AreKept session }
    ensures heard { (graph : Content) → HoldsGraph graph session
        → IfOk result (λ conversation. HasHeard (terms_of context.now.asked.now) graph line conversation bytes.now
        (W.contents writer.old) (W.contents writer.new)) }
    ensures kept { IfOk result IsConsistent }
    ensures cut { (graph : Content) → HoldsGraph graph session
        → OnErr result (AreCutAfterBytes (terms_of context.now.asked.now) graph line bytes.now
        (W.contents writer.old) (W.contents writer.new)) }
    ensures kinds { IfErr result IsWritingFault }
{
    let mut conversation = open_conversation(context.alloc, session, line);
    conversation.take(context, writer, bytes)?;
    Ok(conversation)
}

/// Begins the conversation about a graph. The next line has this number.
fn open_conversation(alloc: Global, session: Session, line: u64) -> Conversation
    requires kept { AreKept session }
    ensures kept { IsConsistent result }
    ensures heard { (terms : Terms) (graph : Content) (written : Option (List ℕ)) → HoldsGraph graph session
        → HasHeard terms graph line result [] written written }
{
    let n = session.weights.graphs.network.n();
    Conversation {
        session,
        requests: RequestReader::new(alloc, n, line),
        unfinished: Vec::new(alloc),
        in_comment: false,
        kept: Some(Workspace::new()),
    }
}

/// Takes what the reader gives, up to its end, and replies.
fn converse<H: Threads + Wait + Clock + Sync, R: Read, W: Write, G: Gate + Sync>(
    context: &Context<'_, H, G>,
    reader: &mut R,
    writer: &mut W,
    buffer: &mut [u8],
    conversation: &mut Conversation,
) -> Result<(), Fault>
    requires kept { IsConsistent conversation.old }
    requires room { 0 < length buffer.old }
    ensures conversed { (graph : Content) (first : ℕ) (heard : List ℕ) (before : Option (List ℕ))
        → HasHeard (terms_of context.now.asked.now) graph first conversation.old
        heard before (W.contents writer.old)
        → OnOk result (HasConversed (terms_of context.now.asked.now) graph first
        heard (R.remaining reader.old) (R.remaining reader.new) before (W.contents writer.new)) }
    ensures cut { (graph : Content) (first : ℕ) (heard : List ℕ) (before : Option (List ℕ))
        → HasHeard (terms_of context.now.asked.now) graph first conversation.old
        heard before (W.contents writer.old)
        → OnErr result (IsCutConversation (terms_of context.now.asked.now) graph
        first heard (R.remaining reader.old) (R.remaining reader.new) before (W.contents writer.new)) }
    ensures says { (graph : Content) (first : ℕ) (heard : List ℕ) (before : Option (List ℕ))
        → HasHeard (terms_of context.now.asked.now) graph first conversation.old
        heard before (W.contents writer.old)
        → IfErr result (EndsAfterGraph graph.n first heard (R.remaining reader.old) (R.remaining reader.new)) }
{
    job_answer::laws::answer_texts_by_lines_are_unique();
    for _ in 0..u64::MAX {
        let count = read_some(reader, buffer)?;
        if count == 0 {
            return conversation.end(context, writer);
        }
        conversation.take(context, writer, &buffer[..count])?;
    }
    // No one sends that much.
    Err(Fault::TooLong)
}
