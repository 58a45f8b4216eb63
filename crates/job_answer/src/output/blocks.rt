//! The blocks that answer sources and components.

ghost use Rattle.std.specs.Prelude.{◌≡◌, ◌<◌, ◌≤◌, length, slice_index, All, IfErr, IfOk, IfSome, OnErr, OnOk};
ghost use Rattle.std.specs.Thread.{IsSync};
ghost use Rattle.least_costs.specs.TaskQueue.{AreFinished};
ghost use Rattle.job_answer.specs.AnswerText.{AreBlocks};
ghost use Rattle.job_answer.specs.Choices.{IsLinesAsked};
ghost use Rattle.job_answer.specs.Graphs.{AreGraphs};
ghost use Rattle.job_answer.specs.InNetworks.{AreBlocksIn, IsBlockIn, IsStartIn};
ghost use Rattle.least_costs.specs.Network.{IsStartWithin};
ghost use Rattle.job_answer.specs.Sinks.{Puts};
ghost use Rattle.job_answer.specs.Solves.{AreCostsFor, IsRest};
ghost use Rattle.job_answer.specs.Solves.{IsStartBlock, IsStartLines, goal_of};
ghost use Rattle.job_answer.specs.Tasks.{IsBlockText, IsSourceBlock};
ghost use Rattle.job_answer.specs.declared.solving.source_tasks.SourceTasks.{SourceTasks};
ghost use Rattle.job_answer.specs.LineWalks.{AreWalksFor, HasVertexLines, has_walks};
ghost use Rattle.job_answer.specs.Within.{IsLinesBlock};
ghost use Rattle.least_costs.specs.declared.start.Start.TheVariants.{At};

use crate::laws;
use crate::output::line_walks::{LineWalks, walks_below};
use crate::output::lines::{
    put_all_labels, put_component_lines, put_raw_block, put_totals_line, put_within,
};
use crate::output::near_block::{near_block, put_near};
use crate::output::sink::{NoWriter, Sink, Stop, most_bytes};
use crate::question::Question;
use crate::question::asked::Lines;
use crate::question::env::{Context, Env};
use crate::question::graphs::{GrownNetwork, teams_for};
use crate::solving::solves::{costs_after, costs_from};
use crate::solving::source_tasks::SourceTasks;
use crate::solving::team_watch::{SolveCount, TeamWatch, see_round};
use crate::watch::{Phase, Watch};
use answer_lines::put_grown;
use least_costs::{
    CostsBelow, Network, NetworkGrowth, Start, TaskQueue, Tasks, TeamGate, Workers, Workspace,
};
use obim_engine::Gate;
use route_walks::{MAX_VERTICES, Memory};
use std::alloc::Global;
use std::io::Write;
use std::sync::Wait;
use std::thread::Threads;
use std::time::Clock;

/// The block of a source, in memory.
#[derive(Drop)]
pub struct BlockText {
    pub bytes: Vec<u8>,
}

impl<'a> Tasks<BlockText> for SourceTasks<'a> {
    ghost is_part = { IsBlockText };
}

/// Tasks that threads share. A function that takes them by this bound is given that they may, and the search for that need not
/// go through two networks there.
trait SharedSources: Sync {
    ghost seen: { Self → SourceTasks };

    fn tasks(&self) -> &SourceTasks<'_>
        ensures { result.now ≡ seen self.now };
}

impl<'a> SharedSources for SourceTasks<'a> {
    ghost seen = { λ tasks. tasks };

    fn tasks(&self) -> &SourceTasks<'_> {
        self
    }
}

/// Puts the block of each source in turn. If the network grows, that in the grown one comes after each.
pub fn put_sources<H: Threads + Wait + Clock + Sync, W: Write, G: Gate + Sync>(
    context: &Context<'_, H, G>,
    sink: &mut Sink<'_, W>,
    question: Question<'_>,
    sources: &[u32],
    kept: &mut Option<Workspace>,
    watch: &mut impl Watch,
)
    requires graphs { AreGraphs question.graphs.now }
    requires sources { All (λ source. source < question.graphs.now.network.n) sources.now }
    ensures { Puts W.contents (AreBlocksIn question.entry.graphs.now question.entry.lines sources.now)
        sink.old sink.new }
{
    let (env, asked) = (context.env(), context.asked);
    let teams = teams_for(question.graphs, asked);
    let tasks = SourceTasks {
        question,
        sources,
        solves: SolveCount::new(),
    };
    let workers = Workers::new(asked.settings, context.gate, kept.take());
    let mut queue = TaskQueue::new(env.alloc, sources.len(), teams, workers);
    put_blocks(&env, sink, &tasks, &mut queue, watch);
    *kept = Some(queue.into_workspace());
}

fn put_blocks<H: Threads + Wait + Clock + Sync, W: Write, G: Gate + Sync>(
    env: &Env<'_, H>,
    sink: &mut Sink<'_, W>,
    tasks: &SourceTasks<'_>,
    queue: &mut TaskQueue<'_, BlockText, G>,
    watch: &mut impl Watch,
)
    requires graphs { AreGraphs tasks.now.question.graphs.now }
    requires made { AreFinished (IsBlockText tasks.now) queue.old.made.items }
    ensures { Puts W.contents (AreBlocks (IsSourceBlock tasks.now) tasks.now.sources.now)
        sink.old sink.new }
{
    // So what is a prefix of these blocks is one of the blocks that another run would write.
    laws::lines_are_unique();
    for place in 0..tasks.sources.len() {
        put_block_at(env, sink, tasks, place, queue, watch);
    }
}

/// Puts the block of the source at a place: made before its turn, or solved now.
fn put_block_at<H: Threads + Wait + Clock + Sync, W: Write, G: Gate + Sync>(
    env: &Env<'_, H>,
    sink: &mut Sink<'_, W>,
    tasks: &SourceTasks<'_>,
    place: usize,
    queue: &mut TaskQueue<'_, BlockText, G>,
    watch: &mut impl Watch,
)
    requires graphs { AreGraphs tasks.now.question.graphs.now }
    requires place { place < length tasks.now.sources.now }
    requires made { AreFinished (IsBlockText tasks.now) queue.old.made.items }
    ensures left { AreFinished (IsBlockText tasks.now) queue.new.made.items }
    ensures block { Puts W.contents (IsSourceBlock tasks.now (slice_index tasks.now.sources.now place))
        sink.old sink.new }
{
    laws::lines_are_unique();
    if sink.has_stopped() {
        return;
    }
    watch.see_answered(place, tasks.sources.len());
    let text = take_block(env, queue, tasks, place);
    see_round(env.rt, queue.at_once(), &tasks.solves, watch);
    if let Some(text) = text {
        sink.put_all(text.bytes);
        watch.end(env.rt, Phase::Writing);
        return;
    }
    let start = Start::At(tasks.sources[place]);
    put_solved(env, sink, &tasks.question, start, &mut queue.workers, watch);
}

/// The block of the source at a place, if it was made before.
fn take_block<H: Threads + Wait + Clock + Sync, G: Gate + Sync, S: SharedSources>(
    env: &Env<'_, H>,
    queue: &mut TaskQueue<'_, BlockText, G>,
    shared: &S,
    place: usize,
) -> Option<BlockText>
    requires graphs { AreGraphs (S.seen shared.now).question.graphs.now }
    requires made { AreFinished (IsBlockText (S.seen shared.now)) queue.old.made.items }
    ensures left { AreFinished (IsBlockText (S.seen shared.now)) queue.new.made.items }
    ensures text { IfSome result (IsBlockText (S.seen shared.now) place) }
{
    queue.take(
        env.rt,
        env.alloc,
        shared.tasks(),
        &|place: usize, workers: &mut Workers<'_, TeamGate<'_, G>>| -> Option<BlockText>
            requires sync { IsSync H.row × IsSync G.row × IsSync S.row }
            requires graphs { AreGraphs (S.seen shared.now).question.graphs.now }
            ensures { IfSome result (IsBlockText (S.seen shared.entry.now) place) }
        { make_block(env, shared.tasks(), place, workers) },
        place,
    )
}

/// The block of the source at a place. `None` if memory is refused, or walks make it long.
fn make_block<H: Threads + Wait + Clock + Sync, G: Gate + Sync>(
    env: &Env<'_, H>,
    tasks: &SourceTasks<'_>,
    place: usize,
    workers: &mut Workers<'_, G>,
) -> Option<BlockText>
    requires graphs { AreGraphs tasks.now.question.graphs.now }
    ensures { IfSome result (IsBlockText tasks.now place) }
{
    if place >= tasks.sources.len() {
        return None;
    }
    let mut watch = TeamWatch {
        solves: &tasks.solves,
    };
    let source = tasks.sources[place];
    held_block(env, &tasks.question, source, workers, &mut watch)
}

/// The block of a source, in memory.
fn held_block<H: Threads + Wait + Clock + Sync, G: Gate + Sync>(
    env: &Env<'_, H>,
    question: &Question<'_>,
    source: u32,
    workers: &mut Workers<'_, G>,
    watch: &mut impl Watch,
) -> Option<BlockText>
    requires graphs { AreGraphs question.now.graphs.now }
    requires source { source < question.now.graphs.now.network.n }
    ensures { IfSome result (λ text. IsBlockIn question.now.graphs.now question.now.lines source text.bytes.items) }
{
    // The block that is kept is the one that there is.
    route_walks::laws::least_labels_exist();
    walk_report::laws::hops_and_parents_exist();
    let (mut nobody, mut bytes) = (NoWriter, Vec::new(env.alloc));
    let mut sink = Sink {
        writer: &mut nobody,
        waiting: &mut bytes,
        piece: most_bytes(question.graphs),
        stop: None,
    };
    let start = Start::At(source);
    put_solved(env, &mut sink, question, start, workers, watch);
    if sink.has_stopped() {
        return None;
    }
    Some(BlockText { bytes })
}

/// Solves from a start, and puts its block or that of near vertices, and what comes after it if the network grows.
pub fn put_solved<H: Threads + Wait + Clock + Sync, W: Write, G: Gate + Sync>(
    env: &Env<'_, H>,
    sink: &mut Sink<'_, W>,
    question: &Question<'_>,
    start: Start,
    workers: &mut Workers<'_, G>,
    watch: &mut impl Watch,
)
    requires graphs { AreGraphs question.now.graphs.now }
    requires lines { IsStartLines start question.now.lines }
    requires start { IsStartWithin question.now.graphs.now.network.n start }
    ensures { Puts W.contents (IsStartIn question.now.graphs.now question.now.lines start)
        sink.old sink.new }
{
    laws::lines_are_unique();
    laws::blocks_are_unique();
    let (graphs, lines) = (question.graphs, question.lines);
    let (alloc, network) = (env.alloc, &graphs.network);
    if let Some(near) = near_block(alloc, graphs, lines, start, workers) {
        watch.see_solves(1);
        watch.end(env.rt, Phase::Solving);
        put_near(sink, network, lines, start, &near);
        return watch.end(env.rt, Phase::Writing);
    }
    let goal = lines.goal();
    let Ok(costs) = costs_from(env, network, start, goal, workers, watch) else {
        return sink.fail(Stop::Memory);
    };
    put_block(alloc, sink, network, lines, start, &costs);
    watch.end(env.rt, Phase::Writing);
    let Some(grown) = &graphs.grown else {
        return;
    };
    if sink.has_stopped() {
        return;
    }
    let growth = NetworkGrowth {
        network,
        grown: &grown.network,
    };
    let Ok(after) = costs_after(env, &growth, costs, goal, workers, watch) else {
        return sink.fail(Stop::Memory);
    };
    put_grown_block(alloc, sink, grown, lines, start, &after);
    watch.end(env.rt, Phase::Writing);
}

/// Puts the number of added arcs, and the block of the grown network.
fn put_grown_block<W: Write>(
    alloc: Global,
    sink: &mut Sink<'_, W>,
    grown: &GrownNetwork,
    lines: Lines,
    start: Start,
    costs: &CostsBelow,
)
    requires vertices { grown.now.network.n ≤ MAX_VERTICES }
    requires start { IsStartWithin grown.now.network.n start }
    requires lines { IsStartLines start lines }
    requires costs { AreCostsFor grown.now.network start (goal_of lines) costs.now }
    ensures { Puts W.contents (IsRest grown.now.count
        (IsStartBlock lines start grown.now.network.n grown.now.network.arcs)) sink.old sink.new }
{
    let put = put_grown(sink.waiting, grown.count);
    sink.end(put);
    put_block(alloc, sink, &grown.network, lines, start, costs);
}

fn put_block<W: Write>(
    alloc: Global,
    sink: &mut Sink<'_, W>,
    network: &Network,
    lines: Lines,
    start: Start,
    costs: &CostsBelow,
)
    requires vertices { network.now.n ≤ MAX_VERTICES }
    requires start { IsStartWithin network.now.n start }
    requires lines { IsStartLines start lines }
    requires costs { AreCostsFor network.now start (goal_of lines) costs.now }
    ensures { Puts W.contents (IsStartBlock lines start network.now.n network.now.arcs)
        sink.old sink.new }
{
    laws::blocks_are_unique();
    match start {
        Start::Everywhere => put_component_lines(sink, costs.labels()),
        Start::At(source) => put_source_block(alloc, sink, network, source, lines, costs),
    }
}

fn put_source_block<W: Write>(
    alloc: Global,
    sink: &mut Sink<'_, W>,
    network: &Network,
    source: u32,
    lines: Lines,
    costs: &CostsBelow,
)
    requires vertices { network.now.n ≤ MAX_VERTICES }
    requires source { source < network.now.n }
    requires lines { IsLinesAsked lines }
    requires costs { AreCostsFor network.now (At source) (goal_of lines) costs.now }
    ensures { Puts W.contents (IsLinesBlock lines network.now.n network.now.arcs source)
        sink.old sink.new }
{
    laws::lines_are_unique();
    let labels = costs.labels();
    match lines {
        Lines::Raw { .. } => put_raw_block(sink, source, labels),
        Lines::Totals => put_totals_line(sink, source, labels),
        Lines::Each { .. } | Lines::Within { .. } => {
            put_vertices(alloc, sink, network, source, lines, costs)
        }
    }
}

fn put_vertices<W: Write>(
    alloc: Global,
    sink: &mut Sink<'_, W>,
    network: &Network,
    source: u32,
    lines: Lines,
    costs: &CostsBelow,
)
    requires vertices { network.now.n ≤ MAX_VERTICES }
    requires source { source < network.now.n }
    requires lines { IsLinesAsked lines }
    requires lined { HasVertexLines lines }
    requires costs { AreCostsFor network.now (At source) (goal_of lines) costs.now }
    ensures { Puts W.contents (IsLinesBlock lines network.now.n network.now.arcs source)
        sink.old sink.new }
{
    laws::lines_are_unique();
    route_walks::laws::least_labels_exist();
    walk_report::laws::hops_and_parents_exist();
    walk_report::laws::walks_below_agree();
    let _ = (network.n(), costs.limit());
    let labels = costs.labels();
    if lines.is_plain() {
        return put_all_labels(sink, source, labels);
    }
    let Ok(walks) = walks_for(alloc, network, source, lines, costs) else {
        return sink.fail(Stop::Memory);
    };
    let bound = lines.bound();
    put_within(alloc, sink, source, bound, labels, &walks);
}

fn walks_for(
    alloc: Global,
    network: &Network,
    source: u32,
    lines: Lines,
    costs: &CostsBelow,
) -> Result<Option<LineWalks>, Memory>
    requires source { source < network.now.n }
    requires lines { IsLinesAsked lines }
    requires costs { AreCostsFor network.now (At source) (goal_of lines) costs.now }
    ensures walks { IfOk result (AreWalksFor (has_walks lines) network.now.n network.now.arcs source costs.now.limit
        costs.now.labels) }
{
    if !lines.has_walks() {
        return Ok(None);
    }
    let walks = walks_below(alloc, network, source, costs.labels(), costs.limit())?;
    Ok(Some(walks))
}
