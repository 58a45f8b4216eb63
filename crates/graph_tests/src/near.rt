//! Searches near a source beside the plain way and the walks of a whole run, one after another in the same lists.

ghost use Rattle.near_labels.specs.Meeting.{AreBothWays};
ghost use Rattle.std.specs.Prelude.{◌≡◌, ◌<◌};

mod refusals;

use crate::reports::{are_below, build, distances};
use csr_graph::{Bounds, Csr, FINITE_CELLS};
use near_labels::{BothWays, SearchSpace, WalksFound};
use route_walks::{ArcRec, EXAMPLE_ARCS, INF, Memory, arcs};
use std::alloc::Global;
use std::process::Abort;
use std::test::Fail;
use walk_report::{WalkSpace, hops, parents, walk_to};

/// Parallel arcs, free arcs both ways, a circle, a loop, a vertex that no arc enters, and the greatest weights.
const TANGLED: [ArcRec; 12] = arcs![
    (0, 1, 3),
    (0, 1, 2),
    (1, 2, 0),
    (2, 1, 0),
    (2, 3, 4),
    (1, 3, 5),
    (3, 0, 1),
    (3, 3, 0),
    (2, 5, 4294967295),
    (3, 5, 4294967294),
    (4, 5, 4294967295),
    (4, 0, 0),
];

/// Walks of one cost from the first vertex to the last. One that both searches leave unknown in the middle, by a free arc,
/// has the least vertex before the last.
const TIED: [ArcRec; 8] = arcs![
    (0, 1, 5),
    (0, 1, 5),
    (1, 2, 0),
    (2, 5, 5),
    (0, 3, 2),
    (3, 4, 3),
    (4, 5, 5),
    (5, 5, 0),
];

/// Arcs of one weight, which a search from both ends may count on: walks of as many arcs from the first vertex to each.
const LEVEL: [ArcRec; 9] = arcs![
    (0, 1, 7),
    (0, 2, 7),
    (1, 3, 7),
    (2, 3, 7),
    (2, 4, 7),
    (3, 5, 7),
    (4, 5, 7),
    (5, 0, 7),
    (3, 1, 7),
];

/// A question to a source.
#[derive(Clone, Copy)]
enum Question {
    /// The labels of these vertices.
    Labels(&'static [u32]),
    /// The labels of all vertices, and the walks to them.
    Walks,
    /// The vertices within a bound.
    Within(u64),
    /// The cost to one vertex, by a search from both ends.
    Cost(u32),
    /// The label of one vertex and the walk to it, by a search from both ends.
    Walk(u32),
    /// The labels of these vertices by bounds, told by cells of the labels from the source.
    Toward(&'static [u32]),
    /// These labels and the walks, by such bounds.
    WalksToward(&'static [u32]),
}

use Question::{Cost, Labels, Toward, Walk, Walks, WalksToward, Within};

const QUESTIONS: [Question; 45] = [
    Labels(&[0]),
    Labels(&[1]),
    Labels(&[2]),
    Labels(&[3]),
    Labels(&[4]),
    Labels(&[5]),
    Labels(&ALL),
    Labels(&[5, 0, 3, 3]),
    Labels(&[]),
    Cost(0),
    Cost(1),
    Cost(2),
    Cost(3),
    Cost(4),
    Cost(5),
    Walk(0),
    Walk(1),
    Walk(2),
    Walk(3),
    Walk(4),
    Walk(5),
    Toward(&[0]),
    Toward(&[1]),
    Toward(&[2]),
    Toward(&[3]),
    Toward(&[4]),
    Toward(&[5]),
    WalksToward(&[0]),
    WalksToward(&[1]),
    WalksToward(&[2]),
    WalksToward(&[3]),
    WalksToward(&[4]),
    WalksToward(&[5]),
    WalksToward(&ALL),
    WalksToward(&[5, 0, 3, 3]),
    WalksToward(&[]),
    Walks,
    Within(0),
    Within(2),
    Within(5),
    Within(6),
    Within(10),
    Within(14),
    Within(4294967297),
    Within(INF - 1),
];

/// Enough visits for each search.
const ENOUGH: u32 = 100;

/// The visits that are allowed, in turn.
const VISITS: [u32; 8] = [0, ENOUGH, 1, ENOUGH, 2, ENOUGH, 3, ENOUGH];

const ALL: [u32; 6] = [0, 1, 2, 3, 4, 5];

#[derive(Drop)]
struct Room {
    forward: SearchSpace,
    backward: SearchSpace,
    walks: WalkSpace,
}

fn room_of(alloc: Global, n: u32) -> Result<Room, Memory> {
    Ok(Room {
        forward: SearchSpace::new(alloc, n)?,
        backward: SearchSpace::new(alloc, n)?,
        walks: WalkSpace::new(alloc, n)?,
    })
}

/// The expected labels and walks, one for each vertex; empty for no walk.
#[derive(Clone, Copy)]
struct Want<'a> {
    source: u32,
    labels: &'a [u64],
    walks: &'a [&'a [u32]],
}

/// The walks by hops and parents of the whole graph.
fn walks_from(rt: &impl Abort, alloc: Global, csr: &Csr, s: u32) -> Result<Vec<Vec<u32>>, Fail>
    requires { s < csr.now.n }
{
    let labels = distances(alloc, csr, s)?;
    let hops = hops(alloc, csr, &labels, s)?;
    let parents = parents(alloc, csr, &labels, &hops)?;
    let mut walks = Vec::new(alloc);
    for v in ALL {
        assert!(rt; (v as usize) < hops.len());
        let walk = walk_to(alloc, &hops, &parents, v)?;
        walks.push(walk.unwrap_or(Vec::new(alloc)))?;
    }
    Ok(walks)
}

/// Tells if these are the vertices within the bound, in order, each with its label.
fn are_within(found: &[(u32, u64)], labels: &[u64], bound: u64) -> bool {
    let mut rest = found.iter();
    for (v, label) in ALL.iter().zip(labels) {
        if *label <= bound && rest.next() != Some(&(*v, *label)) {
            return false;
        }
    }
    rest.next().is_none()
}

fn are_labels(found: &[u64], targets: &[u32], want: &Want) -> bool {
    let mut each = found.iter().zip(targets);
    found.len() == targets.len()
        && each.all(|(label, target)| want.labels.get(*target as usize) == Some(label))
}

fn are_walks(found: &WalksFound, targets: &[u32], want: &Want) -> bool {
    let mut each = found.walks.iter().zip(targets);
    are_labels(&found.labels, targets, want)
        && found.walks.len() == targets.len()
        && each.all(|(walk, target)| want.walks.get(*target as usize) == Some(&walk.as_slice()))
}

/// Tells if an answer is right; `None` if there is none. Takes no memory.
fn is_right(
    rt: &impl Abort,
    alloc: Global,
    room: &mut Room,
    ways: &BothWays<'_>,
    want: &Want,
    question: Question,
) -> Option<bool>
    requires { AreBothWays ways.now }
{
    let csr = ways.csr;
    let (n, s) = (csr.n(), want.source);
    let count = n as usize;
    let (forward, backward) = (&mut room.forward, &mut room.backward);
    assert!(rt; s < n && forward.vertices() == count && backward.vertices() == count);
    assert!(rt; room.walks.vertices() == count && are_below(n, &ALL));
    match question {
        Labels(targets) => {
            assert!(rt; are_below(n, targets));
            let found = forward.labels_to(alloc, csr, s, targets)?;
            Some(are_labels(&found, targets, want))
        }
        Walks => {
            let found = forward.walks_to(&mut room.walks, alloc, csr, s, &ALL)?;
            Some(are_walks(&found, &ALL, want))
        }
        Within(bound) => {
            assert!(rt; bound < INF);
            let found = forward.within(alloc, csr, s, bound)?;
            Some(are_within(&found, want.labels, bound))
        }
        Cost(v) => {
            assert!(rt; v < n);
            let found = forward.cost_between(backward, ways, s, v)?;
            Some(want.labels.get(v as usize) == Some(&found))
        }
        Walk(v) => {
            assert!(rt; v < n);
            let walks = &mut room.walks;
            let found = forward.walk_between(backward, walks, alloc, ways, s, v)?;
            Some(are_walks(&found, &[v], want))
        }
        Toward(targets) => is_right_toward(rt, alloc, room, csr, want, targets, false),
        WalksToward(targets) => is_right_toward(rt, alloc, room, csr, want, targets, true),
    }
}

/// Tells if an answer by bounds is right; `None` if there is none.
fn is_right_toward(
    rt: &impl Abort,
    alloc: Global,
    room: &mut Room,
    csr: &Csr,
    want: &Want,
    targets: &[u32],
    with_walks: bool,
) -> Option<bool> {
    let (n, s) = (csr.n(), want.source);
    let (forward, walks) = (&mut room.forward, &mut room.walks);
    assert!(rt; s < n && are_below(n, targets));
    assert!(rt; forward.vertices() == n as usize && walks.vertices() == n as usize);
    let unit = unit_of(want.labels);
    let cells = cells_of(want.labels, unit);
    let bounds = Bounds {
        targets,
        cells: &cells,
        low: &[least_cell(&cells, targets)],
        high: &[u16::MAX],
        unit,
        base: 0,
    };
    if with_walks {
        let found = forward.walks_toward(walks, alloc, csr, s, &bounds)?;
        Some(are_walks(&found, targets, want))
    } else {
        let found = forward.labels_toward(alloc, csr, s, &bounds)?;
        Some(are_labels(&found, targets, want))
    }
}

/// The fewest labels that have to share a cell, so that cells of finite labels are below `FINITE_CELLS`.
fn unit_of(labels: &[u64]) -> u64
    ensures { 0 < result }
{
    let mut most = 0;
    for label in labels {
        if *label < INF {
            most = most.max(*label);
        }
    }
    most / u64::from(FINITE_CELLS) + 1
}

/// The cells of six labels.
fn cells_of(labels: &[u64], unit: u64) -> [u16; 6]
    requires { 0 < unit }
{
    let mut cells = [0_u16; 6];
    for (cell, label) in cells.iter_mut().zip(labels) {
        *cell = (*label / unit).min(u64::from(u16::MAX)) as u16;
    }
    cells
}

/// The least cell of some vertices.
fn least_cell(cells: &[u16], vertices: &[u32]) -> u16 {
    let mut least = u16::MAX;
    for v in vertices {
        if let Some(cell) = cells.get(*v as usize) {
            least = least.min(*cell);
        }
    }
    least
}

/// Asserts that answers are right, and there if enough visits are allowed. Returns how often there is none.
fn expect_answers(
    rt: &impl Abort,
    alloc: Global,
    room: &mut Room,
    ways: &BothWays<'_>,
    want: &Want,
    question: Question,
) -> u32
    requires { AreBothWays ways.now }
{
    let mut unanswered = 0_u32;
    for visits in VISITS {
        room.forward.allow(visits, usize::MAX);
        match is_right(rt, alloc, room, ways, want, question) {
            Some(right) => assert!(rt; right, "from {} by {visits} visits", want.source),
            None => {
                assert!(rt; visits < ENOUGH, "from {}", want.source);
                unanswered = unanswered.saturating_add(1);
            }
        }
    }
    unanswered
}

fn expect_from(
    rt: &impl Abort,
    alloc: Global,
    room: &mut Room,
    ways: &BothWays<'_>,
    s: u32,
) -> Result<u32, Fail>
    requires source { s < ways.now.csr.now.n }
    requires ways { AreBothWays ways.now }
{
    let labels = distances(alloc, ways.csr, s)?;
    let walks = walks_from(rt, alloc, ways.csr, s)?;
    let walks: Vec<&[u32]> = walks.iter().map(|walk| walk.as_slice()).collect(alloc)?;
    let want = Want {
        source: s,
        labels: &labels,
        walks: &walks,
    };
    let mut unanswered = 0_u32;
    for question in QUESTIONS {
        let more = expect_answers(rt, alloc, room, ways, &want, question);
        unanswered = unanswered.saturating_add(more);
    }
    Ok(unanswered)
}

fn expect_graph(rt: &impl Abort, alloc: Global, arcs: &[ArcRec]) -> Result<(), Fail> {
    let csr = build(rt, alloc, 6, arcs)?;
    let reversed = csr.reversed(alloc)?;
    let ways = BothWays::of(&csr, &reversed);
    let mut room = room_of(alloc, 6)?;
    for s in 0..6 {
        let unanswered = expect_from(rt, alloc, &mut room, &ways, s)?;
        assert!(rt; unanswered > 0 || csr.row(s).is_empty(), "from {s}");
    }
    Ok(())
}

#[test]
fn one_search_after_another(rt: HostRuntime) -> Result<(), Fail> {
    expect_graph(&rt, rt.alloc(), &EXAMPLE_ARCS)?;
    expect_graph(&rt, rt.alloc(), &TANGLED)?;
    expect_graph(&rt, rt.alloc(), &TIED)?;
    expect_graph(&rt, rt.alloc(), &LEVEL)
}

/// The labels and the walks from the first of the six vertices.
const FROM_0: Want<'static> = Want {
    source: 0,
    labels: &[0, 10, 10, 12, 10, 15],
    walks: &[
        &[0],
        &[0, 2, 4, 1],
        &[0, 2],
        &[0, 2, 4, 1, 3],
        &[0, 2, 4],
        &[0, 2, 4, 1, 3, 5],
    ],
};

/// Questions that one visit doesn't answer.
const GIVEN_UP: [Question; 7] = [
    Labels(&ALL),
    Cost(5),
    Walk(5),
    Toward(&[5]),
    WalksToward(&[5]),
    Walks,
    Within(14),
];

/// Asserts that searches are right after many that gave up.
fn expect_after_many(
    rt: &impl Abort,
    alloc: Global,
    room: &mut Room,
    ways: &BothWays<'_>,
    question: Question,
)
    requires { AreBothWays ways.now }
{
    room.forward.allow(1, usize::MAX);
    for _ in 0..100_u32 {
        let right = is_right(rt, alloc, room, ways, &FROM_0, question);
        assert!(rt; right.is_none());
    }
    expect_one_after_another(rt, alloc, room, ways, question);
}

/// Asserts that searches are right which all together relax more arcs than each may.
fn expect_one_after_another(
    rt: &impl Abort,
    alloc: Global,
    room: &mut Room,
    ways: &BothWays<'_>,
    question: Question,
)
    requires { AreBothWays ways.now }
{
    room.forward.allow(20, 30);
    for _ in 0..30_u32 {
        let right = is_right(rt, alloc, room, ways, &FROM_0, question);
        assert!(rt; right == Some(true));
    }
}

#[test]
fn searches_that_give_up_leave_nothing(rt: HostRuntime) -> Result<(), Fail> {
    let alloc = rt.alloc();
    let csr = build(&rt, alloc, 6, &EXAMPLE_ARCS)?;
    let reversed = csr.reversed(alloc)?;
    let ways = BothWays::of(&csr, &reversed);
    let mut room = room_of(alloc, 6)?;
    for question in GIVEN_UP {
        expect_after_many(&rt, alloc, &mut room, &ways, question);
    }
    Ok(())
}

/// The vertices along a side of a grid of streets that all cost 1.
const SIDE: u32 = 20;

/// The streets of the grid, to the right and down.
fn streets(alloc: Global) -> Result<Vec<ArcRec>, Memory> {
    let mut streets = Vec::new(alloc);
    for tail in 0..SIDE * SIDE {
        let weight = 1;
        if tail % SIDE + 1 < SIDE {
            let head = tail + 1;
            streets.push(ArcRec { tail, head, weight })?;
        }
        if tail + SIDE < SIDE * SIDE {
            let head = tail + SIDE;
            streets.push(ArcRec { tail, head, weight })?;
        }
    }
    Ok(streets)
}

// Each crossing lies on a shortest path from corner to corner, so each has the same sum.
#[test]
fn equal_sums_lead_straight_on(rt: HostRuntime) -> Result<(), Fail> {
    let alloc = rt.alloc();
    let (n, far) = (SIDE * SIDE, 2 * (SIDE - 1));
    let csr = build(&rt, alloc, n, &streets(alloc)?)?;
    let cells: Vec<u16> = (0..n).map(|v| (v % SIDE + v / SIDE) as u16).collect(alloc)?;
    let bounds = Bounds {
        targets: &[n - 1],
        cells: &cells,
        low: &[far as u16],
        high: &[u16::MAX],
        unit: 1,
        base: 0,
    };
    let mut space = SearchSpace::new(alloc, n)?;
    space.allow(n, usize::MAX);
    let found = space.labels_toward(alloc, &csr, 0, &bounds);
    assert!(rt; found.is_some_and(|labels| labels.as_slice() == [u64::from(far)].as_slice()));
    assert_eq!(rt; space.visits(), far);
    Ok(())
}

/// Asserts how little an arc weighs in a graph of six vertices.
fn expect_least(rt: &impl Abort, alloc: Global, arcs: &[ArcRec], least: u32) -> Result<(), Fail> {
    let csr = build(rt, alloc, 6, arcs)?;
    let reversed = csr.reversed(alloc)?;
    assert_eq!(rt; BothWays::of(&csr, &reversed).least_weight, least);
    Ok(())
}

#[test]
fn least_weights(rt: HostRuntime) -> Result<(), Fail> {
    expect_least(&rt, rt.alloc(), &LEVEL, 7)?;
    expect_least(&rt, rt.alloc(), &TIED, 0)?;
    expect_least(&rt, rt.alloc(), &[], u32::MAX)
}
