//! The aim of a worker: the label past which nothing is wanted.
//!
//! Until each target has a label, no label is compared with a limit. From then on vertices past the greatest are left
//! alone and stay marked. A worker without a vertex leaves if no other is at work below the limit.

ghost use Rattle.std.specs.Prelude.{◌≡◌, ◌≢◌, ◌<◌, true};
ghost use Rattle.obim_engine.specs.declared.goal.Goal.TheVariants as goal;

use crate::goal::Goal;
use crate::shared::Shared;
use csr_graph::Bounds;
use label_words::WorkSeat;
use route_walks::INF;

/// The least number of visits between two looks at targets; more targets have as many visits.
const MIN_VISITS_A_LOOK: u32 = 64;

/// Fruitless pops in a row before a worker leaves, if there are others.
const IDLE_POPS_BEFORE_LEAVING: u32 = 16;

/// Fruitless pops in a row after which it leaves in any case.
const MAX_IDLE_POPS: u32 = 2048;

/// A worker alone with one in so many vertices left before each target has a label goes on to the end: to look for
/// marks would take longer.
const VERTICES_A_LATE_ONE: u32 = 32;

/// An aim says which vertices a worker leaves alone, and when it leaves. By default it leaves no vertex alone.
pub(crate) trait Aim {
    /// The label of a vertex, and what bounds tell of the way from there on: by it the pool orders vertices.
    #[inline(always)]
    fn key(&self, _v: u32, label: u64) -> u64 {
        label
    }

    /// Tells if a head with this key is left alone: marked, but not pushed.
    #[inline(always)]
    fn is_past(&self, _key: u64) -> bool {
        false
    }

    #[inline(always)]
    fn skips<P, G>(&self, shared: &Shared<'_, P, G>, seat: &WorkSeat, v: u32) -> bool
        requires words { seat.now.words ≡ shared.now.words.now }
        requires graph { shared.now.run.csr.now ≡ seat.now.known.graph }
        requires vertex { v < shared.now.run.csr.now.n }
    {
        false
    }

    /// Notes a visit since the last fruitless pop.
    #[inline(always)]
    fn note_visit(&mut self) {}

    /// Notes a sweep, and if it visited a vertex.
    #[inline(always)]
    fn note_sweep(&mut self, _has_visited: bool) {}

    /// Looks at the labels of the targets, after this many visits.
    fn look<P, G>(&mut self, shared: &Shared<'_, P, G>, seat: &WorkSeat, visits: u64)
        requires words { seat.now.words ≡ shared.now.words.now }
        requires graph { shared.now.run.csr.now ≡ seat.now.known.graph };

    /// Tells if the last look asks for another aim.
    fn should_switch<P, G>(&self, shared: &Shared<'_, P, G>) -> bool
        ensures { result ≡ true → shared.now.run.goal ≢ goal.EachVertex };

    /// Tells if a worker that drew nothing, or this vertex after a fruitless sweep, is to leave: what is wanted is
    /// done, and no sweep is due.
    fn should_stop<P, G>(
        &mut self,
        shared: &Shared<'_, P, G>,
        seat: &WorkSeat,
        worker: u32,
        drawn: Option<u32>,
    ) -> bool
        requires words { seat.now.words ≡ shared.now.words.now }
        requires graph { shared.now.run.csr.now ≡ seat.now.known.graph }
        ensures { result ≡ true → shared.now.run.goal ≢ goal.EachVertex };
}

/// The aim of a run to its end.
#[derive(Drop)]
pub(crate) struct RunToEnd;

impl Aim for RunToEnd {
    #[inline(always)]
    fn look<P, G>(&mut self, _shared: &Shared<'_, P, G>, _seat: &WorkSeat, _visits: u64) {}

    #[inline(always)]
    fn should_switch<P, G>(&self, _shared: &Shared<'_, P, G>) -> bool {
        false
    }

    #[inline(always)]
    fn should_stop<P, G>(
        &mut self,
        _shared: &Shared<'_, P, G>,
        _seat: &WorkSeat,
        _worker: u32,
        _drawn: Option<u32>,
    ) -> bool {
        false
    }
}

/// The aim while some target has no label.
#[derive(Drop)]
pub(crate) struct FindTargets {
    /// Targets before this place had a label at the last look.
    reached: usize,
    visits: u64,
}

impl Aim for FindTargets {
    fn look<P, G>(&mut self, shared: &Shared<'_, P, G>, seat: &WorkSeat, visits: u64) {
        shared.pace.mark_started();
        self.visits = visits;
        self.reached = first_unreached(shared, seat, shared.run.goal.targets(), self.reached);
    }

    fn should_switch<P, G>(&self, shared: &Shared<'_, P, G>) -> bool {
        let goal = &shared.run.goal;
        !matches!(goal, Goal::EachVertex) && self.has_reached_all(goal)
    }

    #[inline(never)]
    fn should_stop<P, G>(
        &mut self,
        shared: &Shared<'_, P, G>,
        seat: &WorkSeat,
        _worker: u32,
        _drawn: Option<u32>,
    ) -> bool {
        self.reached = first_unreached(shared, seat, shared.run.goal.targets(), self.reached);
        self.should_switch(shared)
    }
}

impl FindTargets {
    pub(crate) fn new() -> FindTargets {
        FindTargets {
            reached: 0,
            visits: 0,
        }
    }

    /// Tells if each target had a label at the last look.
    pub(crate) fn has_reached_all(&self, goal: &Goal<'_>) -> bool {
        self.reached >= goal.targets().len()
    }

    /// Tells if so little is left that the run may as well go to its end.
    pub(crate) fn is_near_end<P, G>(&self, shared: &Shared<'_, P, G>) -> bool {
        let n = shared.run.csr.n();
        shared.pace.is_alone() && self.visits > u64::from(n - n / VERTICES_A_LATE_ONE)
    }
}

/// The aim once each target has a label: to stop at the limit.
#[derive(Drop)]
pub(crate) struct StopAtLimit {
    /// Vertices with at least this label are left alone. It never rises.
    limit: u64,
    idle: u32,
    /// True if a sweep since the last visit found no marked vertex below the limit.
    has_swept: bool,
}

impl Aim for StopAtLimit {
    #[inline(always)]
    fn is_past(&self, key: u64) -> bool {
        key >= self.limit
    }

    #[inline(always)]
    fn skips<P, G>(&self, shared: &Shared<'_, P, G>, seat: &WorkSeat, v: u32) -> bool {
        // Without a limit a vertex that has no label may be marked, for example if arcs were added: it is taken too.
        self.limit < INF && shared.words.label_hint(seat, v) >= self.limit
    }

    fn note_visit(&mut self) {
        self.idle = 0;
        self.has_swept = false;
    }

    fn note_sweep(&mut self, has_visited: bool) {
        self.has_swept = !has_visited;
        if self.has_swept {
            self.idle = self.idle.max(IDLE_POPS_BEFORE_LEAVING);
        }
    }

    fn look<P, G>(&mut self, shared: &Shared<'_, P, G>, seat: &WorkSeat, _visits: u64) {
        shared.pace.mark_started();
        self.take_aim(shared, seat);
    }

    #[inline(always)]
    fn should_switch<P, G>(&self, _shared: &Shared<'_, P, G>) -> bool {
        false
    }

    #[inline(never)]
    fn should_stop<P, G>(
        &mut self,
        shared: &Shared<'_, P, G>,
        seat: &WorkSeat,
        worker: u32,
        drawn: Option<u32>,
    ) -> bool {
        match shared.run.goal {
            Goal::EachVertex => false,
            _ => (drawn.is_none() || self.has_swept) && self.sees_no_work(shared, seat, worker),
        }
    }
}

impl StopAtLimit {
    pub(crate) fn new<P, G>(shared: &Shared<'_, P, G>, seat: &WorkSeat) -> StopAtLimit
        requires words { seat.now.words ≡ shared.now.words.now }
        requires graph { shared.now.run.csr.now ≡ seat.now.known.graph }
    {
        let mut aim = StopAtLimit {
            limit: INF,
            idle: 0,
            has_swept: false,
        };
        aim.take_aim(shared, seat);
        aim
    }

    /// Sets the least limit that serves the labels of now.
    fn take_aim<P, G>(&mut self, shared: &Shared<'_, P, G>, seat: &WorkSeat)
        requires words { seat.now.words ≡ shared.now.words.now }
        requires graph { shared.now.run.csr.now ≡ seat.now.known.graph }
    {
        let goal = &shared.run.goal;
        let farthest = farthest_now(shared, seat, goal.targets());
        self.limit = goal.limit_past(farthest).min(self.limit);
    }

    fn sees_no_work<P, G>(
        &mut self,
        shared: &Shared<'_, P, G>,
        seat: &WorkSeat,
        worker: u32,
    ) -> bool
        requires words { seat.now.words ≡ shared.now.words.now }
        requires graph { shared.now.run.csr.now ≡ seat.now.known.graph }
    {
        self.take_aim(shared, seat);
        let ready = self.is_ready(shared, worker, self.limit);
        ready && self.limit != INF
    }

    /// Tells if a worker that drew nothing may leave, unless another one is at work below this key.
    fn is_ready<P, G>(&mut self, shared: &Shared<'_, P, G>, worker: u32, limit: u64) -> bool {
        self.idle = self.idle.saturating_add(1);
        let pace = shared.pace;
        if worker == 0 {
            // The first vertices were handed to its side, and it has drawn them.
            pace.mark_started();
        }
        if pace.needs_sweep() {
            return false;
        }
        if pace.is_alone() || self.idle >= MAX_IDLE_POPS {
            return true;
        }
        let lowest = pace.is_lowest(worker, shared.run.metric_of(limit));
        lowest && pace.has_started() && self.idle >= IDLE_POPS_BEFORE_LEAVING
    }
}

/// The aim of a run by bounds. It leaves vertices alone from the first visit on, if they are too far from the targets or
/// no walk leads there.
#[derive(Drop)]
pub(crate) struct GoToward<'a> {
    bounds: &'a Bounds<'a>,
    stop: StopAtLimit,
}

impl Aim for GoToward<'_> {
    #[inline(always)]
    fn key(&self, v: u32, label: u64) -> u64 {
        let key = label.saturating_add(self.bounds.bound(v));
        key.saturating_sub(self.bounds.base)
    }

    #[inline(always)]
    fn is_past(&self, key: u64) -> bool {
        key >= self.limit()
    }

    #[inline(always)]
    fn skips<P, G>(&self, shared: &Shared<'_, P, G>, seat: &WorkSeat, v: u32) -> bool {
        self.key(v, shared.words.label_hint(seat, v)) >= self.limit()
    }

    fn note_visit(&mut self) {
        self.stop.note_visit();
    }

    fn note_sweep(&mut self, has_visited: bool) {
        self.stop.note_sweep(has_visited);
    }

    fn look<P, G>(&mut self, shared: &Shared<'_, P, G>, seat: &WorkSeat, visits: u64) {
        self.stop.look(shared, seat, visits);
    }

    #[inline(always)]
    fn should_switch<P, G>(&self, _shared: &Shared<'_, P, G>) -> bool {
        false
    }

    #[inline(never)]
    fn should_stop<P, G>(
        &mut self,
        shared: &Shared<'_, P, G>,
        seat: &WorkSeat,
        worker: u32,
        drawn: Option<u32>,
    ) -> bool {
        if matches!(shared.run.goal, Goal::EachVertex) {
            return false;
        }
        self.stop.take_aim(shared, seat);
        let limit = self.limit();
        let may_leave = drawn.is_none() || self.stop.has_swept;
        may_leave && self.stop.is_ready(shared, worker, limit)
    }
}

impl<'a> GoToward<'a> {
    pub(crate) fn new<P, G>(
        bounds: &'a Bounds<'a>,
        shared: &Shared<'_, P, G>,
        seat: &WorkSeat,
    ) -> GoToward<'a>
        requires words { seat.now.words ≡ shared.now.words.now }
        requires graph { shared.now.run.csr.now ≡ seat.now.known.graph }
    {
        GoToward {
            bounds,
            stop: StopAtLimit::new(shared, seat),
        }
    }

    /// The limit, counted as keys are.
    #[inline(always)]
    fn limit(&self) -> u64 {
        self.stop.limit.saturating_sub(self.bounds.base)
    }
}

/// The visits before the first look at targets.
pub(crate) fn first_look(goal: &Goal<'_>) -> u32 {
    match goal {
        Goal::EachVertex => u32::MAX,
        _ => 1,
    }
}

/// The visits between two looks at targets.
pub(crate) fn next_look(goal: &Goal<'_>) -> u32 {
    match goal {
        Goal::EachVertex => u32::MAX,
        _ => (goal.targets().len().min(u32::MAX as usize) as u32).max(MIN_VISITS_A_LOOK),
    }
}

/// The first target from a place on that has no label now, or the number of targets.
fn first_unreached<P, G>(
    shared: &Shared<'_, P, G>,
    seat: &WorkSeat,
    targets: &[u32],
    from: usize,
) -> usize
    requires words { seat.now.words ≡ shared.now.words.now }
    requires graph { shared.now.run.csr.now ≡ seat.now.known.graph }
{
    for place in from..targets.len() {
        if label_now(shared, seat, targets[place]) >= INF {
            return place;
        }
    }
    targets.len()
}

fn farthest_now<P, G>(shared: &Shared<'_, P, G>, seat: &WorkSeat, targets: &[u32]) -> u64
    requires words { seat.now.words ≡ shared.now.words.now }
    requires graph { shared.now.run.csr.now ≡ seat.now.known.graph }
{
    let mut most = 0;
    for target in targets {
        most = label_now(shared, seat, *target).max(most);
    }
    most
}

/// The label of a vertex now; 0 if there is no such vertex.
fn label_now<P, G>(shared: &Shared<'_, P, G>, seat: &WorkSeat, v: u32) -> u64
    requires words { seat.now.words ≡ shared.now.words.now }
    requires graph { shared.now.run.csr.now ≡ seat.now.known.graph }
{
    if v < shared.run.csr.n() {
        shared.words.label_hint(seat, v)
    } else {
        0
    }
}
