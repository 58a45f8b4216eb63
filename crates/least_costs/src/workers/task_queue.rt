//! Tasks that teams do before their turn, several at the same time.

ghost use Rattle.std.specs.Prelude.{◌≡◌, ◌+◌, ◌<◌, ◌≤◌, [], ℕ, All, IfSome, length};
ghost use Rattle.std.specs.Thread.{IsSync};
ghost use Rattle.least_costs.specs.TaskQueue.{AreFinished, Makes};
ghost use Rattle.obim_engine.specs.declared.settings.TheConstants.{MAX_WORKERS};

use crate::workers::Workers;
use crate::workers::teams::{Team, TeamGate};
use crate::workers::workspace::Workspace;
use obim_engine::{Gate, Settings};
use std::alloc::Global;
use std::sync::{Mutex, Wait};
use std::thread::{Threads, for_each_mut};

/// The tasks of one kind, each at a place from 0 on: the costs from each of many sources, say. `P` is what a task
/// gives.
pub trait Tasks<P>: Sync {
    /// Holds for what the task at a place gives.
    ghost is_part: { Self → ℕ → P → Type 0 };

    /// The place of the task after the one at a place.
    fn after(&self, place: usize) -> usize {
        place.saturating_add(1)
    }
}

/// The part that the task at a place gave.
#[derive(Drop)]
pub struct FinishedTask<P> {
    pub place: usize,
    pub part: P,
}

/// A team's own room, kept from task to task, and what it made in this round.
#[derive(Drop)]
struct TeamState<P> {
    workspace: Option<Workspace>,
    made: Vec<FinishedTask<P>>,
    /// True if it made all that it took.
    whole: bool,
}

#[derive(Drop)]
struct Cursor {
    taken: usize,
}

impl Cursor {
    fn take(&mut self) -> usize {
        let at = self.taken;
        self.taken = at.saturating_add(1);
        at
    }
}

/// The tasks of a round, and the workers that teams are made of.
#[derive(Drop)]
struct Round<'a, T, F, G> {
    tasks: &'a T,
    make: &'a F,
    places: &'a [usize],
    settings: Settings,
    searches: bool,
    gate: &'a G,
}

/// The tasks that teams do in rounds: one or two each at the same time. What these give waits for its turn. A team
/// keeps its pool of work to the end.
#[derive(Drop)]
pub struct TaskQueue<'a, P, G> {
    /// The parts that were made and not taken yet.
    pub made: Vec<FinishedTask<P>>,
    /// All workers, for a task in its turn. Teams are made of as many.
    pub workers: Workers<'a, G>,
    settings: Settings,
    states: Vec<TeamState<P>>,
    /// The places before this one were tried.
    end: usize,
    /// The number of places.
    len: usize,
    /// The teams that work at the same time. With fewer than two nothing is made before its turn.
    pub teams: usize,
    most: usize,
    ghost within: { (teams ≤ settings.workers) × (settings.workers ≤ MAX_WORKERS) },
}

impl<'a, P: Send + Drop, G: Gate + Sync> TaskQueue<'a, P, G> {
    /// Makes nothing yet. The places are those below `len`, and so many teams share these workers.
    pub fn new(
        alloc: Global,
        len: usize,
        teams: usize,
        workers: Workers<'a, G>,
    ) -> TaskQueue<'a, P, G>
        requires teams { teams ≤ workers.settings.workers }
        requires few { workers.settings.workers ≤ MAX_WORKERS }
        ensures none { result.made.items ≡ [] }
        ensures teams { result.teams ≡ teams }
    {
        TaskQueue {
            made: Vec::new(alloc),
            settings: workers.settings,
            workers,
            states: Vec::new(alloc),
            end: 0,
            len,
            teams,
            most: 1,
        }
    }

    /// The most teams that worked at the same time so far; 1 if nothing was made before its turn.
    pub fn at_once(&self) -> usize {
        self.most
    }

    /// Returns what all workers keep, for others after them, with what the teams counted.
    pub fn into_workspace(self) -> Workspace {
        let TaskQueue {
            workers,
            states,
            ..
        } = self;
        let mut kept = workers.into_workspace();
        for state in &states {
            if let Some(workspace) = &state.workspace {
                kept.near.add(&workspace.near);
            }
        }
        kept
    }

    /// Tells if the task at a place was tried before its turn.
    pub(crate) fn was_tried(&self, place: usize) -> bool {
        place < self.end
    }

    /// Takes what the task at a place gave, if it was made; places are asked for in rising order. Teams first do that
    /// task and some after it, unless it was tried. `make` does a task by a team's workers. If it gives `None`, fewer
    /// teams work from there on.
    pub fn take<H, T, F>(
        &mut self,
        rt: &H,
        alloc: Global,
        tasks: &T,
        make: &F,
        place: usize,
    ) -> Option<P>
    where
        H: Threads + Wait + Sync,
        T: Tasks<P>,
        F: Fn(usize, &mut Workers<'_, TeamGate<'_, G>>) -> Option<P> + Sync,
        requires callable { F.IsAlwaysCallable make.now }
        requires makes { Makes (T.is_part tasks.now) (F.post make.now) }
        requires made { AreFinished (T.is_part tasks.now) self.old.made.items }
        ensures left { AreFinished (T.is_part tasks.now) self.new.made.items }
        ensures part { IfSome result (T.is_part tasks.now place) }
        // No more than two tasks for each team are done at once, and teams don't become more.
        ensures few { length self.new.made.items ≤ length self.old.made.items + (self.old.teams + self.old.teams) }
        ensures teams { self.new.teams ≤ self.old.teams }
    {
        self.make_next(rt, alloc, tasks, make, place);
        let at = self.made.iter().position(|made| made.place == place)?;
        Some(self.made.swap_remove(at).part)
    }

    /// Does this task and some after it, unless it was tried.
    fn make_next<H, T, F>(&mut self, rt: &H, alloc: Global, tasks: &T, make: &F, place: usize)
    where
        H: Threads + Wait + Sync,
        T: Tasks<P>,
        F: Fn(usize, &mut Workers<'_, TeamGate<'_, G>>) -> Option<P> + Sync,
        requires callable { F.IsAlwaysCallable make.now }
        requires makes { Makes (T.is_part tasks.now) (F.post make.now) }
        requires made { AreFinished (T.is_part tasks.now) self.old.made.items }
        ensures made { AreFinished (T.is_part tasks.now) self.new.made.items }
        ensures few { length self.new.made.items ≤ length self.old.made.items + (self.old.teams + self.old.teams) }
        ensures teams { self.new.teams ≤ self.old.teams }
    {
        if place < self.end || self.teams < 2 {
            return;
        }
        let most = self.teams.saturating_mul(2);
        let Some((places, end)) = places_from::<P, T>(alloc, tasks, place, self.len, most) else {
            return;
        };
        add_states(alloc, &mut self.states, self.teams);
        let teams = self.teams.min(places.len()).min(self.states.len());
        if teams < 2 {
            return;
        }
        self.most = self.most.max(teams);
        // Two tasks each where there are enough, so that a team that is done early takes another.
        let count = count_ahead(teams, places.len());
        let round = Round {
            tasks,
            make,
            places: &places[..count],
            settings: self.settings,
            searches: self.workers.workspace.searches,
            gate: self.workers.gate,
        };
        let states = &mut self.states[..teams];
        let whole = do_round(rt, &round, states, &mut self.made);
        self.end = if count < places.len() {
            places[count]
        } else {
            end
        };
        if !whole {
            self.teams = teams / 2;
        }
    }
}

/// The number of tasks of a round, of those left.
fn count_ahead(teams: usize, left: usize) -> usize
    requires { teams ≤ left }
    ensures left { result ≤ left }
    ensures few { result ≤ teams + teams }
{
    if left / 2 >= teams { teams * 2 } else { teams }
}

/// Adds states of teams until there are this many, or memory is refused.
fn add_states<P: Drop>(alloc: Global, states: &mut Vec<TeamState<P>>, count: usize) {
    for _ in states.len()..count {
        let state = TeamState {
            workspace: None,
            made: Vec::new(alloc),
            whole: true,
        };
        if states.push(state).is_err() {
            break;
        }
    }
}

/// Does a round, and adds what was made to a list. Returns true if all was made.
fn do_round<H, P, T, F, G>(
    rt: &H,
    round: &Round<'_, T, F, G>,
    states: &mut [TeamState<P>],
    made: &mut Vec<FinishedTask<P>>,
) -> bool
where
    H: Threads + Wait + Sync,
    P: Send + Drop,
    T: Tasks<P>,
    F: Fn(usize, &mut Workers<'_, TeamGate<'_, G>>) -> Option<P> + Sync,
    G: Gate + Sync,
    requires callable { F.IsAlwaysCallable round.now.make.now }
    requires makes { Makes (T.is_part round.now.tasks.now) (F.post round.now.make.now) }
    requires some { 0 < length states.old }
    requires states { length states.old ≤ round.now.settings.workers }
    requires few { round.now.settings.workers ≤ MAX_WORKERS }
    requires made { AreFinished (T.is_part round.now.tasks.now) made.old.items }
    ensures made { AreFinished (T.is_part round.now.tasks.now) made.new.items }
    ensures few { length made.new.items ≤ length made.old.items + length round.now.places.now }
{
    work_all(rt, round, states);
    let most = made.len().saturating_add(round.places.len());
    let mut whole = true;
    for at in 0..states.len() {
        let state = &mut states[at];
        // A place is taken by one team, so there is room for all.
        let kept = keep_made(round.tasks, made, &mut state.made, most);
        whole = whole && kept && state.whole;
    }
    whole
}

/// Moves what a team made to the end of a list, which has at most so many. Returns false if all is left where it is.
fn keep_made<P: Drop, T: Tasks<P>>(
    tasks: &T,
    made: &mut Vec<FinishedTask<P>>,
    more: &mut Vec<FinishedTask<P>>,
    most: usize,
) -> bool
    requires made { AreFinished (T.is_part tasks.now) made.old.items }
    requires more { AreFinished (T.is_part tasks.now) more.old.items }
    requires few { length made.old.items ≤ most }
    ensures made { AreFinished (T.is_part tasks.now) made.new.items }
    ensures more { AreFinished (T.is_part tasks.now) more.new.items }
    ensures few { length made.new.items ≤ most }
{
    // The tasks are for the contract alone.
    let _ = tasks;
    if more.len() > most - made.len() {
        return false;
    }
    made.append(more).is_ok()
}

/// Lets the teams work at the same time.
fn work_all<H, P, T, F, G>(rt: &H, round: &Round<'_, T, F, G>, states: &mut [TeamState<P>])
where
    H: Threads + Wait + Sync,
    P: Send + Drop,
    T: Tasks<P>,
    F: Fn(usize, &mut Workers<'_, TeamGate<'_, G>>) -> Option<P> + Sync,
    G: Gate + Sync,
    requires callable { F.IsAlwaysCallable round.now.make.now }
    requires makes { Makes (T.is_part round.now.tasks.now) (F.post round.now.make.now) }
    requires some { 0 < length states.old }
    requires states { length states.old ≤ round.now.settings.workers }
    requires few { round.now.settings.workers ≤ MAX_WORKERS }
    ensures { All (λ state. AreFinished (T.is_part round.now.tasks.now) state.made.items) states.new }
{
    let (teams, workers) = (states.len(), round.settings.workers);
    let cursor = Mutex::new(Cursor { taken: 0 });
    for_each_mut(
        rt,
        states,
        teams,
        &|place: usize, state: &mut TeamState<P>|
            requires sync { IsSync H.row × IsSync T.row × IsSync F.row × IsSync G.row }
            requires callable { F.IsAlwaysCallable round.now.make.now }
            requires makes { Makes (T.is_part round.now.tasks.now) (F.post round.now.make.now) }
            requires place { place < teams }
            requires teams { teams ≤ workers }
            requires few { workers ≤ MAX_WORKERS }
            ensures { AreFinished (T.is_part round.entry.now.tasks.now) state.new.made.items }
        { work_on(rt, round, &cursor, Team::at(place, teams, workers), state) },
    );
}

/// Does tasks of a round by one team, with what it kept.
fn work_on<H, P, T, F, G>(
    rt: &H,
    round: &Round<'_, T, F, G>,
    cursor: &Mutex<Cursor>,
    team: Team,
    state: &mut TeamState<P>,
)
where
    H: Threads + Wait + Sync,
    P: Send + Drop,
    T: Tasks<P>,
    F: Fn(usize, &mut Workers<'_, TeamGate<'_, G>>) -> Option<P> + Sync,
    G: Gate + Sync,
    requires callable { F.IsAlwaysCallable round.now.make.now }
    requires makes { Makes (T.is_part round.now.tasks.now) (F.post round.now.make.now) }
    ensures { AreFinished (T.is_part round.now.tasks.now) state.new.made.items }
{
    let gate = TeamGate {
        gate: round.gate,
        team,
    };
    let workspace = match state.workspace.take() {
        Some(workspace) => workspace,
        None => Workspace::new().searching(round.searches),
    };
    let mut workers = Workers::new(team.settings(&round.settings), &gate, Some(workspace));
    make_some(rt, round, cursor, &mut workers, state);
    state.workspace = Some(workers.into_workspace());
}

/// Does tasks of a round while there are places to take. Ends if one can't be done.
fn make_some<H, P, T, F, G>(
    rt: &H,
    round: &Round<'_, T, F, G>,
    cursor: &Mutex<Cursor>,
    workers: &mut Workers<'_, TeamGate<'_, G>>,
    state: &mut TeamState<P>,
)
where
    H: Threads + Wait + Sync,
    P: Send + Drop,
    T: Tasks<P>,
    F: Fn(usize, &mut Workers<'_, TeamGate<'_, G>>) -> Option<P> + Sync,
    G: Gate + Sync,
    requires callable { F.IsAlwaysCallable round.now.make.now }
    requires makes { Makes (T.is_part round.now.tasks.now) (F.post round.now.make.now) }
    requires team { workers.old.settings.workers ≡ workers.old.gate.now.team.workers }
    ensures { AreFinished (T.is_part round.now.tasks.now) state.new.made.items }
{
    let make = round.make;
    state.made.clear();
    state.whole = true;
    for _ in 0..round.places.len() {
        let at = cursor.lock(rt).take();
        if at >= round.places.len() {
            break;
        }
        let place = round.places[at];
        let Some(part) = make(place, workers) else {
            state.whole = false;
            break;
        };
        if state.made.push(FinishedTask { place, part }).is_err() {
            state.whole = false;
            break;
        }
    }
}

/// The places from one on, at most `most` and below `len`, and the place after them. `None` if memory is refused.
fn places_from<P, T: Tasks<P>>(
    alloc: Global,
    tasks: &T,
    first: usize,
    len: usize,
    most: usize,
) -> Option<(Vec<usize>, usize)> {
    let mut places = Vec::new(alloc);
    let mut next = first;
    for _ in 0..most {
        if next >= len {
            break;
        }
        if places.push(next).is_err() {
            return None;
        }
        next = tasks.after(next);
    }
    Some((places, next))
}
