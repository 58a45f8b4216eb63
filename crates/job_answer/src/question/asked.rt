//! The questions to a job text.

ghost use Rattle.std.specs.Prelude.{◌≡◌, ◌↔◌, false, IsSome, IsTrue, IfSome};
ghost use Rattle.least_costs.specs.declared.plan.HierarchyUse.TheVariants as hierarchy_use;
ghost use Rattle.least_costs.specs.declared.plan.TheConstants.{USUAL_LANDMARKS};
ghost use Rattle.job_answer.specs.Choices.{IsAsked, IsLinesAsked};
ghost use Rattle.job_answer.specs.declared.question.asked.Lines.TheVariants as lines;
ghost use Rattle.job_answer.specs.LineWalks.{bound_in, bound_of, has_raw_pairs, has_walks, is_raw};
ghost use Rattle.job_answer.specs.LineWalks.{is_totals};
ghost use Rattle.job_answer.specs.Solves.{goal_of};

use least_costs::{AtOnce, HierarchyUse, USUAL_LANDMARKS};
use obim_engine::{Goal, Settings};
use route_walks::INF;

/// The kind of labels.
#[derive(Clone, Copy, Debug, PartialEq, Eq)]
pub enum Answer {
    /// The least cost of a walk from each source.
    Distances,
    /// The fewest arcs of a walk from each source.
    Levels,
    /// The least number of a vertex that each vertex is connected with, whichever way arcs point.
    Components,
}

/// The lines of the block of a source.
#[derive(Clone, Copy, Debug, PartialEq, Eq)]
pub enum Lines {
    /// One of each vertex, and its walk if asked for.
    Each { walks: bool },
    /// Those of vertices that cost at most the bound, which is less than `INF`.
    Within { walks: bool, bound: u64 },
    /// The label of each vertex as 8 bytes, little-endian, after the line of the source. Those of pairs stand as bytes too
    /// if asked for, without their lines.
    Raw { pairs: bool },
    /// One line instead of a block: the number of vertices reached, the sum of their costs, the greatest, and the least
    /// vertex with it.
    Totals,
}

impl Lines {
    /// The lines of each vertex, or of those within a bound.
    pub fn of(walks: bool, within: Option<u64>) -> Lines
        ensures walks { has_walks result ≡ walks }
        ensures within { bound_in result ≡ within }
        ensures raw { is_raw result ≡ false }
        ensures raw_pairs { has_raw_pairs result ≡ false }
        ensures totals { is_totals result ≡ false }
    {
        match within {
            None => Lines::Each { walks },
            Some(bound) => Lines::Within { walks, bound },
        }
    }

    /// Tells if walks are asked for.
    pub fn has_walks(self) -> bool
        ensures { result ≡ has_walks self }
    {
        match self {
            Lines::Each { walks } | Lines::Within { walks, .. } => walks,
            Lines::Raw { .. } | Lines::Totals => false,
        }
    }

    /// Tells if the labels of pairs are asked for as bytes.
    pub(crate) fn has_raw_pairs(self) -> bool
        ensures { result ≡ has_raw_pairs self }
    {
        matches!(self, Lines::Raw { pairs: true })
    }

    /// Tells if each vertex has its line and nothing else.
    pub(crate) fn is_plain(self) -> bool
        ensures { IsTrue result ↔ (self ≡ lines.Each false) }
    {
        matches!(self, Lines::Each { walks: false })
    }

    pub(crate) fn bound(self) -> u64
        ensures { result ≡ bound_of self }
    {
        match self {
            Lines::Each { .. } | Lines::Raw { .. } | Lines::Totals => INF,
            Lines::Within { bound, .. } => bound,
        }
    }

    /// Tells if the bound, if there is one, is less than `INF`.
    fn has_cost(self) -> bool
        ensures { IsTrue result ↔ IsLinesAsked self }
    {
        match self {
            Lines::Each { .. } | Lines::Raw { .. } | Lines::Totals => true,
            Lines::Within { bound, .. } => bound < INF,
        }
    }

    pub(crate) fn goal(self) -> Goal<'static>
        ensures { result ≡ goal_of self }
    {
        match self {
            Lines::Each { .. } | Lines::Raw { .. } | Lines::Totals => Goal::EachVertex,
            Lines::Within { bound, .. } => Goal::Within(bound),
        }
    }
}

/// The most sources that are solved at the same time.
pub const MAX_AT_ONCE: u32 = 64;

/// The most bytes of a job text, 2^36.
pub const MAX_BYTES: u64 = 68719476736;

/// A question to a job text, or to all requests of a session.
#[derive(Clone, Copy, Debug, PartialEq, Eq)]
pub struct Asked {
    /// The kind of labels.
    pub answer: Answer,
    /// The lines of a source's block. A pair has its line, with its walk if these lines have walks, or its label as bytes.
    /// Components have the lines of all vertices, and no walks.
    pub lines: Lines,
    /// The settings of workers.
    pub settings: Settings,
    /// The most bytes of text; a longer one is refused.
    pub limit: u64,
    /// The number of sources solved at the same time.
    pub at_once: AtOnce,
    /// The landmarks that a network is given at most, if that saves time; 0 for none.
    pub landmarks: u32,
    /// The pairs without walks for which a network is given a hierarchy.
    pub hierarchy: HierarchyUse,
    /// True if one worker works alone in a small graph.
    pub saves: bool,
    ghost within: { IsAsked answer lines limit },
}

impl Asked {
    /// The lines of all vertices. `None` if walks are asked for with components, or the limit is above 2^36 bytes.
    pub fn new(answer: Answer, settings: Settings, walks: bool, limit: u64) -> Option<Asked>
        ensures within { IsSome result ↔ IsAsked answer (lines.Each walks) limit }
        ensures answer { IfSome result (λ asked. asked.answer ≡ answer) }
        ensures lines { IfSome result (λ asked. asked.lines ≡ lines.Each walks) }
        ensures settings { IfSome result (λ asked. asked.settings ≡ settings) }
        ensures limit { IfSome result (λ asked. asked.limit ≡ limit) }
        ensures at_once { IfSome result (λ asked. asked.at_once ≡ AtOnce.Auto) }
        ensures landmarks { IfSome result (λ asked. asked.landmarks ≡ USUAL_LANDMARKS) }
        ensures hierarchy { IfSome result (λ asked. asked.hierarchy ≡ hierarchy_use.Auto) }
        ensures saves { IfSome result (λ asked. asked.saves ≡ false) }
    {
        Asked::by_lines(answer, settings, Lines::Each { walks }, limit)
    }

    /// Any lines. `None` if components are asked for walks, a bound is `INF`, or the limit is above 2^36 bytes.
    pub fn by_lines(answer: Answer, settings: Settings, lines: Lines, limit: u64) -> Option<Asked>
        ensures within { IsSome result ↔ IsAsked answer lines limit }
        ensures answer { IfSome result (λ asked. asked.answer ≡ answer) }
        ensures lines { IfSome result (λ asked. asked.lines ≡ lines) }
        ensures settings { IfSome result (λ asked. asked.settings ≡ settings) }
        ensures limit { IfSome result (λ asked. asked.limit ≡ limit) }
        ensures at_once { IfSome result (λ asked. asked.at_once ≡ AtOnce.Auto) }
        ensures landmarks { IfSome result (λ asked. asked.landmarks ≡ USUAL_LANDMARKS) }
        ensures hierarchy { IfSome result (λ asked. asked.hierarchy ≡ hierarchy_use.Auto) }
        ensures saves { IfSome result (λ asked. asked.saves ≡ false) }
    {
        if limit > MAX_BYTES || !lines.has_cost() {
            return None;
        }
        if lines.has_walks() && matches!(answer, Answer::Components) {
            return None;
        }
        Some(Asked {
            answer,
            lines,
            settings,
            limit,
            at_once: AtOnce::Auto,
            landmarks: USUAL_LANDMARKS,
            hierarchy: HierarchyUse::Auto,
            saves: false,
        })
    }

    /// Returns this for another kind of labels and other lines. Components have no walks, and a bound is a cost.
    pub fn with_answer(self, answer: Answer, lines: Lines) -> Asked
        requires within { IsAsked answer lines self.limit }
        ensures answer { result.answer ≡ answer }
        ensures lines { result.lines ≡ lines }
        ensures settings { result.settings ≡ self.settings }
        ensures limit { result.limit ≡ self.limit }
        ensures at_once { result.at_once ≡ self.at_once }
        ensures landmarks { result.landmarks ≡ self.landmarks }
        ensures hierarchy { result.hierarchy ≡ self.hierarchy }
        ensures saves { result.saves ≡ self.saves }
    {
        let mut asked = self;
        asked.answer = answer;
        asked.lines = lines;
        asked
    }

    /// Returns this with another number of sources at once.
    pub fn with_at_once(self, at_once: AtOnce) -> Asked
        ensures answer { result.answer ≡ self.answer }
        ensures lines { result.lines ≡ self.lines }
        ensures settings { result.settings ≡ self.settings }
        ensures limit { result.limit ≡ self.limit }
        ensures at_once { result.at_once ≡ at_once }
        ensures landmarks { result.landmarks ≡ self.landmarks }
        ensures hierarchy { result.hierarchy ≡ self.hierarchy }
        ensures saves { result.saves ≡ self.saves }
    {
        let mut asked = self;
        asked.at_once = at_once;
        asked
    }

    /// Returns this with at most so many landmarks.
    pub fn with_landmarks(self, landmarks: u32) -> Asked
        ensures answer { result.answer ≡ self.answer }
        ensures lines { result.lines ≡ self.lines }
        ensures settings { result.settings ≡ self.settings }
        ensures limit { result.limit ≡ self.limit }
        ensures at_once { result.at_once ≡ self.at_once }
        ensures landmarks { result.landmarks ≡ landmarks }
        ensures hierarchy { result.hierarchy ≡ self.hierarchy }
        ensures saves { result.saves ≡ self.saves }
    {
        let mut asked = self;
        asked.landmarks = landmarks;
        asked
    }

    /// Returns this with a hierarchy for other pairs, or for none.
    pub fn with_hierarchy(self, hierarchy: HierarchyUse) -> Asked
        ensures answer { result.answer ≡ self.answer }
        ensures lines { result.lines ≡ self.lines }
        ensures settings { result.settings ≡ self.settings }
        ensures limit { result.limit ≡ self.limit }
        ensures at_once { result.at_once ≡ self.at_once }
        ensures landmarks { result.landmarks ≡ self.landmarks }
        ensures hierarchy { result.hierarchy ≡ hierarchy }
        ensures saves { result.saves ≡ self.saves }
    {
        let mut asked = self;
        asked.hierarchy = hierarchy;
        asked
    }

    /// Returns this with other settings.
    pub fn with_settings(self, settings: Settings) -> Asked
        ensures answer { result.answer ≡ self.answer }
        ensures lines { result.lines ≡ self.lines }
        ensures settings { result.settings ≡ settings }
        ensures limit { result.limit ≡ self.limit }
        ensures at_once { result.at_once ≡ self.at_once }
        ensures landmarks { result.landmarks ≡ self.landmarks }
        ensures hierarchy { result.hierarchy ≡ self.hierarchy }
        ensures saves { result.saves ≡ self.saves }
    {
        let mut asked = self;
        asked.settings = settings;
        asked
    }

    /// Returns this with one worker alone in a small graph, or all in every graph.
    pub fn with_saving(self, saves: bool) -> Asked
        ensures answer { result.answer ≡ self.answer }
        ensures lines { result.lines ≡ self.lines }
        ensures settings { result.settings ≡ self.settings }
        ensures limit { result.limit ≡ self.limit }
        ensures at_once { result.at_once ≡ self.at_once }
        ensures landmarks { result.landmarks ≡ self.landmarks }
        ensures hierarchy { result.hierarchy ≡ self.hierarchy }
        ensures saves { result.saves ≡ saves }
    {
        let mut asked = self;
        asked.saves = saves;
        asked
    }
}
