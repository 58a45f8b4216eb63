//! A run, and what its workers share.

ghost use Rattle.std.specs.Prelude.{◌≡◌, ◌≤◌, None};
ghost use Rattle.obim_engine.specs.declared.settings.TheConstants.{MAX_SHIFT};

use crate::goal::Goal;
use crate::hints::pace::Pace;
use crate::settings::Setup;
use csr_graph::Csr;
use label_words::Words;

/// A run. Without a budget it goes on until it has the wanted labels.
#[derive(Drop)]
pub(crate) struct Run<'a, P, G> {
    pub csr: &'a Csr,
    pub pool: &'a P,
    pub gate: &'a G,
    pub shift: u32,
    /// The visits of each worker, if there is a limit.
    pub budget: Option<u64>,
    pub goal: Goal<'a>,
    ghost within: { shift ≤ MAX_SHIFT },
}

impl<'a, P, G> Run<'a, P, G> {
    pub(crate) fn of(csr: &'a Csr, goal: Goal<'a>, setup: &Setup<'a, P, G>) -> Run<'a, P, G>
        ensures csr { result.csr.now ≡ csr.now }
        ensures pool { result.pool.now ≡ setup.now.pool.now }
        ensures budget { result.budget ≡ None }
        ensures goal { result.goal ≡ goal.entry }
    {
        Run {
            csr,
            pool: setup.pool,
            gate: setup.gate,
            shift: setup.settings.shift(),
            budget: None,
            goal,
        }
    }

    /// A run to its end, or as far as the budget goes.
    pub(crate) fn whole(csr: &'a Csr, setup: &Setup<'a, P, G>, budget: Option<u64>) -> Run<'a, P, G>
        ensures csr { result.csr.now ≡ csr.now }
        ensures pool { result.pool.now ≡ setup.now.pool.now }
        ensures budget { result.budget ≡ budget }
        ensures goal { result.goal ≡ Goal.EachVertex }
    {
        Run {
            csr,
            pool: setup.pool,
            gate: setup.gate,
            shift: setup.settings.shift(),
            budget,
            goal: Goal::EachVertex,
        }
    }

    /// A copy, so that its fields can lie in registers.
    #[inline(always)]
    pub(crate) fn again(&self) -> Run<'a, P, G>
        ensures csr { result.csr.now ≡ self.now.csr.now }
        ensures pool { result.pool.now ≡ self.now.pool.now }
        ensures budget { result.budget ≡ self.now.budget }
        ensures goal { result.goal ≡ self.now.goal }
    {
        Run {
            csr: self.csr,
            pool: self.pool,
            gate: self.gate,
            shift: self.shift,
            budget: self.budget,
            goal: self.goal,
        }
    }

    pub(crate) fn to_end(&self) -> Run<'a, P, G>
        ensures csr { result.csr.now ≡ self.now.csr.now }
        ensures pool { result.pool.now ≡ self.now.pool.now }
        ensures budget { result.budget ≡ None }
        ensures goal { result.goal ≡ Goal.EachVertex }
    {
        Run {
            csr: self.csr,
            pool: self.pool,
            gate: self.gate,
            shift: self.shift,
            budget: None,
            goal: Goal::EachVertex,
        }
    }

    #[inline(always)]
    pub(crate) fn metric_of(&self, label: u64) -> u64 {
        label >> self.shift
    }
}

/// All that the workers of a run share.
#[derive(Drop)]
pub(crate) struct Shared<'a, P, G> {
    pub run: Run<'a, P, G>,
    pub words: &'a Words,
    pub pace: &'a Pace,
}

impl<'a, P, G> Shared<'a, P, G> {
    /// A copy, so that its fields can lie in registers.
    #[inline(always)]
    pub(crate) fn again(&self) -> Shared<'a, P, G>
        ensures csr { result.run.csr.now ≡ self.now.run.csr.now }
        ensures pool { result.run.pool.now ≡ self.now.run.pool.now }
        ensures budget { result.run.budget ≡ self.now.run.budget }
        ensures goal { result.run.goal ≡ self.now.run.goal }
        ensures words { result.words.now ≡ self.now.words.now }
    {
        Shared {
            run: self.run.again(),
            words: self.words,
            pace: self.pace,
        }
    }
}
