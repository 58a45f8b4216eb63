//! The state of a run, and how it opens.

ghost use Rattle.std.specs.Prelude.{◌≡◌, ◌<◌, ◌≤◌, ℕ, false, length, count_by};
ghost use Rattle.std.specs.Prelude.{slice_index, slice_set, min, IfOk, All};
ghost use Rattle.route_walks.specs.Walk.{AreSeeds};
ghost use Rattle.route_walks.specs.declared.graph.TheConstants.{MAX_VERTICES};
ghost use Rattle.relax_core.specs.State.{IsLawful, IsOpening, IsOf, IsStarted, mark_of};

use crate::views::{SHARES, View};
use csr_graph::Csr;
use route_walks::{INF, Memory, Seed};
use std::alloc::Global;
use std::marker::Model;

/// The state of a run.
#[derive(Debug, Drop)]
pub struct Core {
    pub(crate) labels: Vec<u64>,
    pub(crate) marks: Vec<bool>,
    pub(crate) total: u64,
    pub(crate) views: Vec<View>,
}

impl Model for Core {
    ghost use Rattle.relax_core.specs.State.{State};

    ghost Value = { State };

    ghost view = { λ a. record {
      labels = a.labels.items;
      marks = a.marks.items;
      total = a.total;
      views = a.views.items;
    } };
}

impl Core {
    /// The label of a vertex, or `INF` if no walk was found yet.
    pub fn label(&self, v: u32) -> u64
        requires { v < length self.now.labels }
        ensures { result ≡ slice_index self.now.labels v }
    {
        self.labels[v as usize]
    }

    /// Tells if the arcs of a vertex are to be relaxed again.
    pub fn mark(&self, v: u32) -> bool
        requires { v < length self.now.marks }
        ensures { result ≡ mark_of self.now.marks v }
    {
        self.marks[v as usize]
    }

    /// The number of marks and all credits in hands.
    pub fn pending(&self) -> u64
        ensures { result ≡ self.now.total }
    {
        self.total
    }

    /// The view of each seat, spent ones too.
    pub fn views(&self) -> &[View]
        ensures { result.now ≡ self.now.views }
    {
        &self.views
    }
}

/// Returns the core that a run begins with: seeded vertices have their least start and a mark, and one idle seat has
/// all shares. A start may be any number.
pub fn open_core(alloc: Global, csr: &Csr, seeds: &[Seed]) -> Result<Core, Memory>
    requires { AreSeeds csr.now.n seeds.now }
    ensures opening { IfOk result (λ core. IsOpening csr.now seeds.now core) }
    ensures lawful { IfOk result (λ core. IsLawful csr.now seeds.now core) }
    ensures belongs { IfOk result (λ core. IsOf csr.now core) }
{
    let n = csr.n() as usize;
    let mut labels = vec![in alloc; INF; n]?;
    let mut marks = vec![in alloc; false; n]?;
    let views = vec![in alloc; View::idle(SHARES)]?;
    start(&mut labels, &mut marks, seeds);
    let total = count_marks(&marks);
    Ok(Core {
        labels,
        marks,
        total,
        views,
    })
}

/// Gives each seeded vertex its least start and a mark.
fn start(labels: &mut [u64], marks: &mut [bool], seeds: &[Seed])
    requires lengths { length labels.old ≡ length marks.old }
    requires seeds { AreSeeds (length labels.old) seeds.now }
    requires none { All (λ label. label ≡ INF) labels.old }
    requires unmarked { All (λ mark. mark ≡ false) marks.old }
    ensures { IsStarted labels.new marks.new seeds.now }
{
    for seed in seeds {
        let v = seed.vertex as usize;
        labels[v] = labels[v].min(seed.start);
        marks[v] = true;
    }
}

fn count_marks(marks: &[bool]) -> u64
    requires { length marks.now ≤ MAX_VERTICES }
    ensures { result ≡ count_by (λ mark. mark) marks.now }
{
    marks.iter().filter(|mark| **mark).count() as u64
}
