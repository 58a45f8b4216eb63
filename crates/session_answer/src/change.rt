//! The change of a graph that a request asks for: arcs that are removed, and then arcs that are added.

ghost use Rattle.std.specs.Prelude.{◌≡◌, ◌≤◌, ◌^◌, ◌++◌, List, None, length, map, IfOk, IfSome, IsTrue, ◌↔◌};
ghost use Rattle.route_walks.specs.declared.graph.ArcRec.{ArcRec};
ghost use Rattle.dimacs_text.specs.Jobs.{Content, added_of, question_of};
ghost use Rattle.session_answer.specs.Changes.{arcs_left, change_by, change_seen, change_text};
ghost use Rattle.csr_graph.specs.Changes.{without};
ghost use Rattle.session_answer.specs.Changes.{ends_of, pairs_of, question_by, with_added};

use answer_lines::{put_grown, put_removed};
use dimacs_text::{Ask, HeadForm};
use route_walks::{ArcRec, Memory};
use std::alloc::Global;

/// A change of a graph.
#[derive(Drop)]
pub(crate) struct Change {
    /// The pairs of vertices between which arcs are removed, if some are.
    removed: Option<Vec<(u32, u32)>>,
    /// The arcs that are then added, if some are.
    added: Option<Vec<ArcRec>>,
}

impl Change {
    /// Returns the change that a request of this form asks for, and its question.
    pub(crate) fn of(
        alloc: Global,
        form: HeadForm,
        ask: Ask,
        added: Option<Vec<ArcRec>>,
    ) -> Result<(Change, Ask), Memory>
        ensures change { (job : Content) → job.question ≡ question_of ask → job.added ≡ added_of added
            → IfOk result (λ both. change_seen both.0 ≡ change_by form job) }
        ensures question { IfOk result (λ both. question_of both.1 ≡ question_by form (question_of ask)) }
    {
        match form {
            HeadForm::Removed => {
                let removed = Some(pairs_of(alloc, ask));
                Ok((Change { removed, added }, Ask::Absent))
            }
            HeadForm::Replaced => {
                let removed = Some(ends_of(alloc, &added)?);
                Ok((Change { removed, added }, ask))
            }
            HeadForm::Listed => {
                let (removed, added) = (None, None);
                Ok((Change { removed, added }, Ask::Absent))
            }
            _ => {
                let removed = None;
                Ok((Change { removed, added }, ask))
            }
        }
    }

    /// Tells if no arc is removed or added.
    pub(crate) fn is_none(&self) -> bool
        ensures { IsTrue result ↔ (change_seen self.now ≡ record { removed = None; added = None }) }
    {
        self.removed.is_none() && self.added.is_none()
    }

    /// Returns the pairs between which arcs are removed.
    pub(crate) fn removed(&self) -> &[(u32, u32)]
        ensures { (arcs : List ArcRec) → arcs_left (change_seen self.now).removed arcs ≡ without result.now arcs }
    {
        match &self.removed {
            None => &[],
            Some(pairs) => pairs,
        }
    }

    /// Returns the arcs that are added.
    pub(crate) fn added(&self) -> &[ArcRec]
        ensures arcs { (arcs : List ArcRec) → with_added arcs (change_seen self.now).added ≡ arcs ++ result.now }
        ensures few { IfSome (change_seen self.now).added (λ arcs. length arcs ≤ 2 ^ 20) → length result.now ≤ 2 ^ 20 }
    {
        match &self.added {
            None => &[],
            Some(arcs) => arcs,
        }
    }

    /// Returns the lines that say how many arcs were removed and added, by the numbers of arcs before and after.
    pub(crate) fn text(&self, alloc: Global, before: usize, after: usize) -> Result<Vec<u8>, Memory>
        requires added { IfSome (change_seen self.now).added (λ arcs. length arcs ≤ 2 ^ 20) }
        ensures { (arcs : List ArcRec) → before ≡ length arcs
            → after ≡ length (with_added (arcs_left (change_seen self.now).removed arcs) (change_seen self.now).added)
            → IfOk result (λ text. text.items ≡ change_text (change_seen self.now) arcs) }
    {
        let mut text = Vec::new(alloc);
        let added = self.added().len();
        if self.removed.is_some() {
            let left = after.saturating_sub(added);
            put_removed(&mut text, before.saturating_sub(left) as u64)?;
        }
        if self.added.is_some() {
            put_grown(&mut text, added as u32)?;
        }
        Ok(text)
    }
}

/// Returns the pairs of a question.
pub(crate) fn pairs_of(alloc: Global, ask: Ask) -> Vec<(u32, u32)>
    ensures { result.items ≡ pairs_of (question_of ask) }
{
    match ask {
        Ask::Pairs(pairs) => pairs,
        _ => Vec::new(alloc),
    }
}

/// Returns the ends of each arc.
fn ends_of(alloc: Global, added: &Option<Vec<ArcRec>>) -> Result<Vec<(u32, u32)>, Memory>
    ensures { IfOk result (λ ends. ends.items ≡ ends_of (added_of added.now)) }
{
    match added {
        None => Ok(Vec::new(alloc)),
        Some(arcs) => ends_of_all(alloc, arcs),
    }
}

/// Returns the ends of each of some arcs.
fn ends_of_all(alloc: Global, arcs: &[ArcRec]) -> Result<Vec<(u32, u32)>, Memory>
    ensures { IfOk result (λ ends. ends.items ≡ map (λ arc. (arc.tail, arc.head)) arcs.now) }
{
    let ends = arcs.iter().map(|arc| (arc.tail, arc.head));
    Ok(ends.collect(alloc)?)
}
