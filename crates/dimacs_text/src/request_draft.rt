//! The lines of one request, as far as they are read.
//!
//! A request follows a graph: a section of sources, of pairs, of walks or of added arcs. It is read as the lines of a
//! job that follow the problem line of a graph without arcs.

ghost use Rattle.std.specs.Prelude.{◌≡◌, ◌+◌, ◌++◌, ◌∷◌, [], ℕ, List, true, false, length, OnOk, IfErr};
ghost use Rattle.dimacs_text.specs.Jobs.{content_of, Content};
ghost use Rattle.dimacs_text.specs.Faults.{IsFirstAmong};
ghost use Rattle.dimacs_text.specs.AfterGraph.{after_graph, AreSilent, IsFaultAfter, IsWhole};
ghost use Rattle.dimacs_text.specs.reader.Drafts.{progress_of};
ghost use Rattle.dimacs_text.specs.reader.Requests.{IsWrongAfter, ReadsAfter};
ghost use Rattle.dimacs_text.specs.RequestDrafts.{HasReadAfter, is_whole};

use crate::after_graph::read_line_after;
use crate::draft::Draft;
use crate::fault::{LineKind, TextFault};
use crate::job::Job;
use std::alloc::Global;

/// The lines of one request, as far as they are read.
#[derive(Debug, Drop)]
pub struct RequestDraft {
    draft: Draft,
}

/// Reads a line that follows a graph, whose number is given.
fn read_after(draft: &mut Draft, text: &[u8], line: u64) -> Result<(), TextFault>
    ensures reads { OnOk result (ReadsAfter (progress_of draft.old) (progress_of draft.new) text.now) }
    ensures fault { IfErr result (IsWrongAfter (progress_of draft.old) text.now line) }
{
    match read_line_after(text, draft.vertices) {
        Err(kind) => Err(TextFault::Line { line, kind }),
        Ok(None) => Ok(()),
        Ok(Some(entry)) => match draft.stage.misfit(entry.form()) {
            Some(kind) => Err(TextFault::Line { line, kind }),
            None => match draft.take(entry, line) {
                Ok(()) => Ok(()),
                Err(_) => Err(TextFault::Memory),
            },
        },
    }
}

impl RequestDraft {
    /// Makes a draft after a graph of this many vertices, for which no line is read yet.
    pub fn new(alloc: Global, vertices: u32) -> RequestDraft
        ensures read { HasReadAfter vertices [] result }
        ensures begun { is_whole result ≡ false }
    {
        RequestDraft {
            draft: Draft::after_graph(alloc, vertices),
        }
    }

    /// Reads the next line, without its line feed, which has this number. It is refused if it is wrong whatever follows,
    /// or if memory is refused.
    pub fn read(&mut self, text: &[u8], line: u64) -> Result<(), TextFault>
        ensures reads { (n : ℕ) (ls : List (List ℕ)) → HasReadAfter n ls self.old
            → OnOk result (HasReadAfter n (ls ++ text.now ∷ []) self.new) }
        ensures fault { (n : ℕ) (ls : List (List ℕ)) → HasReadAfter n ls self.old
            → IfErr result (IsFaultAfter n ls text.now line) }
    {
        read_after(&mut self.draft, text, line)
    }

    /// Tells if the lines are a whole request: a section was read to its end.
    pub fn is_whole(&self) -> bool
        ensures is { result ≡ is_whole self.now }
        // The lines of a whole request leave no doubt.
        ensures whole { (n : ℕ) (ls : List (List ℕ)) (job : Content) → HasReadAfter n ls self.now
            → IsWhole n ls job → result ≡ true }
    {
        self.draft.stage.is_request()
    }

    /// Tells if a section has begun that lacks lines.
    pub fn is_short(&self) -> bool
        // If the lines end there, that is what is wrong.
        ensures short { (n : ℕ) (ls : List (List ℕ)) → HasReadAfter n ls self.now → result ≡ true
            → IsFirstAmong (after_graph n ls) (length ls + 2) LineKind.TooFew }
        // If none has begun, the lines say nothing.
        ensures silent { (n : ℕ) (ls : List (List ℕ)) → HasReadAfter n ls self.now → result ≡ false
            → is_whole self.now ≡ false → AreSilent n ls }
    {
        self.draft.stage.is_in_section() && !self.draft.stage.is_request()
    }

    /// The job of a whole request: its graph has no arcs.
    pub fn finish(self) -> Job
        requires { is_whole self ≡ true }
        ensures { (n : ℕ) (ls : List (List ℕ)) → HasReadAfter n ls self → IsWhole n ls (content_of result) }
    {
        self.draft.into_job()
    }
}
