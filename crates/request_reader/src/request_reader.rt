//! The way from the lines after a graph to the requests in them.

ghost use Rattle.std.specs.Prelude.{◌≡◌, ◌≤◌, ◌&&◌, ◌++◌, ◌∷◌, [], ℕ, List, true, false, IfNone, IfSome};
ghost use Rattle.route_walks.specs.declared.graph.TheConstants.{MAX_VERTICES};
ghost use Rattle.dimacs_text.specs.AfterGraph.{head_of};
ghost use Rattle.dimacs_text.specs.Heads.{begins_section};
ghost use Rattle.dimacs_text.specs.Lines.{begins_comment};
ghost use Rattle.dimacs_text.specs.RequestDrafts.{HasReadAfter, is_whole};
ghost use Rattle.request_reader.specs.Requests.{AreRequests, AreShort, Outcome, no_memory};
ghost use Rattle.request_reader.specs.Reading.{outcomes_in, outcomes_of, vertices_of, HasReadBefore, HasRequests};
ghost use Rattle.request_reader.specs.Reading.{last_of, IsAskedWithin, IsRefusable, IsRefusedLast};

use crate::request::{LineEvents, Request};
use dimacs_text::{LineKind, RequestDraft, SectionHead, TextFault, begins_section};
use std::alloc::Global;
use std::mem::replace;

/// A reader of the requests that follow a graph, line by line.
#[derive(Debug, Drop)]
pub struct RequestReader {
    draft: RequestDraft,
    /// The number to which vertices count.
    vertices: u32,
    /// The number of the next line.
    line: u64,
    /// True if the section line of the request has come.
    has_section: bool,
    /// The head that it is.
    head: Option<SectionHead>,
    /// True if the request was refused. Then its other lines are skipped.
    is_refused: bool,
    /// The number of the last line with which a request was whole.
    last: u64,
    /// True if that request had its section line.
    had_section: bool,
    alloc: Global,
}

/// The head that a line is, or `None` if it is no section line.
fn head_by(line: &[u8], begins: bool) -> Option<SectionHead>
    requires begins { begins ≡ begins_section line.now }
    ensures { result ≡ head_of line.now }
{
    if begins { SectionHead::of(line) } else { None }
}

impl RequestReader {
    /// Makes a reader after a graph of this many vertices. The next line has this number.
    pub fn new(alloc: Global, vertices: u32, line: u64) -> RequestReader
        ensures requests { HasRequests result line [] [] }
        ensures vertices { vertices_of result ≡ vertices }
    {
        RequestReader {
            draft: RequestDraft::new(alloc, vertices),
            vertices,
            line,
            has_section: false,
            head: None,
            is_refused: false,
            last: line,
            had_section: false,
            alloc,
        }
    }

    /// Reads the next line, without its line feed, and returns its outcome.
    pub fn read(&mut self, line: &[u8]) -> LineEvents
        ensures requests { (first : ℕ) (all : List (List ℕ)) (outcomes : List Outcome)
            → HasRequests self.old first all outcomes
            → HasRequests self.new first (all ++ line.now ∷ []) (outcomes ++ outcomes_of result) }
        ensures vertices { vertices_of self.new ≡ vertices_of self.old }
        // What a request asks keeps the limits.
        ensures within { (first : ℕ) (all : List (List ℕ)) (outcomes : List Outcome)
            → HasRequests self.old first all outcomes → vertices_of self.old ≤ MAX_VERTICES
            → IfSome result.completed (IsAskedWithin (vertices_of self.old)) }
        // A request that is whole with the line can still be refused.
        ensures refusable { (first : ℕ) (all : List (List ℕ)) (outcomes : List Outcome)
            → HasRequests self.old first all outcomes
            → IfSome result.completed (IsRefusable self.new first (all ++ line.now ∷ [])
            (outcomes ++ outcomes_in result.ended)) }
        // What ends before the line asks nothing.
        ensures within_ended { IfSome result.ended (IsAskedWithin (vertices_of self.old)) }
    {
        let begins = begins_section(line);
        let ended = self.end(begins);
        let completed = self.take(line, begins);
        LineEvents { ended, completed }
    }

    /// Ends the request if the next line is a second section line in it. Returns what is wrong with it, if it wasn't
    /// refused before.
    fn end(&mut self, begins: bool) -> Option<Request>
        ensures requests { (first : ℕ) (all : List (List ℕ)) (line : List ℕ) (outcomes : List Outcome)
            → HasRequests self.old first all outcomes → begins ≡ begins_section line
            → HasReadBefore self.new first all (line ∷ []) (outcomes ++ outcomes_in result) }
        ensures first { (self.new.has_section && begins) ≡ false }
        ensures within { IfSome result (IsAskedWithin (vertices_of self.old)) }
        ensures vertices { vertices_of self.new ≡ vertices_of self.old }
    {
        if !begins {
            return None;
        }
        if !self.has_section {
            return None;
        }
        let was_refused = self.is_refused;
        let lacks = self.draft.is_short();
        self.begin();
        if was_refused {
            return None;
        }
        if !lacks {
            return None;
        }
        Some(Request::Wrong {
            line: self.line,
            kind: LineKind::TooFew,
        })
    }

    /// Begins the next request, and gives what was read of the one before.
    fn begin(&mut self) -> RequestDraft
        ensures before { result ≡ self.old.draft }
        ensures draft { HasReadAfter self.old.vertices [] self.new.draft }
        ensures lacking { is_whole self.new.draft ≡ false }
        ensures section { self.new.has_section ≡ false }
        ensures head { self.new.head ≡ None }
        ensures refused { self.new.is_refused ≡ false }
        ensures vertices { self.new.vertices ≡ self.old.vertices }
        ensures line { self.new.line ≡ self.old.line }
        ensures last { self.new.last ≡ self.old.last }
        ensures had_section { self.new.had_section ≡ self.old.had_section }
    {
        self.has_section = false;
        self.head = None;
        self.is_refused = false;
        let next = RequestDraft::new(self.alloc, self.vertices);
        replace(&mut self.draft, next)
    }

    /// Reads the next line, which is no second section line of the request.
    fn take(&mut self, line: &[u8], begins: bool) -> Option<Request>
        requires begins { begins ≡ begins_section line.now }
        requires first { (self.old.has_section && begins) ≡ false }
        ensures requests { (first : ℕ) (all : List (List ℕ)) (outcomes : List Outcome)
            → HasReadBefore self.old first all (line.now ∷ []) outcomes
            → HasRequests self.new first (all ++ line.now ∷ []) (outcomes ++ outcomes_in result) }
        ensures vertices { vertices_of self.new ≡ vertices_of self.old }
        ensures within { (first : ℕ) (all : List (List ℕ)) (outcomes : List Outcome)
            → HasReadBefore self.old first all (line.now ∷ []) outcomes → vertices_of self.old ≤ MAX_VERTICES
            → IfSome result (IsAskedWithin (vertices_of self.old)) }
        ensures refusable { (first : ℕ) (all : List (List ℕ)) (outcomes : List Outcome)
            → HasReadBefore self.old first all (line.now ∷ []) outcomes
            → IfSome result (IsRefusable self.new first (all ++ line.now ∷ []) outcomes) }
    {
        let number = self.line;
        self.line = number.saturating_add(1);
        self.has_section |= begins;
        self.head = self.head.or(head_by(line, begins));
        if self.is_refused {
            return None;
        }
        match self.draft.read(line, number) {
            Err(TextFault::Memory) => {
                self.is_refused = true;
                Some(Request::NoMemory { line: number })
            }
            Err(TextFault::Line { line, kind }) => {
                self.is_refused = true;
                Some(Request::Wrong { line, kind })
            }
            Ok(()) if self.draft.is_whole() => {
                let head = SectionHead::or_plain(self.head);
                self.last = number;
                self.had_section = self.has_section;
                let draft = self.begin();
                Some(Request::Asked {
                    line: number,
                    job: draft.finish(),
                    head,
                })
            }
            Ok(()) => None,
        }
    }

    /// Passes by a line that is a comment, which says nothing: its bytes need not be kept until its end has come.
    pub fn pass_comment(&mut self)
        ensures requests { (first : ℕ) (all : List (List ℕ)) (outcomes : List Outcome) (line : List ℕ)
            → HasRequests self.old first all outcomes → begins_comment line ≡ true
            → HasRequests self.new first (all ++ line ∷ []) outcomes }
        ensures vertices { vertices_of self.new ≡ vertices_of self.old }
    {
        self.line = self.line.saturating_add(1);
    }

    /// Refuses the request that was whole with the last line, for want of memory, and gives the number of that line.
    /// What follows up to the next section line is skipped.
    pub fn refuse(&mut self) -> u64
        ensures line { result ≡ last_of self.old }
        ensures refused { (first : ℕ) (all : List (List ℕ)) (outcomes : List Outcome)
            → IsRefusedLast self.old first all outcomes
            → HasRequests self.new first all (outcomes ++ no_memory (last_of self.old) ∷ []) }
        ensures vertices { vertices_of self.new ≡ vertices_of self.old }
    {
        self.has_section = self.had_section;
        self.is_refused = true;
        self.last
    }

    /// The number of the line one past the last, if a request was begun that lacks lines.
    pub fn lacking(&self) -> Option<u64>
        ensures none { (first : ℕ) (all : List (List ℕ)) (outcomes : List Outcome)
            → HasRequests self.now first all outcomes
            → IfNone result (AreRequests (vertices_of self.now) first all outcomes) }
        ensures some { (first : ℕ) (all : List (List ℕ)) (outcomes : List Outcome)
            → HasRequests self.now first all outcomes
            → IfSome result (AreShort (vertices_of self.now) first all outcomes) }
    {
        if self.is_refused {
            return None;
        }
        if !self.draft.is_short() {
            return None;
        }
        Some(self.line)
    }
}
