//! The stages of a reader, and the lines that can come there.

ghost use Rattle.std.specs.Prelude.{ℕ, ◌≡◌, IfSome};

use crate::fault::LineKind;
use crate::form::{Form, Section};

/// The stage of the reader after the lines so far.
#[derive(Clone, Copy, Debug, PartialEq, Eq)]
pub enum Stage {
    /// Before the problem line.
    Start,
    /// A section, with the number of items that are still to come.
    Within { section: Section, missing: u32 },
}

impl Stage {
    ghost use Rattle.dimacs_text.specs.reader.Machine.{can_come, lines_missing, misfit_at, one_less, phase_of};
    ghost use Rattle.dimacs_text.specs.reader.Requests.{is_request_at, is_section_at};

    /// Tells if a line of the form can come here with some counts.
    pub fn can_come(self, form: Form) -> bool
        ensures { result ≡ can_come (phase_of self) form }
    {
        match (self, form) {
            (Stage::Start, Form::Head(next)) => next.place() == 0,
            (Stage::Start, Form::Counted(_)) => false,
            (Stage::Within { section, .. }, Form::Head(next)) => section.may_be_followed(next),
            (Stage::Within { section, .. }, Form::Counted(item)) => section.item() == item,
        }
    }

    /// Returns the kind of what is wrong with a line of the form here, if something is.
    pub fn misfit(self, form: Form) -> Option<LineKind>
        ensures { result ≡ misfit_at self form }
    {
        if !self.can_come(form) {
            return Some(LineKind::Misplaced);
        }
        match (self, form) {
            (Stage::Within { missing: 0, .. }, Form::Counted(_)) => Some(LineKind::TooMany),
            (Stage::Within { missing: 0, .. }, Form::Head(_)) => None,
            (Stage::Within { .. }, Form::Counted(_)) => None,
            (Stage::Within { .. }, Form::Head(_)) => Some(LineKind::TooFew),
            (Stage::Start, Form::Counted(_)) => Some(LineKind::TooMany),
            (Stage::Start, Form::Head(_)) => None,
        }
    }

    /// The number of arcs that are missing, if arcs come next.
    pub fn missing_arcs(self) -> Option<u32>
        ensures some { IfSome result (λ missing. self ≡ Stage.Within Section.Problem missing) }
        ensures told { (missing : ℕ) → self ≡ Stage.Within Section.Problem missing → result ≡ Some missing }
    {
        match self {
            Stage::Within {
                section: Section::Problem,
                missing,
            } => Some(missing),
            _ => None,
        }
    }

    /// The number of lines that have to come at least before the graph is whole, and 0 after it.
    pub fn missing_lines(self) -> usize
        ensures { result ≡ lines_missing self }
    {
        match self {
            Stage::Start => 1,
            Stage::Within { section, missing } => match section {
                Section::Problem => missing as usize,
                Section::Sources => 0,
                Section::Pairs => 0,
                Section::Added => 0,
            },
        }
    }

    /// Tells if a section after the graph has begun.
    pub fn is_in_section(self) -> bool
        ensures { result ≡ is_section_at self }
    {
        match self {
            Stage::Start => false,
            Stage::Within { section, .. } => match section {
                Section::Problem => false,
                Section::Sources => true,
                Section::Pairs => true,
                Section::Added => true,
            },
        }
    }

    /// Tells if a section after the graph is complete.
    pub fn is_request(self) -> bool
        ensures { result ≡ is_request_at self }
    {
        match self {
            Stage::Start => false,
            Stage::Within { section, missing } => match section {
                Section::Problem => false,
                Section::Sources => missing == 0,
                Section::Pairs => missing == 0,
                Section::Added => missing == 0,
            },
        }
    }

    /// The stage after an item.
    pub fn one_less(self) -> Stage
        ensures { result ≡ one_less self }
    {
        match self {
            Stage::Start => Stage::Start,
            Stage::Within { section, missing } => Stage::Within {
                section,
                missing: missing.saturating_sub(1),
            },
        }
    }
}
