//! The heads of the sections that can follow a graph: `p aux sp`, words, a form, and numbers.
//!
//! A first word names the kind of labels, a second the lines of the answer. Either can be left out. The head of a job's
//! section has no words.

ghost use Rattle.std.specs.Prelude.{◌≡◌, MatchOption, None, Some, false, true};
ghost use Rattle.dimacs_text.specs.Lines.{fields, without_cr};
ghost use Rattle.dimacs_text.specs.Heads.{after_front, begins_section, fits, form_word, front, head_in, kind_word};
ghost use Rattle.dimacs_text.specs.Heads.{lines_word, section_of, word_in};
ghost use Rattle.dimacs_text.specs.reader.Entries.{fields_of};

use crate::form::{Section, strip_leading};
use crate::line::{next_field, trim_cr};

/// The kind of labels that a head names.
#[derive(Clone, Copy, Debug, PartialEq, Eq)]
pub enum HeadKind {
    /// The word `distances`: least costs.
    Distances,
    /// The word `levels`: least numbers of arcs.
    Levels,
    /// The word `components`: the smallest vertex of each weak component.
    Components,
}

/// The lines of an answer that a head names.
#[derive(Clone, Copy, Debug, PartialEq, Eq)]
pub enum HeadLines {
    /// The word `each`: a line a vertex or pair, without its walk.
    Each,
    /// The word `walks`: a line a vertex or pair, with its walk.
    Walks,
    /// The word `raw`: eight bytes a vertex or pair.
    Raw,
    /// The word `totals`: a line a source.
    Totals,
}

/// The form of a section, by which its numbers and its items are read.
#[derive(Clone, Copy, Debug, PartialEq, Eq)]
pub enum HeadForm {
    /// `ss K`: K sources.
    Sources,
    /// `within COST K`: K sources, and of each the vertices that cost at most COST.
    Within,
    /// `p2p K`: K pairs.
    Pairs,
    /// `walk K`: K pairs whose walks are asked for.
    Walk,
    /// `add K`: K arcs that are added to the graph.
    Added,
    /// `cut K`: K pairs, between which all arcs are removed.
    Removed,
    /// `set K`: K arcs, which replace those between the same two vertices.
    Replaced,
    /// `arcs K`: K pairs, between which the arcs are asked for.
    Listed,
}

/// The head of a section that can follow a graph.
#[derive(Clone, Copy, Debug, PartialEq, Eq)]
pub struct SectionHead {
    /// The kind that it names. `None` is that of the session.
    pub kind: Option<HeadKind>,
    /// The lines that it names. `None` are those of the session.
    pub lines: Option<HeadLines>,
    pub form: HeadForm,
    /// The bound on costs, less than `INF`, of a section within a bound.
    pub bound: Option<u64>,
}

impl HeadForm {
    /// Returns the section of a job as which one of this form is read.
    pub fn section(self) -> Section
        ensures { result ≡ section_of self }
    {
        match self {
            HeadForm::Sources => Section::Sources,
            HeadForm::Within => Section::Sources,
            HeadForm::Pairs => Section::Pairs,
            HeadForm::Walk => Section::Pairs,
            HeadForm::Added => Section::Added,
            HeadForm::Removed => Section::Pairs,
            HeadForm::Replaced => Section::Added,
            HeadForm::Listed => Section::Pairs,
        }
    }
}

/// The fields with which each of the heads begins.
fn front() -> &'static [&'static [u8]]
    ensures { fields_of result.now ≡ front }
{
    &[b"p", b"aux", b"sp"]
}

/// Returns what follows the first three fields, if a line begins as a head does.
pub fn strip_front(line: &[u8]) -> Option<&[u8]>
    ensures { MatchOption result (begins_section line.now ≡ false)
        (λ rest. (begins_section line.now ≡ true) × (fields rest.now ≡ after_front line.now)) }
{
    strip_leading(trim_cr(line), front())
}

/// Tells if a line is a section line: it begins with the fields `p`, `aux` and `sp`.
pub fn begins_section(line: &[u8]) -> bool
    ensures { result ≡ begins_section line.now }
{
    strip_front(line).is_some()
}

/// Returns the kind that a word names.
fn kind_word(field: &[u8]) -> Option<HeadKind>
    ensures { result ≡ kind_word field.now }
{
    if field == b"distances".as_slice() {
        return Some(HeadKind::Distances);
    }
    if field == b"levels".as_slice() {
        return Some(HeadKind::Levels);
    }
    if field == b"components".as_slice() {
        return Some(HeadKind::Components);
    }
    None
}

/// Returns the lines that a word names.
fn lines_word(field: &[u8]) -> Option<HeadLines>
    ensures { result ≡ lines_word field.now }
{
    if field == b"each".as_slice() {
        return Some(HeadLines::Each);
    }
    if field == b"walks".as_slice() {
        return Some(HeadLines::Walks);
    }
    if field == b"raw".as_slice() {
        return Some(HeadLines::Raw);
    }
    if field == b"totals".as_slice() {
        return Some(HeadLines::Totals);
    }
    None
}

/// Returns the form that a word names.
fn form_word(field: &[u8]) -> Option<HeadForm>
    ensures { result ≡ form_word field.now }
{
    if field == b"ss".as_slice() {
        return Some(HeadForm::Sources);
    }
    if field == b"within".as_slice() {
        return Some(HeadForm::Within);
    }
    if field == b"p2p".as_slice() {
        return Some(HeadForm::Pairs);
    }
    if field == b"walk".as_slice() {
        return Some(HeadForm::Walk);
    }
    if field == b"add".as_slice() {
        return Some(HeadForm::Added);
    }
    if field == b"cut".as_slice() {
        return Some(HeadForm::Removed);
    }
    if field == b"set".as_slice() {
        return Some(HeadForm::Replaced);
    }
    if field == b"arcs".as_slice() {
        return Some(HeadForm::Listed);
    }
    None
}

/// Returns the kind that the first field names, and what follows it; or all of the fields.
fn take_kind(args: &[u8]) -> (Option<HeadKind>, &[u8])
    ensures { (result.0, fields result.1.now) ≡ word_in kind_word (fields args.now) }
{
    let Some((field, rest)) = next_field(args) else {
        return (None, args);
    };
    match kind_word(field) {
        None => (None, args),
        Some(kind) => (Some(kind), rest),
    }
}

/// Returns the lines that the first field names, and what follows it; or all of the fields.
fn take_lines(args: &[u8]) -> (Option<HeadLines>, &[u8])
    ensures { (result.0, fields result.1.now) ≡ word_in lines_word (fields args.now) }
{
    let Some((field, rest)) = next_field(args) else {
        return (None, args);
    };
    match lines_word(field) {
        None => (None, args),
        Some(lines) => (Some(lines), rest),
    }
}

/// Returns the form that the first field names, and what follows it.
fn take_form(args: &[u8]) -> Option<(HeadForm, &[u8])>
    ensures { MatchOption result ((word_in form_word (fields args.now)).0 ≡ None)
        (λ found. word_in form_word (fields args.now) ≡ (Some found.0, fields found.1.now)) }
{
    let Some((field, rest)) = next_field(args) else {
        return None;
    };
    match form_word(field) {
        None => None,
        Some(form) => Some((form, rest)),
    }
}

/// Tells if these words may stand before a form.
fn fits(kind: Option<HeadKind>, lines: Option<HeadLines>, form: HeadForm) -> bool
    ensures { result ≡ fits kind lines form }
{
    match (kind, form) {
        (Some(HeadKind::Components), HeadForm::Sources | HeadForm::Pairs) => lines.is_none(),
        (Some(HeadKind::Components), _) => false,
        (_, HeadForm::Sources) => true,
        (_, HeadForm::Pairs) => !matches!(lines, Some(HeadLines::Totals)),
        (_, HeadForm::Within) => matches!(lines, None | Some(HeadLines::Each | HeadLines::Walks)),
        (_, HeadForm::Walk) => lines.is_none(),
        (_, HeadForm::Added | HeadForm::Removed | HeadForm::Replaced | HeadForm::Listed) =>
            kind.is_none() && lines.is_none(),
    }
}

/// Returns the head that words and a form name, without its bound, and what follows its form.
pub fn find_head(args: &[u8]) -> Option<(SectionHead, &[u8])>
    ensures { MatchOption result (head_in (fields args.now) ≡ None)
        (λ found. head_in (fields args.now) ≡ Some (found.0, fields found.1.now)) }
{
    let (kind, rest) = take_kind(args);
    let (lines, rest) = take_lines(rest);
    let Some((form, rest)) = take_form(rest) else {
        return None;
    };
    if !fits(kind, lines, form) {
        return None;
    }
    let head = SectionHead {
        kind,
        lines,
        form,
        bound: None,
    };
    Some((head, rest))
}
