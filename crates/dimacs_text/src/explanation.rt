//! The explanation of a line that is wrong, for a person.
//!
//! Contracts speak of the number of the line and the kind of its fault. An explanation says the rest, in words that may
//! change, and keeps the first bytes of the line.

ghost use Rattle.std.specs.Prelude.{◌≡◌, length, take};

use crate::fault::{LineKind, TextFault};
use crate::form::{
    FORMS, Form, Item, Limit, MAX_ADDED, MAX_QUERIES, MAX_TEXT_ARCS, Section, find_form,
};
use crate::line::{is_blank_byte, next_field, number_of, trim_cr};
use route_walks::MAX_VERTICES;
use std::error::Error;
use std::fmt;

/// The most bytes of a line that an explanation keeps.
pub const MAX_KEPT_BYTES: usize = 80;

/// A bound on the numbers of a form.
const MOST_NUMBERS: usize = 3;

/// The first bytes of a line. It prints as plain ASCII: a backslash and each byte that is no letter, digit, sign or
/// space are escaped.
#[derive(Clone, Copy, Debug, PartialEq, Eq)]
pub struct Beginning {
    bytes: [u8; MAX_KEPT_BYTES],
    /// The number of bytes of the whole line.
    length: usize,
}

impl Beginning {
    ghost use Rattle.dimacs_text.specs.Explaining.{kept_of};

    /// The beginning of this line.
    pub(crate) fn of(line: &[u8]) -> Beginning
        ensures kept { kept_of result ≡ take MAX_KEPT_BYTES line.now }
        ensures length { result.length ≡ length line.now }
    {
        let mut bytes = [0; MAX_KEPT_BYTES];
        let kept = MAX_KEPT_BYTES.min(line.len());
        bytes[..kept].copy_from_slice(&line[..kept]);
        Beginning {
            bytes,
            length: line.len(),
        }
    }

    /// The bytes that are kept.
    pub fn bytes(&self) -> &[u8]
        ensures { result.now ≡ kept_of self.now }
    {
        &self.bytes[..MAX_KEPT_BYTES.min(self.length)]
    }

    /// The number of bytes of the whole line.
    pub fn length(&self) -> usize
        ensures { result ≡ self.now.length }
    {
        self.length
    }
}

impl fmt::Display for Beginning {
    fn fmt<W: fmt::Write>(&self, f: &mut fmt::Formatter<W>) -> fmt::Result {
        for byte in self.bytes() {
            match *byte {
                b'\t' => f.write_str("\\t")?,
                b'\r' => f.write_str("\\r")?,
                b'\\' => f.write_str("\\\\")?,
                b' '..=b'~' => f.write_char(char::from(*byte))?,
                other => write!(f, "\\x{other:02x}")?,
            }
        }
        Ok(())
    }
}

/// The section in which a line stands, as far as it has come.
#[derive(Clone, Copy, Debug, PartialEq, Eq)]
pub struct Place {
    pub section: Section,
    /// The number of the line that begins the section.
    pub head: u64,
    /// The number of items that line announces.
    pub announced: u64,
    /// The number of them that came before.
    pub came: u64,
}

impl fmt::Display for Place {
    fn fmt<W: fmt::Write>(&self, f: &mut fmt::Formatter<W>) -> fmt::Result {
        let Place {
            section,
            head,
            announced,
            came,
        } = *self;
        let plural = if announced == 1 { "" } else { "s" };
        let item = section.item_name();
        write!(
            f,
            "{announced} {item}{plural} announced at line {head}, {came} came before"
        )
    }
}

/// The text that belongs where something is wrong.
#[derive(Clone, Copy, Debug, PartialEq, Eq)]
pub enum Expected {
    /// The problem line.
    Problem,
    /// An item of this section.
    Item(Section),
    /// Another section that may follow this one, or the end of the text.
    Next(Section),
    /// This many numbers, in a line of this form.
    Numbers(Form, usize),
    /// A number within this limit: a vertex if the least is 1.
    Number(Limit),
}

impl Expected {
    /// The text that may come next at this place, or before the problem line.
    fn at(place: Option<Place>) -> Expected {
        match place {
            None => Expected::Problem,
            Some(place) if place.came < place.announced => Expected::Item(place.section),
            Some(place) => Expected::Next(place.section),
        }
    }
}

impl fmt::Display for Expected {
    fn fmt<W: fmt::Write>(&self, f: &mut fmt::Formatter<W>) -> fmt::Result {
        match *self {
            Expected::Problem => {
                let problem = pattern(Form::Head(Section::Problem));
                write!(f, "the line '{problem}'")
            }
            Expected::Item(section) => {
                let item = pattern(Form::Counted(section.item()));
                write!(f, "a line '{item}'")
            }
            Expected::Next(section) => write_next(f, section),
            Expected::Numbers(form, 1) => write!(f, "1 number, as in '{}'", pattern(form)),
            Expected::Numbers(form, count) => {
                write!(f, "{count} numbers, as in '{}'", pattern(form))
            }
            Expected::Number(limit) => write_limit(f, limit),
        }
    }
}

/// Writes which lines may follow a section.
fn write_next<W: fmt::Write>(f: &mut fmt::Formatter<W>, section: Section) -> fmt::Result {
    for form in FORMS {
        match form {
            Form::Head(next) if section.may_be_followed(next) => {
                write!(f, "'{}' or ", pattern(form))?
            }
            _ => {}
        }
    }
    f.write_str("the end of the text")
}

/// Writes which numbers a limit admits.
fn write_limit<W: fmt::Write>(f: &mut fmt::Formatter<W>, limit: Limit) -> fmt::Result {
    match limit {
        Limit { least: 0, most } => write!(f, "a whole number from 0 to {most}"),
        Limit { most: 0, .. } => f.write_str("a vertex, and the graph has none"),
        Limit { least, most } => write!(f, "a vertex from {least} to {most}"),
    }
}

/// A line of the form, with letters in place of its numbers.
fn pattern(form: Form) -> &'static str {
    match form {
        Form::Head(Section::Problem) => "p sp N M",
        Form::Head(Section::Sources) => "p aux sp ss K",
        Form::Head(Section::Pairs) => "p aux sp p2p K",
        Form::Head(Section::Added) => "p aux sp add K",
        Form::Counted(Item::Arc) => "a U V W",
        Form::Counted(Item::Source) => "s V",
        Form::Counted(Item::Pair) => "q S T",
    }
}

/// The explanation of what is wrong with a text, for a person: the place, and what belongs there.
#[derive(Clone, Copy, Debug, PartialEq, Eq)]
pub struct Explanation {
    /// The number of the line, counted from 1.
    pub line: u64,
    pub kind: LineKind,
    /// The line, and `None` if the text ends too early.
    pub text: Option<Beginning>,
    /// The number of fields of the line.
    pub fields: usize,
    /// The field that is wrong, counted from 1, if one is; a missing one comes after the last.
    pub field: Option<usize>,
    /// The text that belongs there, or in place of the line.
    pub expected: Expected,
    /// The place of the line. There is no section before the problem line.
    pub place: Option<Place>,
}

impl Explanation {
    ghost use Rattle.dimacs_text.specs.reader.Drafts.{IsOfEnd, IsOfLine};

    /// The explanation of a line with its number and what is wrong with it. Vertices count to the number given.
    pub(crate) fn of_line(
        text: &[u8],
        line: u64,
        kind: LineKind,
        vertices: u32,
        place: Option<Place>,
    ) -> Explanation
        ensures { IsOfLine text.now line kind result }
    {
        let content = trim_cr(text);
        let (field, expected) = match wrong_field(content, kind, vertices) {
            Some((field, expected)) => (Some(field), expected),
            None => (None, None),
        };
        Explanation {
            line,
            kind,
            text: Some(Beginning::of(text)),
            fields: count_fields(content),
            field,
            expected: expected.unwrap_or(Expected::at(place)),
            place,
        }
    }

    /// The explanation of a text that ends too early, with the number of the line that would be next.
    pub(crate) fn of_end(line: u64, kind: LineKind, place: Option<Place>) -> Explanation
        ensures { IsOfEnd line line kind result }
    {
        Explanation {
            line,
            kind,
            text: None,
            fields: 0,
            field: None,
            expected: Expected::at(place),
            place,
        }
    }
}

/// The reason for which a text gave no job, with what a person needs to mend it.
#[derive(Clone, Copy, Debug, PartialEq, Eq)]
pub struct ExplainedFault {
    pub fault: TextFault,
    /// The explanation of the fault, and `None` if memory was refused.
    pub explanation: Option<Explanation>,
}

impl fmt::Display for ExplainedFault {
    fn fmt<W: fmt::Write>(&self, f: &mut fmt::Formatter<W>) -> fmt::Result {
        self.fault.fmt(f)
    }
}

impl Error for ExplainedFault {}

/// The field that is wrong, counted from 1, and what belongs there if that is a number or numbers.
fn wrong_field(line: &[u8], kind: LineKind, vertices: u32) -> Option<(usize, Option<Expected>)> {
    match kind {
        LineKind::Unknown => Some((leading_fields(line).saturating_add(1), None)),
        LineKind::Fields => wrong_count(line, vertices),
        LineKind::Number | LineKind::Range => wrong_number(line, kind, vertices),
        LineKind::Misplaced | LineKind::TooMany | LineKind::TooFew | LineKind::NoProblem => None,
    }
}

/// The field that is missing, or the first that is too many.
fn wrong_count(line: &[u8], vertices: u32) -> Option<(usize, Option<Expected>)> {
    let (form, args) = find_form(line)?;
    let count = count_numbers(form, vertices);
    let leading = count_fields(line).saturating_sub(count_fields(args));
    let right = count_fields(args).min(count);
    let field = leading.saturating_add(right).saturating_add(1);
    Some((field, Some(Expected::Numbers(form, count))))
}

/// The first field that is no number, or if all are numbers the first outside its limit.
fn wrong_number(line: &[u8], kind: LineKind, vertices: u32) -> Option<(usize, Option<Expected>)> {
    let (form, args) = find_form(line)?;
    let leading = count_fields(line).saturating_sub(count_fields(args));
    let mut rest = args;
    for place in 0..MOST_NUMBERS {
        let limit = limit_at(form, place, vertices)?;
        let (field, after) = next_field(rest)?;
        let is_wrong = match number_of(field) {
            None => true,
            Some(value) => kind == LineKind::Range && !limit.admits(value),
        };
        if is_wrong {
            let field = leading.saturating_add(place).saturating_add(1);
            return Some((field, Some(Expected::Number(limit))));
        }
        rest = after;
    }
    None
}

/// The limit of a number by its place in a line of the form, if it has one there.
fn limit_at(form: Form, place: usize, vertices: u32) -> Option<Limit> {
    match (form, place) {
        (Form::Head(Section::Problem), 0) => Some(Limit::up_to(MAX_VERTICES)),
        (Form::Head(Section::Problem), 1) => Some(Limit::up_to(MAX_TEXT_ARCS)),
        (Form::Head(Section::Sources | Section::Pairs), 0) => Some(Limit::up_to(MAX_QUERIES)),
        (Form::Head(Section::Added), 0) => Some(Limit::up_to(MAX_ADDED)),
        (Form::Counted(Item::Arc), 2) => Some(Limit::up_to(u32::MAX)),
        (Form::Counted(Item::Arc | Item::Pair), 0 | 1) => Some(Limit::vertex(vertices)),
        (Form::Counted(Item::Source), 0) => Some(Limit::vertex(vertices)),
        _ => None,
    }
}

/// The number of numbers that a line of the form has.
fn count_numbers(form: Form, vertices: u32) -> usize {
    for place in 0..MOST_NUMBERS {
        if limit_at(form, place, vertices).is_none() {
            return place;
        }
    }
    MOST_NUMBERS
}

/// The number of fields of a line.
fn count_fields(line: &[u8]) -> usize {
    let mut count: usize = 0;
    let mut is_after_blank = true;
    for byte in line {
        let is_blank = is_blank_byte(*byte);
        if is_after_blank && !is_blank {
            count = count.saturating_add(1);
        }
        is_after_blank = is_blank;
    }
    count
}

/// The number of fields of a line by which some form is known.
fn leading_fields(line: &[u8]) -> usize {
    let mut most = 0;
    for form in FORMS {
        most = most.max(fields_in_common(line, form.leading()));
    }
    most
}

/// The number of these fields with which a line begins.
fn fields_in_common(line: &[u8], leading: &[&[u8]]) -> usize {
    let mut rest = line;
    for (i, expected) in leading.iter().enumerate() {
        match next_field(rest) {
            Some((field, after)) if field == *expected => rest = after,
            _ => return i,
        }
    }
    leading.len()
}
