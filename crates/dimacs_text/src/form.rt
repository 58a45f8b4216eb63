//! The forms of a line, and what one line says.

ghost use Rattle.std.specs.Prelude.{◌≡◌, ◌<◌, ◌^◌, ◌&&◌, nat_le, false, length, drop, map, MatchOption, IfOk};
ghost use Rattle.dimacs_text.specs.Lines.{fields};
ghost use Rattle.dimacs_text.specs.Forms.{leading, limits, begins_with, form_of, numbers_within, in_form, reading};
ghost use Rattle.dimacs_text.specs.reader.Entries.{said_by, entry_said, fields_of, FollowsLeading, AreWithin};

use crate::fault::LineKind;
use crate::line::{next_field, number_of, trim_cr};
use route_walks::{ArcRec, MAX_VERTICES};

/// The largest number of arcs that a problem line can count, 2^30.
pub const MAX_TEXT_ARCS: u32 = 1073741824;

/// The largest number of sources, or of pairs, that a text can ask for, 2^20.
pub const MAX_QUERIES: u32 = 1048576;

/// The largest number of arcs that an added section can count, 2^20.
pub const MAX_ADDED: u32 = 1048576;

/// A part of a text: a head with a count, and then as many items as it counts.
#[derive(Clone, Copy, Debug, PartialEq, Eq)]
pub enum Section {
    /// The problem line `p sp N M`, and its M arcs.
    Problem,
    /// The line `p aux sp ss K`, and its K sources.
    Sources,
    /// The line `p aux sp p2p K`, and its K pairs.
    Pairs,
    /// The line `p aux sp add K`, and its K arcs.
    Added,
}

impl Section {
    ghost use Rattle.dimacs_text.specs.Grammar.{item_of, place, may_follow};

    /// The items that the head of this section counts.
    pub fn item(self) -> Item
        ensures { result ≡ item_of self }
    {
        match self {
            Section::Problem => Item::Arc,
            Section::Sources => Item::Source,
            Section::Pairs => Item::Pair,
            Section::Added => Item::Arc,
        }
    }

    /// The name of an item of this section.
    pub fn item_name(self) -> &'static str {
        match self {
            Section::Problem => "arc",
            Section::Sources => "source",
            Section::Pairs => "pair",
            Section::Added => "added arc",
        }
    }

    /// The place of this section in a text, from 0. A section follows those of lower places.
    pub fn place(self) -> u8
        ensures { result ≡ place self }
    {
        match self {
            Section::Problem => 0,
            Section::Sources => 1,
            Section::Pairs => 1,
            Section::Added => 2,
        }
    }

    /// Tells if a section may follow this one.
    pub fn may_be_followed(self, next: Section) -> bool
        ensures { result ≡ may_follow self next }
    {
        self.place() < next.place()
    }
}

/// The item that a head counts.
#[derive(Clone, Copy, Debug, PartialEq, Eq)]
pub enum Item {
    /// The line `a U V W`.
    Arc,
    /// The line `s V`.
    Source,
    /// The line `q S T`.
    Pair,
}

/// A line is the head of a section, or an item that a head counts.
#[derive(Clone, Copy, Debug, PartialEq, Eq)]
pub enum Form {
    Head(Section),
    Counted(Item),
}

/// The forms, in the order in which a line is compared with them.
pub const FORMS: [Form; 7] = [
    Form::Head(Section::Problem),
    Form::Head(Section::Sources),
    Form::Head(Section::Pairs),
    Form::Head(Section::Added),
    Form::Counted(Item::Arc),
    Form::Counted(Item::Source),
    Form::Counted(Item::Pair),
];

impl Form {
    /// The fields by which a form is known.
    pub fn leading(self) -> &'static [&'static [u8]]
        ensures { fields_of result.now ≡ leading self }
    {
        match self {
            Form::Head(Section::Problem) => &[b"p", b"sp"],
            Form::Head(Section::Sources) => &[b"p", b"aux", b"sp", b"ss"],
            Form::Head(Section::Pairs) => &[b"p", b"aux", b"sp", b"p2p"],
            Form::Head(Section::Added) => &[b"p", b"aux", b"sp", b"add"],
            Form::Counted(Item::Arc) => &[b"a"],
            Form::Counted(Item::Source) => &[b"s"],
            Form::Counted(Item::Pair) => &[b"q"],
        }
    }
}

/// A number in a line is from `least` to `most`.
#[derive(Clone, Copy, Debug, PartialEq, Eq)]
pub struct Limit {
    pub least: u32,
    pub most: u32,
}

impl Limit {
    ghost use Rattle.dimacs_text.specs.Forms.{up_to, vertex_limit};

    pub fn up_to(most: u32) -> Limit
        ensures { result ≡ up_to most }
    {
        Limit { least: 0, most }
    }

    /// The limit of a vertex in a text that has this many.
    pub fn vertex(vertices: u32) -> Limit
        ensures { result ≡ vertex_limit vertices }
    {
        Limit {
            least: 1,
            most: vertices,
        }
    }

    /// Tells if a number is within the limit.
    pub fn admits(self, value: u64) -> bool
        ensures admits { result ≡ (nat_le self.least value && nat_le value self.most) }
        // What a limit admits fits 32 bits.
        ensures fits { self.most < 2 ^ 32 }
    {
        u64::from(self.least) <= value && value <= u64::from(self.most)
    }
}

/// A line that is neither blank nor a comment. Vertices are counted from 0.
#[derive(Clone, Copy, Debug, PartialEq, Eq)]
pub enum Entry {
    Problem { vertices: u32, arcs: u32 },
    Arc(ArcRec),
    Sources(u32),
    Source(u32),
    Pairs(u32),
    Pair(u32, u32),
    Added(u32),
}

impl Entry {
    ghost use Rattle.dimacs_text.specs.reader.Entries.{record_of};

    /// The form of its line.
    pub fn form(self) -> Form
        ensures { result ≡ (record_of self).form }
    {
        match self {
            Entry::Problem { .. } => Form::Head(Section::Problem),
            Entry::Arc(_) => Form::Counted(Item::Arc),
            Entry::Sources(_) => Form::Head(Section::Sources),
            Entry::Source(_) => Form::Counted(Item::Source),
            Entry::Pairs(_) => Form::Head(Section::Pairs),
            Entry::Pair(_, _) => Form::Counted(Item::Pair),
            Entry::Added(_) => Form::Head(Section::Added),
        }
    }
}

/// Returns the bytes after the leading fields, if a line begins with them.
pub fn strip_leading<'a>(line: &'a [u8], leading: &[&[u8]]) -> Option<&'a [u8]>
    ensures { MatchOption result
        (begins_with (fields_of leading.now) (fields line.now) ≡ false)
        (λ rest. FollowsLeading (fields_of leading.now) (fields line.now) (fields rest.now)) }
{
    let mut rest = line;
    for expected in leading {
        let Some((field, after)) = next_field(rest) else {
            return None;
        };
        if field != *expected {
            return None;
        }
        rest = after;
    }
    Some(rest)
}

/// The form of a line by its leading fields, and what follows them.
pub fn find_form(line: &[u8]) -> Option<(Form, &[u8])>
    ensures { MatchOption result (form_of (fields line.now) ≡ None)
        (λ found. (form_of (fields line.now) ≡ Some found.0)
        × (fields found.1.now ≡ drop (length (leading found.0)) (fields line.now))) }
{
    for form in FORMS {
        if let Some(rest) = strip_leading(line, form.leading()) {
            return Some((form, rest));
        }
    }
    None
}

/// The numbers of a line, or the first kind that is wrong with them.
fn read_numbers<const N: usize>(args: &[u8], limits: [Limit; N]) -> Result<[u32; N], LineKind>
    ensures says { result ≡ numbers_within limits.entry (fields args.now) }
    ensures within { IfOk result (AreWithin limits.entry) }
{
    let mut numbers = [0; N];
    let mut wrong = None;
    let mut rest = args;
    for i in 0..N {
        let Some((field, after)) = next_field(rest) else {
            return Err(LineKind::Fields);
        };
        match number_of(field) {
            None => wrong = Some(LineKind::Number),
            Some(value) if limits[i].admits(value) => numbers[i] = value as u32,
            Some(_) => wrong = wrong.or(Some(LineKind::Range)),
        }
        rest = after;
    }
    if next_field(rest).is_some() {
        return Err(LineKind::Fields);
    }
    match wrong {
        Some(kind) => Err(kind),
        None => Ok(numbers),
    }
}

/// Reads a line of the form by the fields after its leading ones.
pub fn read_form(form: Form, args: &[u8], vertices: u32) -> Result<Entry, LineKind>
    ensures { entry_said result
        ≡ in_form form (numbers_within (limits vertices form) (fields args.now)) }
{
    let vertex = Limit::vertex(vertices);
    match form {
        Form::Head(Section::Problem) => {
            let limits = [Limit::up_to(MAX_VERTICES), Limit::up_to(MAX_TEXT_ARCS)];
            let [vertices, arcs] = read_numbers(args, limits)?;
            Ok(Entry::Problem { vertices, arcs })
        }
        Form::Head(Section::Sources) => {
            let [count] = read_numbers(args, [Limit::up_to(MAX_QUERIES)])?;
            Ok(Entry::Sources(count))
        }
        Form::Head(Section::Pairs) => {
            let [count] = read_numbers(args, [Limit::up_to(MAX_QUERIES)])?;
            Ok(Entry::Pairs(count))
        }
        Form::Head(Section::Added) => {
            let [count] = read_numbers(args, [Limit::up_to(MAX_ADDED)])?;
            Ok(Entry::Added(count))
        }
        Form::Counted(Item::Arc) => {
            let limits = [vertex, vertex, Limit::up_to(u32::MAX)];
            let [tail, head, weight] = read_numbers(args, limits)?;
            Ok(Entry::Arc(ArcRec {
                tail: tail - 1,
                head: head - 1,
                weight,
            }))
        }
        Form::Counted(Item::Source) => {
            let [vertex] = read_numbers(args, [vertex])?;
            Ok(Entry::Source(vertex - 1))
        }
        Form::Counted(Item::Pair) => {
            let [source, target] = read_numbers(args, [vertex, vertex])?;
            Ok(Entry::Pair(source - 1, target - 1))
        }
    }
}

/// Reads a line, with vertices up to this number: nothing, an entry, or the first kind that is wrong.
pub fn read_line(line: &[u8], vertices: u32) -> Result<Option<Entry>, LineKind>
    ensures { said_by result ≡ reading vertices line.now }
{
    let line = trim_cr(line);
    let Some((first, _)) = next_field(line) else {
        return Ok(None);
    };
    if first[0] == b'c' {
        return Ok(None);
    }
    let Some((form, args)) = find_form(line) else {
        return Err(LineKind::Unknown);
    };
    match read_form(form, args, vertices) {
        Ok(entry) => Ok(Some(entry)),
        Err(kind) => Err(kind),
    }
}
