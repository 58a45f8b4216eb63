//! The meaning of one line that follows a graph.
//!
//! A section line is read as the head of a section of a job: of walks as of pairs, within a bound as of sources. Any
//! other line says what it says in a job.

ghost use Rattle.std.specs.Prelude.{◌≡◌, ◌≢◌, ◌∷◌, [], true, length, MatchOption, None, Some};
ghost use Rattle.dimacs_text.specs.Lines.{fields};
ghost use Rattle.dimacs_text.specs.Forms.{numbers_within};
ghost use Rattle.dimacs_text.specs.Heads.{after_front, begins_section};
ghost use Rattle.dimacs_text.specs.AfterGraph.{bound_of, head_of, head_or_plain, head_reading, reading_after, within_limits};
ghost use Rattle.dimacs_text.specs.reader.Entries.{entry_said, said_by, two_said};

use crate::fault::LineKind;
use crate::form::{Entry, Form, MAX_QUERIES, read_form, read_line};
use crate::head::{HeadForm, SectionHead, find_head, strip_front};
use crate::line::{next_field, number_of};
use route_walks::INF;

/// The two fields of a line that has two.
fn two_fields(args: &[u8]) -> Option<(&[u8], &[u8])>
    ensures { MatchOption result (length (fields args.now) ≢ 2)
        (λ two. fields args.now ≡ two.0.now ∷ two.1.now ∷ []) }
{
    let Some((first, after)) = next_field(args) else {
        return None;
    };
    let Some((second, after)) = next_field(after) else {
        return None;
    };
    match next_field(after) {
        Some(_) => None,
        None => Some((first, second)),
    }
}

/// The bound and the number of sources of a section within a bound, or the first kind that is wrong with them.
fn read_two(args: &[u8]) -> Result<(u64, u32), LineKind>
    ensures { two_said result ≡ numbers_within within_limits (fields args.now) }
{
    let Some((first, second)) = two_fields(args) else {
        return Err(LineKind::Fields);
    };
    let Some(bound) = number_of(first) else {
        return Err(LineKind::Number);
    };
    let Some(count) = number_of(second) else {
        return Err(LineKind::Number);
    };
    if bound >= INF {
        return Err(LineKind::Range);
    }
    if count > u64::from(MAX_QUERIES) {
        return Err(LineKind::Range);
    }
    Ok((bound, count as u32))
}

/// Reads the numbers of a head of this form.
fn read_head(form: HeadForm, args: &[u8], vertices: u32) -> Result<Entry, LineKind>
    ensures { entry_said result ≡ head_reading vertices form (fields args.now) }
{
    match form {
        HeadForm::Within => match read_two(args) {
            Ok((_, count)) => Ok(Entry::Sources(count)),
            Err(kind) => Err(kind),
        },
        _ => read_form(Form::Head(form.section()), args, vertices),
    }
}

/// Reads a line that follows a graph of this many vertices.
pub fn read_line_after(line: &[u8], vertices: u32) -> Result<Option<Entry>, LineKind>
    ensures { said_by result ≡ reading_after vertices line.now }
{
    let Some(args) = strip_front(line) else {
        return read_line(line, vertices);
    };
    let Some((head, args)) = find_head(args) else {
        return Err(LineKind::Unknown);
    };
    match read_head(head.form, args, vertices) {
        Ok(entry) => Ok(Some(entry)),
        Err(kind) => Err(kind),
    }
}

/// Returns the bound of a section within one.
fn read_bound(form: HeadForm, args: &[u8]) -> Option<u64>
    ensures { result ≡ bound_of form (fields args.now) }
{
    match form {
        HeadForm::Within => match read_two(args) {
            Ok((bound, _)) => Some(bound),
            Err(_) => None,
        },
        _ => None,
    }
}

impl SectionHead {
    /// Returns the head that a line after a graph is, or `None` if it is none. If its numbers are wrong, it has no bound.
    pub fn of(line: &[u8]) -> Option<SectionHead>
        ensures { result ≡ head_of line.now }
    {
        let args = strip_front(line)?;
        let (head, args) = find_head(args)?;
        let bound = read_bound(head.form, args);
        Some(SectionHead { bound, ..head })
    }

    /// Returns the head, or one of sources without words if there is none. A request that is whole has one.
    pub fn or_plain(head: Option<SectionHead>) -> SectionHead
        ensures { result ≡ head_or_plain head }
    {
        match head {
            Some(head) => head,
            None => SectionHead {
                kind: None,
                lines: None,
                form: HeadForm::Sources,
                bound: None,
            },
        }
    }
}
