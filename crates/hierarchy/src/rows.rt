//! Targets in rows by rising head.

ghost use Rattle.std.specs.Prelude.{◌≡◌, true, IfSome};
ghost use Rattle.hierarchy.specs.Checked.{HasTarget};

use csr_graph::Target;

/// The place of the last target whose head is at most this one, by bisection; 0 if there is none. A hint.
fn place_of(row: &[Target], head: u32) -> usize {
    let mut low = 0;
    let mut size = row.len();
    while size > 1 {
        let half = size / 2;
        if row[low + half].head <= head {
            low += half;
        }
        size -= half;
    }
    low
}

/// The weight of a target with this head. A row by rising heads gives one, if it has one.
pub(crate) fn weight_to(row: &[Target], head: u32) -> Option<u32>
    ensures { IfSome result (HasTarget row.now head) }
{
    let target = row.get(place_of(row, head))?;
    if target.head == head {
        Some(target.weight)
    } else {
        None
    }
}

/// Tells if the target at an index has this head, and at most this weight.
pub(crate) fn is_target(row: &[Target], index: usize, head: u32, most: u32) -> bool
    ensures { result ≡ true → HasTarget row.now head most }
{
    match row.get(index) {
        Some(target) => target.head == head && target.weight <= most,
        None => false,
    }
}

/// Tells if a target with this head has at most this weight.
pub(crate) fn leads(row: &[Target], head: u32, most: u64) -> bool
    ensures { result ≡ true → HasTarget row.now head most }
{
    match weight_to(row, head) {
        Some(weight) => u64::from(weight) <= most,
        None => false,
    }
}
