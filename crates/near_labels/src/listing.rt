//! Lists of what a search has found.

ghost use Rattle.std.specs.Prelude.{◌≡◌, ◌<◌, All, IfSome, length, map, slice_index};
ghost use Rattle.std.specs.List.Sorted.{IsNonDecreasing};
ghost use Rattle.near_labels.specs.Noted.{AreListed};

use std::alloc::Global;

pub(crate) fn listed(
    alloc: Global,
    labels: &[u64],
    noted: &[u32],
    bound: u64,
) -> Option<Vec<(u32, u64)>>
    requires within { All (λ v. v < length labels.now) noted.now }
    requires rising { IsNonDecreasing noted.now }
    ensures { IfSome result (λ found. AreListed labels.now noted.now bound (length noted.now) found.items) }
{
    let mut found = Vec::new(alloc);
    let mut next = 0_u64;
    for v in noted {
        let label = labels[*v as usize];
        if u64::from(*v) >= next && label <= bound {
            match found.push((*v, label)) {
                Ok(()) => {}
                Err(_) => return None,
            }
            next = u64::from(*v) + 1;
        }
    }
    Some(found)
}

pub(crate) fn labels_of(alloc: Global, labels: &[u64], vertices: &[u32]) -> Option<Vec<u64>>
    requires { All (λ v. v < length labels.now) vertices.now }
    ensures { IfSome result (λ found. found.items ≡ map (slice_index labels.now) vertices.now) }
{
    let mut found = Vec::with_capacity(alloc, vertices.len()).ok()?;
    for v in vertices {
        found.push(labels[*v as usize]).ok()?;
    }
    Some(found)
}
