//! Each call with one allocation refused, and made once more.

use crate::costs::{hierarchy_of, room_of};
use crate::plain::build;
use crate::toward::{are_below, list_from, row_from};
use contraction::rows_of;
use hierarchy::{Hierarchy, TargetSweep, contracted, eliminated, parts_of};
use route_walks::{EXAMPLE_ARCS, Memory, refusable, tried_again};
use std::test::Fail;

#[test]
fn of_contracted(rt: HostRuntime) -> Result<(), Fail> {
    let alloc = rt.alloc();
    let csr = build(&rt, alloc, 6, &EXAMPLE_ARCS)?;
    let parts = tried_again!(rt, alloc, Memory, contracted(alloc, &csr, usize::MAX));
    assert!(rt; parts.is_some());
    Ok(())
}

#[test]
fn of_eliminated(rt: HostRuntime) -> Result<(), Fail> {
    let alloc = rt.alloc();
    let csr = build(&rt, alloc, 6, &EXAMPLE_ARCS)?;
    let parts = tried_again!(rt, alloc, Memory, eliminated(alloc, &csr, usize::MAX));
    assert!(rt; parts.is_some());
    Ok(())
}

#[test]
fn of_parts_of(rt: HostRuntime) -> Result<(), Fail> {
    let alloc = rt.alloc();
    let csr = build(&rt, alloc, 6, &EXAMPLE_ARCS)?;
    let parts = tried_again!(rt, alloc, Memory, parts_of(alloc, &csr, usize::MAX));
    assert!(rt; parts.is_some());
    Ok(())
}

#[test]
fn of_rows_of(rt: HostRuntime) -> Result<(), Fail> {
    let alloc = rt.alloc();
    let rows = tried_again!(rt, alloc, Memory, rows_of(alloc, 6, &EXAMPLE_ARCS));
    assert!(rt; rows.is_some());
    Ok(())
}

// Nothing is told of a refusal: there is no hierarchy.
#[test]
fn of_hierarchy_checked(rt: HostRuntime) -> Result<(), Fail> {
    let alloc = rt.alloc();
    let csr = build(&rt, alloc, 6, &EXAMPLE_ARCS)?;
    let again = contracted(alloc, &csr, usize::MAX)?;
    let Some(parts) = contracted(alloc, &csr, usize::MAX)? else {
        return Ok(());
    };
    let checked = refusable!(alloc, Hierarchy::checked(alloc, &csr, parts));
    let made = match checked {
        Some(hierarchy) => Some(hierarchy),
        None => again.and_then(|parts| Hierarchy::checked(alloc, &csr, parts)),
    };
    assert!(rt; made.is_some());
    Ok(())
}

#[test]
fn of_target_sweep_new(rt: HostRuntime) -> Result<(), Fail> {
    let alloc = rt.alloc();
    let csr = build(&rt, alloc, 6, &EXAMPLE_ARCS)?;
    let Some(hierarchy) = hierarchy_of(alloc, &csr)? else {
        return Ok(());
    };
    let (one, other) = (vec![in alloc; 5_u32, 3]?, vec![in alloc; 5_u32, 3]?);
    assert!(rt; are_below(6, &one) && are_below(6, &other));
    let made = refusable!(alloc, TargetSweep::new(alloc, &hierarchy, one));
    let again = match made {
        Some(sweep) => Some(sweep),
        None => TargetSweep::new(alloc, &hierarchy, other),
    };
    assert!(rt; again.is_some());
    Ok(())
}

#[test]
fn of_target_sweep_costs_from(rt: HostRuntime) -> Result<(), Fail> {
    let alloc = rt.alloc();
    let csr = build(&rt, alloc, 6, &EXAMPLE_ARCS)?;
    let mut room = room_of(alloc, 6)?;
    let Some(hierarchy) = hierarchy_of(alloc, &csr)? else {
        return Ok(());
    };
    let targets = vec![in alloc; 5_u32, 3]?;
    assert!(rt; are_below(6, &targets));
    let Some(sweep) = TargetSweep::new(alloc, &hierarchy, targets) else {
        return Ok(());
    };
    let space = &mut room.forward;
    let found = refusable!(alloc, row_from(&rt, alloc, &hierarchy, &sweep, space, 6, 0));
    let again = match found {
        Some(costs) => Some(costs),
        None => row_from(&rt, alloc, &hierarchy, &sweep, space, 6, 0),
    };
    assert!(rt; again.is_some_and(|costs| costs.as_slice() == [15_u64, 12].as_slice()));
    Ok(())
}

// With no order, which each search allows.
#[test]
fn of_search_space_costs_above(rt: HostRuntime) -> Result<(), Fail> {
    let alloc = rt.alloc();
    let csr = build(&rt, alloc, 6, &EXAMPLE_ARCS)?;
    let mut space = room_of(alloc, 6)?.forward;
    assert!(rt; space.vertices() == 6);
    let found = refusable!(alloc, space.costs_above(alloc, &csr, &csr, 0, &[], &[]));
    let again = match found {
        Some(costs) => Some(costs),
        None => space.costs_above(alloc, &csr, &csr, 0, &[], &[]),
    };
    assert!(rt; again.is_some_and(|costs| costs.is_empty()));
    Ok(())
}

#[test]
fn of_hierarchy_costs_to(rt: HostRuntime) -> Result<(), Fail> {
    let alloc = rt.alloc();
    let csr = build(&rt, alloc, 6, &EXAMPLE_ARCS)?;
    let mut room = room_of(alloc, 6)?;
    let Some(hierarchy) = hierarchy_of(alloc, &csr)? else {
        return Ok(());
    };
    let targets = vec![in alloc; 5_u32; 20]?;
    let found = refusable!(
        alloc,
        list_from(&rt, alloc, &csr, &hierarchy, &mut room, 0, &targets)
    );
    let again = match found {
        Some(costs) => Some(costs),
        None => list_from(&rt, alloc, &csr, &hierarchy, &mut room, 0, &targets),
    };
    assert!(rt; again.is_some_and(|costs| costs.iter().all(|cost| *cost == 15)));
    Ok(())
}
