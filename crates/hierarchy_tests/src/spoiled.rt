//! Parts of a hierarchy with one number spoiled, or one arc left out: they are refused, or tell the same costs.

use crate::costs::{are_all_least, room_of};
use crate::makers::{MAKERS, Maker, parts_by};
use crate::plain::build;
use csr_graph::{Csr, MAX_ARCS, MAX_VERTICES};
use hierarchy::{Hierarchy, HierarchyParts};
use route_walks::{ArcRec, EXAMPLE_ARCS, Memory, arcs, is_graph};
use std::alloc::Global;
use std::process::Abort;
use std::test::Fail;

/// A list of a hierarchy's parts.
#[derive(Clone, Copy, Debug, PartialEq)]
enum List {
    Places,
    Vertices,
    OriginsUp,
    OriginsDown,
    ArcsUp,
    ArcsDown,
}

use List::{ArcsDown, ArcsUp, OriginsDown, OriginsUp, Places, Vertices};

/// The part of an arc that is spoiled; of another list it is the number.
#[derive(Clone, Copy, Debug, PartialEq)]
enum Part {
    Head,
    Weight,
    Whole,
}

use Part::{Head, Weight, Whole};

const LISTS: [(List, Part); 10] = [
    (Places, Whole),
    (Vertices, Whole),
    (OriginsUp, Whole),
    (OriginsDown, Whole),
    (ArcsUp, Head),
    (ArcsUp, Weight),
    (ArcsUp, Whole),
    (ArcsDown, Head),
    (ArcsDown, Weight),
    (ArcsDown, Whole),
];

/// The number in place of another.
#[derive(Clone, Copy, Debug, PartialEq)]
enum Change {
    Less,
    More,
    None,
    Half,
}

const CHANGES: [Change; 4] = [Change::Less, Change::More, Change::None, Change::Half];

fn changed(number: u32, change: Change) -> u32 {
    match change {
        Change::Less => number.saturating_sub(1),
        Change::More => number.saturating_add(1),
        Change::None => 0,
        Change::Half => number / 2,
    }
}

/// Changes a number of a list. Returns false if there is none.
fn spoil_number(list: &mut [u32], index: usize, change: Change) -> bool {
    match list.get_mut(index) {
        Some(number) => {
            *number = changed(*number, change);
            true
        }
        None => false,
    }
}

/// Changes a part of an arc, or leaves the arc out. Returns false if there is none.
fn spoil_arc(arcs: &mut Vec<ArcRec>, index: usize, part: Part, change: Change) -> bool {
    if index >= arcs.len() {
        return false;
    }
    match part {
        Head => arcs[index].head = changed(arcs[index].head, change),
        Weight => arcs[index].weight = changed(arcs[index].weight, change),
        Whole => {
            arcs.remove(index);
        }
    }
    true
}

/// The rows with an arc spoiled, if it is there and its head is a vertex.
fn spoiled_rows(
    alloc: Global,
    rows: &Csr,
    index: usize,
    part: Part,
    change: Change,
) -> Result<Option<Csr>, Memory> {
    let mut arcs = rows.arcs(alloc)?;
    if !spoil_arc(&mut arcs, index, part, change) || !is_graph(rows.n(), &arcs) {
        return Ok(None);
    }
    if rows.n() > MAX_VERTICES || arcs.len() > MAX_ARCS {
        return Ok(None);
    }
    Ok(Some(Csr::build(alloc, rows.n(), &arcs)?))
}

/// Spoils the parts. Returns false if there is nothing at the index.
fn spoil(
    alloc: Global,
    parts: &mut HierarchyParts,
    (list, part): (List, Part),
    index: usize,
    change: Change,
) -> Result<bool, Memory> {
    match list {
        Places => Ok(spoil_number(&mut parts.places, index, change)),
        Vertices => Ok(spoil_number(&mut parts.vertices, index, change)),
        OriginsUp => Ok(spoil_number(&mut parts.origins_up, index, change)),
        OriginsDown => Ok(spoil_number(&mut parts.origins_down, index, change)),
        ArcsUp => match spoiled_rows(alloc, &parts.up, index, part, change)? {
            Some(rows) => {
                parts.up = rows;
                Ok(true)
            }
            None => Ok(false),
        },
        ArcsDown => match spoiled_rows(alloc, &parts.down, index, part, change)? {
            Some(rows) => {
                parts.down = rows;
                Ok(true)
            }
            None => Ok(false),
        },
    }
}

/// Tells if the hierarchy of a graph is refused with this spoiled; `None` if there is nothing at the index. Asserts that one
/// that is not refused tells the same costs.
fn is_refused(
    rt: &impl Abort,
    alloc: Global,
    csr: &Csr,
    maker: Maker,
    place: (List, Part),
    index: usize,
    change: Change,
) -> Result<Option<bool>, Fail> {
    let mut room = room_of(alloc, csr.n())?;
    let Some(mut parts) = parts_by(alloc, csr, maker, usize::MAX)? else {
        return Ok(None);
    };
    if !spoil(alloc, &mut parts, place, index, change)? {
        return Ok(None);
    }
    let Some(hierarchy) = Hierarchy::checked(alloc, csr, parts) else {
        return Ok(Some(true));
    };
    let right = are_all_least(rt, alloc, csr, &hierarchy, &mut room)?;
    assert!(rt; right, "{maker:?}, {place:?} at {index}, {change:?}");
    Ok(Some(false))
}

/// Spoils each number of a list in turn. Returns how often the hierarchy is refused, and how often not.
fn spoil_all(
    rt: &impl Abort,
    alloc: Global,
    csr: &Csr,
    maker: Maker,
    place: (List, Part),
    change: Change,
) -> Result<(u32, u32), Fail> {
    let (mut refused, mut passed) = (0_u32, 0_u32);
    for index in 0..MOST {
        match is_refused(rt, alloc, csr, maker, place, index, change)? {
            Some(true) => refused = refused.saturating_add(1),
            Some(false) => passed = passed.saturating_add(1),
            None => {}
        }
    }
    Ok((refused, passed))
}

/// More numbers than a list has.
const MOST: usize = 24;

/// Two ways of one cost, arcs side by side, a loop, and shortcuts over shortcuts.
const TANGLED: [ArcRec; 14] = arcs![
    (0, 1, 3),
    (1, 2, 4),
    (2, 3, 5),
    (3, 4, 6),
    (4, 0, 7),
    (0, 1, 2),
    (2, 0, 6),
    (1, 3, 9),
    (4, 4, 1),
    (3, 1, 2),
    (4, 5, 8),
    (5, 6, 1),
    (6, 2, 3),
    (5, 0, 15),
];

#[test]
fn are_refused_or_tell_the_same(rt: HostRuntime) -> Result<(), Fail> {
    let alloc = rt.alloc();
    for (n, arcs) in [(6, EXAMPLE_ARCS.as_slice()), (7, TANGLED.as_slice())] {
        let csr = build(&rt, alloc, n, arcs)?;
        for maker in MAKERS {
            assert_seen(&rt, alloc, &csr, maker)?;
        }
    }
    Ok(())
}

/// Asserts that in each list something spoiled is refused.
fn assert_seen(rt: &impl Abort, alloc: Global, csr: &Csr, maker: Maker) -> Result<(), Fail> {
    for place in LISTS {
        let mut refused = 0_u32;
        for change in CHANGES {
            let (seen, _) = spoil_all(rt, alloc, csr, maker, place, change)?;
            refused = refused.saturating_add(seen);
        }
        assert!(rt; refused > 0, "{maker:?}, {place:?}");
    }
    Ok(())
}

// All weights of these arcs are positive.
#[test]
fn each_lower_weight_is_refused(rt: HostRuntime) -> Result<(), Fail> {
    let alloc = rt.alloc();
    let csr = build(&rt, alloc, 7, &TANGLED)?;
    for maker in MAKERS {
        for list in [ArcsUp, ArcsDown] {
            let place = (list, Weight);
            let (refused, passed) = spoil_all(&rt, alloc, &csr, maker, place, Change::Less)?;
            assert!(rt; refused > 5 && passed == 0);
        }
    }
    Ok(())
}
