//! The hierarchy of a network.

ghost use Rattle.std.specs.Prelude.{IfSome, IsNone};

use hierarchy::Hierarchy;

/// The most pairs, or added arcs, of a change after which a hierarchy that was given up is not tried again.
const MAX_CHANGES: usize = 1 << 10;

/// The hierarchy of a network; none if it was given up.
#[derive(Debug, Drop)]
pub(crate) struct Shortcuts {
    pub hierarchy: Option<Hierarchy>,
}

impl Shortcuts {
    /// Those of a network after a change of so many pairs or arcs: no hierarchy, which may be tried, unless it was given up
    /// before and the change is small.
    pub(crate) fn after(before: &Option<Shortcuts>, changes: usize) -> Option<Shortcuts>
        ensures { IfSome result (λ shortcuts. IsNone shortcuts.hierarchy) }
    {
        match before {
            Some(shortcuts) if shortcuts.hierarchy.is_none() && changes <= MAX_CHANGES => {
                Some(Shortcuts { hierarchy: None })
            }
            _ => None,
        }
    }
}
