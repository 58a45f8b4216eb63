//! The target of an arc.

ghost use Rattle.std.specs.Prelude.{◌≡◌, map};
ghost use Rattle.csr_graph.specs.Layout.{unit_target};

/// The vertex at an arc's head, and the arc's weight.
#[derive(Clone, Copy, Debug, PartialEq, Eq)]
pub struct Target {
    pub head: u32,
    pub weight: u32,
}

/// Sets the weight of each target to 1.
pub(crate) fn set_unit_weights(targets: &mut [Target])
    ensures { targets.new ≡ map unit_target targets.old }
{
    for target in targets.iter_mut() {
        *target = Target {
            head: target.head,
            weight: 1,
        };
    }
}
