//! Laws of printed walks, hops and parents.

ghost use Rattle.walk_report.specs.Parent.{HopsAndParentsFollowTheArcs, HopsAndParentsAreUnique};
ghost use Rattle.walk_report.specs.Printed.{PrintedWalksAreWalks, WalksBelowAgree};
ghost use Rattle.walk_report.specs.Existence.{HopsAndParentsExist};
ghost use Rattle.walk_report.specs.Toward.{WalksTowardAgree};

/// A printed walk goes from the source to its vertex, costs the label and has as many arcs as the hop, by the hops below
/// any limit.
pub fn printed_walks_are_walks()
    ensures { PrintedWalksAreWalks }
{}

/// States that walks below a limit agree if labels are least up to it: labels, hops and printed walks are those of
/// least labels. So a run may stop early.
pub fn walks_below_agree()
    ensures { WalksBelowAgree }
{}

/// States that the walk to a vertex agrees if labels are least up to a limit on the way there: its label, hop and printed
/// walk are those of least labels. So a search may leave alone what is too far from the vertex.
pub fn walks_toward_agree()
    ensures { WalksTowardAgree }
{}

/// Neither the order nor the number of equal arcs changes hops and parents.
pub fn hops_and_parents_follow_the_arcs()
    ensures { HopsAndParentsFollowTheArcs }
{}

/// Arcs, source and least labels decide each hop and each parent.
pub fn hops_and_parents_are_unique()
    ensures { HopsAndParentsAreUnique }
{}

/// With the least labels from a source there are hops and parents.
pub fn hops_and_parents_exist()
    ensures { HopsAndParentsExist }
{
    route_walks::laws::least_labels_exist();
}
