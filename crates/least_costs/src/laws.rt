//! Laws of networks, costs and teams. Each is the contract of a function that does nothing.

ghost use Rattle.least_costs.specs.Laws.{CostsAreLabels, CostsFollowTheArcs, NetworksGrow};
ghost use Rattle.least_costs.specs.Teams.{TeamsShareWorkers};

/// States that a grown network is that of the arcs before and the added ones, whatever an arc costs.
pub fn networks_grow()
    ensures { NetworksGrow }
{}

/// States that vertices, arcs and what an arc costs decide each cost from a start: neither the plan nor the way to the
/// network counts. So costs after added arcs are those of a network made of all arcs at once.
pub fn costs_follow_the_arcs()
    ensures { CostsFollowTheArcs }
{}

/// The cost to a vertex is its label in the list of all least labels, which there is; `None` is `INF`.
pub fn costs_are_labels()
    ensures { CostsAreLabels }
{
    route_walks::laws::least_labels_exist();
    route_walks::laws::inf_means_no_walk();
}

/// States that each worker is in one team, and that each team has a worker if there are no more teams than workers.
pub fn teams_share_workers()
    ensures { TeamsShareWorkers }
{}
