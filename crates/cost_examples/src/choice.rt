//! The nearest depot of a customer and the next one, one depot more at a time.

ghost use Rattle.std.specs.Prelude.{ℕ, List, [], ◌∷◌, ◌++◌};
ghost use Rattle.least_costs.specs.Costs.{IsCostTo, IsLeastCost};
ghost use Rattle.least_costs.specs.Network.{NetworkSeen};
ghost use Rattle.least_costs.specs.declared.start.Start.TheVariants.{At};
ghost use Rattle.cost_examples.specs.Spares.{AreNearest};
ghost use Rattle.cost_examples.specs.declared.choice.Choices.TheVariants.{One, Two};

/// A depot, and the least cost from there.
#[derive(Clone, Copy, Debug, PartialEq, Eq)]
pub struct Choice {
    pub depot: u32,
    pub cost: u64,
}

/// The nearest depot, and the one to take if that is closed, as far as there are such depots.
#[derive(Clone, Copy, Debug, PartialEq, Eq)]
pub enum Choices {
    Nowhere,
    One(Choice),
    Two(Choice, Choice),
}

/// Takes one depot more, from which it costs this, into the choices among others.
pub fn with_depot(found: Choices, depot: u32, cost: Option<u64>) -> Choices
    ensures { (net : NetworkSeen) (v : ℕ) (depots : List ℕ)
        → AreNearest net v depots found
        → IsCostTo net (At depot) v cost
        → AreNearest net v (depots ++ depot ∷ []) result }
{
    match cost {
        None => found,
        Some(cost) => nearer(found, Choice { depot, cost }),
    }
}

fn nearer(found: Choices, new: Choice) -> Choices
    ensures { (net : NetworkSeen) (v : ℕ) (depots : List ℕ)
        → AreNearest net v depots found
        → IsLeastCost net (At new.depot) v new.cost
        → AreNearest net v (depots ++ new.depot ∷ []) result }
{
    match found {
        Choices::Nowhere => Choices::One(new),
        Choices::One(best) => second(best, new),
        Choices::Two(best, next) => third(best, next, new),
    }
}

/// The choices of two depots, or of one that comes again.
fn second(best: Choice, new: Choice) -> Choices
    ensures { (net : NetworkSeen) (v : ℕ) (depots : List ℕ)
        → AreNearest net v depots (One best)
        → IsLeastCost net (At new.depot) v new.cost
        → AreNearest net v (depots ++ new.depot ∷ []) result }
{
    if best.depot == new.depot {
        return Choices::One(best);
    }
    if new.cost < best.cost {
        return Choices::Two(new, best);
    }
    Choices::Two(best, new)
}

/// The two nearest of three depots, or of two of which one comes again.
fn third(best: Choice, next: Choice, new: Choice) -> Choices
    ensures { (net : NetworkSeen) (v : ℕ) (depots : List ℕ)
        → AreNearest net v depots (Two best next)
        → IsLeastCost net (At new.depot) v new.cost
        → AreNearest net v (depots ++ new.depot ∷ []) result }
{
    if best.depot == new.depot {
        return Choices::Two(best, next);
    }
    if next.depot == new.depot {
        return Choices::Two(best, next);
    }
    if new.cost < best.cost {
        return Choices::Two(new, best);
    }
    if new.cost < next.cost {
        return Choices::Two(best, new);
    }
    Choices::Two(best, next)
}
