//! Arcs, seeds, and the label that an arc offers its head.

ghost use Rattle.std.specs.Prelude.{◌≡◌};
ghost use Rattle.route_walks.specs.Label.{offer};

/// The label of a vertex that no walk has reached, where sums stop.
pub const INF: u64 = u64::MAX;

/// A graph has at most this many vertices.
pub const MAX_VERTICES: u32 = 1 << 28;

/// A graph has at most this many arcs.
pub const MAX_ARCS: usize = 1 << 32;

/// A directed arc. Vertices are counted from 0; the weight is a cost from 0 to 2^32 - 1.
#[derive(Clone, Copy, Debug, PartialEq, Eq)]
pub struct ArcRec {
    pub tail: u32,
    pub head: u32,
    pub weight: u32,
}

impl ArcRec {
    /// The arc from `tail` to `head`.
    pub const fn new(tail: u32, head: u32, weight: u32) -> ArcRec
        ensures { result ≡ record { tail = tail; head = head; weight = weight } }
    {
        ArcRec { tail, head, weight }
    }
}

/// A vertex, counted from 0, where walks may begin, and the number that they start with. A caller's start is at most
/// 2^60.
#[derive(Clone, Copy, Debug, PartialEq, Eq)]
pub struct Seed {
    pub vertex: u32,
    pub start: u64,
}

impl Seed {
    /// The seed of walks from `vertex` that start with `start`.
    pub const fn new(vertex: u32, start: u64) -> Seed
        ensures { result ≡ record { vertex = vertex; start = start } }
    {
        Seed { vertex, start }
    }
}

/// The label that an arc offers its head: the sum of its tail's label and its weight, at most `INF`.
pub fn offer(label: u64, weight: u32) -> u64
    ensures { result ≡ offer label weight }
{
    label.saturating_add(u64::from(weight))
}
