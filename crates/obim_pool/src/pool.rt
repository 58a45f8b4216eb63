//! The pool that an engine of workers asks.

use std::sync::Wait;

/// A pool of vertices to work on. Lower metrics are preferred, softly. Each worker has a side of its own.
///
/// A pool may drop, repeat or invent vertices; only a side stays a side of its pool.
pub trait WorkPool {
    /// A worker's side of the pool.
    type Side;

    /// States that the side belongs to the pool.
    ghost is_side: { Self → Self.Side → Type 0 };

    /// Hands in the vertex `v`. Returns false if it was refused, for example for want of memory.
    fn push<H: Wait>(&self, rt: &H, side: &mut Self::Side, v: u32, metric: u64) -> bool
        requires { is_side self.now side.old }
        ensures { is_side self.now side.new };

    /// Draws a vertex; `None` if the pool has none for this side now.
    fn pop<H: Wait>(&self, rt: &H, side: &mut Self::Side) -> Option<u32>
        requires { is_side self.now side.old }
        ensures { is_side self.now side.new };

    /// Does as `push` if that takes no wait. Returns false if nothing was done, and `push` is to be called.
    fn push_now(&self, _side: &mut Self::Side, _v: u32, _metric: u64) -> bool
        requires { is_side self.now _side.old }
        ensures { is_side self.now _side.new }
    {
        false
    }

    /// Does as `pop` if that takes no wait. `None` if nothing was done, and `pop` is to be called.
    fn pop_now(&self, _side: &mut Self::Side) -> Option<u32>
        requires { is_side self.now _side.old }
        ensures { is_side self.now _side.new }
    {
        None
    }

    /// The vertex that the `by`th pop of this side from now on is likely to draw: a hint for prefetching.
    fn ahead(&self, _side: &Self::Side, _by: usize) -> Option<u32> {
        None
    }
}
