//! The steps that seats can take.

/// One step of one seat, named by its place in the list of views, from 0.
#[derive(Clone, Copy, Debug, PartialEq, Eq)]
pub enum Event {
    /// A seat without a vertex takes the mark of one, and holds the vertex if it was marked.
    Take(usize, u32),
    /// A seat reads the label of the vertex that it holds.
    Read(usize),
    /// A seat relaxes the next arc of its row, and owes a mark if the head's label falls.
    Relax(usize),
    /// A seat that owes a mark adds a credit for it to the total.
    Raise(usize),
    /// A seat that owes a mark adds this many credits to the total, for it and others to come.
    RaiseBy(usize, u8),
    /// A seat sets the mark that it owes, and keeps the credit if it was set already.
    SetMark(usize),
    /// A seat at its row's end gives its credits back and is idle.
    Finish(usize),
    /// A seat at its row's end keeps its credits for marks to come.
    Keep(usize),
    /// A seat with credits alone gives this many back.
    Return(usize, u8),
    /// An idle seat saw if the pending total is 0.
    See(usize),
    /// An idle seat gives half its share to a new seat, the last.
    Split(usize),
    /// An idle seat takes in the share of another idle seat, which is spent.
    Join(usize, usize),
}
