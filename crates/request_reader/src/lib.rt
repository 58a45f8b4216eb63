//! The requests after a graph, or the wrong line of one.
//!
//! A request is a section after a graph. It asks for sources (`p aux sp ss K` and K lines), also within a bound (`within
//! COST K`), or for pairs (`p2p`, `walk`). Others change the graph (`add`, `cut`, `set`) or list its arcs (`arcs`). Words
//! before the form name the kind of labels and the lines of the answer.
//!
//! `RequestReader` takes the lines one by one. For each it returns the outcome: a request that is whole with it, or one
//! that is refused at it.
//!
//! A request ends at its own last record. One that is refused ends before the second section line in it, or at the end.
//! So each section line belongs to one request.
//!
//! For example after a graph of two vertices, whose last line is line 1:
//!
//! ```text
//! p aux sp ss 2
//! s 1
//! p aux sp p2p 1    line 4 cuts the section of sources off, which is refused there: too few lines
//! q 1 1             the pair is asked
//! ```
//!
//! It stands on `dimacs_text`, by which each line is read, and on `route_walks`.
#![tactic(auto)]

pub mod laws;
mod request;
mod request_reader;

pub use request::{LineEvents, Request};
pub use request_reader::RequestReader;
