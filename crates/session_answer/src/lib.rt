//! The reply to each request after a graph, as soon as its last line has come.
//!
//! `answer_session` reads a graph and then requests, one after another, and writes a reply to each. The reply is what
//! `answer` of `job_answer` writes for the job of the graph so far and this request, and then the line `r N M LINE`.
//! LINE is the last line of the request. If a line of the request is wrong, it is the one line `e LINE WORDS`. The head of
//! a request can name the kind of labels and the lines of its answer; else they are those of the session.
//!
//! A request can also remove, add or list arcs, and a change stays.
//!
//! It stands on `request_reader`, which says which lines are a request, and on `dimacs_text` for the graph.
//! `answer_lines` has the two lines, `job_answer` the answers, and `least_costs` the network that is kept.
#![tactic(auto)]

mod answering;
mod change;
mod conversation;
mod initial_graph;
mod kind_graph;
pub mod laws;
mod listing;
mod query;
mod session;
mod terms;

pub use answering::answer_session;
