//! The job of a text, or its first wrong line.
//!
//! A job is a graph file (`.gr`) and then an auxiliary file of sources (`.ss`) or of pairs (`.p2p`). The formats are
//! those of the 9th DIMACS Implementation Challenge on shortest paths. Arcs that are added to the graph may follow, a
//! section of this project's own.
//!
//! `read_job` gives the job of a text, or the number of the first wrong line and its fault. `JobReader` does so for a
//! text that comes in pieces. In the interfaces vertices are counted from 0; in the texts they are counted from 1.
//!
//! It stands on `route_walks`, whose arcs a job holds. The `put_` calls of `answer_lines`, which append the
//! lines of an answer, can be called by this crate's name too.
#![tactic(auto)]

mod after_graph;
mod arc_runs;
mod draft;
mod explanation;
mod fast_arc;
mod fault;
mod form;
mod head;
mod job;
pub mod laws;
mod line;
mod reader;
mod request_draft;
mod stage;

pub use answer_lines::{
    put_components, put_distances, put_grown, put_label, put_labels, put_pair, put_source, put_walk,
};
pub use arc_runs::{ArcRuns, Parts, ReadAhead, SHORTEST_ARC_BYTES, read_side_by_side};
pub use explanation::{Beginning, Expected, ExplainedFault, Explanation, MAX_KEPT_BYTES, Place};
pub use fault::{LineKind, TextFault};
pub use form::{Form, Item, Limit, MAX_ADDED, MAX_QUERIES, MAX_TEXT_ARCS, Section};
pub use head::{HeadForm, HeadKind, HeadLines, SectionHead, begins_section};
pub use job::{Ask, Job};
pub use line::begins_comment;
pub use reader::{JobReader, read_job};
pub use request_draft::RequestDraft;
