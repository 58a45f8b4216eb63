//! The lines of an answer, and the sink that they are written through.

pub(crate) mod blocks;
pub(crate) mod line_walks;
pub(crate) mod lines;
pub(crate) mod near_block;
pub(crate) mod near_pairs;
pub(crate) mod pairs;
pub(crate) mod sink;
pub(crate) mod walked_pairs;
