//! The runs that a question needs, and those that teams of workers do side by side.

pub(crate) mod pair_queries;
pub(crate) mod solves;
pub(crate) mod source_tasks;
pub(crate) mod team_watch;
