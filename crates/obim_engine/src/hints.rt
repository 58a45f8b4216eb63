//! Hints: widths of buckets, prefetching, waits, sweeps and early ends. They promise nothing of labels.

pub(crate) mod aim;
pub(crate) mod pace;
pub(crate) mod patience;
pub(crate) mod pauses;
pub(crate) mod prefetch;
pub(crate) mod widths;
