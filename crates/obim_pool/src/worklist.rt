//! The counts of buckets, looks and chunks of a worklist.

/// Figures of a pool's sides: for people, not for proofs.
#[derive(Clone, Copy, Debug, PartialEq, Eq)]
pub struct Worklist {
    /// The number of bags. The side that opened the last one knows them all.
    pub buckets: u64,
    /// The number of looks of sides into empty bags.
    pub looks: u64,
    /// The number of chunks opened.
    pub chunks: u64,
}
