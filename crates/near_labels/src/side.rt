//! The labels that a search from the target hands to the one from the source.

ghost use Rattle.std.specs.Prelude.{◌≡◌, ◌+◌, ◌≤◌, true, min, slice_index};

/// Labels towards a target. From a vertex each walk there costs at least its label, or `low` if that is less.
#[derive(Clone, Copy, Debug)]
pub(crate) struct TargetSide<'a> {
    pub labels: &'a [u64],
    pub low: u64,
}

impl TargetSide<'_> {
    /// Tells if each walk from a vertex to the target costs at least the limit, counted from a label of the vertex.
    #[inline(always)]
    pub(crate) fn is_past(&self, v: u32, label: u64, limit: u64) -> bool
        ensures { result ≡ true → limit ≤ label + min (slice_index self.now.labels.now v) self.now.low }
    {
        match self.labels.get(v as usize) {
            Some(rest) => label.saturating_add((*rest).min(self.low)) >= limit,
            None => false,
        }
    }
}
