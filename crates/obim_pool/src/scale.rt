//! The widths of buckets that fit a graph.

ghost use Rattle.std.specs.Prelude.{◌≡◌, ◌<◌, min};
ghost use Rattle.obim_pool.specs.Scales.{scale_bucket};
ghost use Rattle.obim_pool.specs.declared.scale.TheConstants.{MOST_BUCKETS};

use crate::bucket::bucket_of;
use std::marker::Model;

/// The most buckets of a scale.
pub const MOST_BUCKETS: u64 = 15_616;

/// Below this many widths no bucket of `bucket_of` is wider than one.
const NARROW_WIDTHS: u64 = 256;

/// The most even buckets: the looks into lower ones then take less than a second.
const MAX_EVEN_BUCKETS: u64 = 8192;

/// The greatest shift: it leaves less than `MAX_EVEN_BUCKETS` of a label of 64 bits.
const MAX_WIDTH_BITS: u32 = 51;

/// Buckets as wide as those of `bucket_of`, but no wider than 2^`shift` while the label is below `even` times that.
///
/// So buckets widen up to a width that fits a graph's weights, are then even, and widen again if there would be too
/// many.
#[derive(Clone, Copy, Debug, PartialEq, Eq)]
pub struct Scale {
    shift: u32,
    even: u64,
}

impl Model for Scale {
    ghost use Rattle.obim_pool.specs.Scales.{AreWidths, Widths};

    ghost Value = { Widths };

    ghost view = { λ s. record { shift = s.shift; even = s.even } };

    ghost inverse = { λ w. record { shift = w.shift; even = w.even } };

    ghost invariant = { λ s. AreWidths s.shift s.even };
}

impl Scale {
    /// Buckets of at most 2^`shift` labels below `even` times that. `shift` is at most 51 and `even` at most 8192:
    /// larger ones count as these.
    pub fn new(shift: u32, even: u64) -> Scale
        ensures { result ≡ record { shift = min shift 51; even = min even 8192 } }
    {
        Scale {
            shift: shift.min(MAX_WIDTH_BITS),
            even: even.min(MAX_EVEN_BUCKETS),
        }
    }

    /// The buckets of `bucket_of`.
    pub fn widening() -> Scale
        ensures { result ≡ record { shift = 51; even = 0 } }
    {
        Scale::new(MAX_WIDTH_BITS, 0)
    }

    /// The bucket of a label, which never falls as labels rise.
    #[inline(always)]
    pub fn bucket_of(self, label: u64) -> u64
        ensures exact { result ≡ scale_bucket self label }
        ensures narrow { label < 256 → result ≡ label }
        ensures few { result < MOST_BUCKETS }
    {
        let widths = label >> self.shift;
        if widths < NARROW_WIDTHS {
            bucket_of(label)
        } else if widths < self.even {
            // Below 256 widths `bucket_of` has 128 for each of `shift` doublings, and 256.
            u64::from(self.shift) * 128 + widths
        } else {
            bucket_of(label) + self.even
        }
    }
}
