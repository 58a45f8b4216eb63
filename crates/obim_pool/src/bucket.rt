//! The bucket of a label, if buckets widen with it.

ghost use Rattle.std.specs.Prelude.{◌≡◌, ◌<◌};
ghost use Rattle.obim_pool.specs.Scales.{widening_bucket};
ghost use Rattle.obim_pool.specs.declared.bucket.TheConstants.{BUCKETS};

/// Labels below this have a bucket each; larger ones keep as many leading bits as this has.
const NARROW_LABELS: u64 = 1 << 8;

/// The number of buckets for all labels of 64 bits.
pub const BUCKETS: u64 = 7424;

/// The bucket of a label: below 256 the label itself, and above it rounded down to its leading eight bits, as in
/// [HdrHistogram](http://hdrhistogram.org). There are 128 for each doubling: a thousand or two for most graphs.
pub fn bucket_of(label: u64) -> u64
    ensures exact { result ≡ widening_bucket label }
    ensures narrow { label < 256 → result ≡ label }
    ensures few { result < BUCKETS }
{
    if label < NARROW_LABELS {
        return label;
    }
    let bits = 56_u32.saturating_sub(label.leading_zeros());
    u64::from(bits) * (NARROW_LABELS / 2) + (label >> bits)
}
