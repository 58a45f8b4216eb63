//! The law of buckets.

ghost use Rattle.obim_pool.specs.Scales.{BucketsRise, Widths, scale_bucket, widening_bucket};

/// A larger label has the same bucket or a larger one, by `bucket_of` and by every scale.
pub fn buckets_rise()
    ensures widening { BucketsRise widening_bucket }
    ensures scaled { (scale : Widths) → BucketsRise (scale_bucket scale) }
{}
