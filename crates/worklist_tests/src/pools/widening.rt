//! Buckets that widen, and the order in which their pool gives vertices.

use crate::pools::calls::{Call, expect_calls};
use obim_pool::{BUCKETS, MOST_BUCKETS, ObimSide, Scale, WideningPool, Worklist, bucket_of};
use std::process::Abort;

// The leading eight bits of a label: worked by hand.
const BUCKETS_OF_LABELS: [(u64, u64); 13] = [
    (0, 0),
    (1, 1),
    (255, 255),
    (256, 256),
    (257, 256),
    (258, 257),
    (511, 383),
    (512, 384),
    (515, 384),
    (516, 385),
    (1_000_000, 1780),
    (u64::MAX - 1, BUCKETS - 1),
    (u64::MAX, BUCKETS - 1),
];

// Worked by hand: widths of 8 up to 512 of them, then the leading eight bits; and the ends of scales. A shift, a number
// of even widths, a label and its bucket.
const BUCKETS_OF_SCALES: [(u32, u64, u64, u64); 20] = [
    (3, 512, 255, 255),
    (3, 512, 257, 256),
    (3, 512, 2047, 639),
    (3, 512, 2055, 640),
    (3, 512, 2056, 641),
    (3, 512, 4095, 895),
    (3, 512, 4096, 1280),
    (3, 512, 4127, 1280),
    (3, 512, 4128, 1281),
    (3, 512, u64::MAX, BUCKETS + 511),
    (3, 0, 2047, 639),
    (3, 0, 2056, 640),
    (3, 0, 4096, 768),
    (51, 0, 2056, 640),
    (51, 0, u64::MAX, BUCKETS - 1),
    (0, 8192, 8191, 8191),
    (0, 8192, 8192, 9088),
    (0, 8193, u64::MAX, MOST_BUCKETS - 1),
    (60, u64::MAX, 1 << 59, 6784),
    (60, u64::MAX, u64::MAX, 14719),
];

#[test]
fn buckets_of_labels(rt: HostRuntime) {
    assert!(rt; Scale::widening() == Scale::new(51, 0));
    for (label, bucket) in BUCKETS_OF_LABELS {
        assert!(rt; bucket_of(label) == bucket, "{label}");
    }
    for (shift, even, label, bucket) in BUCKETS_OF_SCALES {
        let found = Scale::new(shift, even).bucket_of(label);
        assert!(rt; found == bucket, "{label} by {shift} and {even}");
    }
}

// The next label has the same bucket or the next one, and no bucket of a scale has labels of two widening ones.
fn expect_next(rt: &impl Abort, scale: Scale, label: u64) {
    let next = label.saturating_add(1);
    let widened = bucket_of(next).wrapping_sub(bucket_of(label));
    assert!(rt; widened <= 1, "{label}");
    let is_new = scale.bucket_of(next) != scale.bucket_of(label);
    assert!(rt; is_new || widened == 0, "{label}");
}

fn expect_nexts(rt: &impl Abort, scale: Scale, middle: u64) {
    for label in middle.saturating_sub(300)..middle.saturating_add(300) {
        expect_next(rt, scale, label);
    }
}

// Around each power of two.
#[test]
fn buckets_leave_no_number_out(rt: HostRuntime) {
    let scales = [
        (0, 0),
        (0, 8192),
        (3, 100),
        (12, 4096),
        (51, 300),
        (51, 8192),
    ];
    for (shift, even) in scales {
        for bits in 0..64_u32 {
            expect_nexts(&rt, Scale::new(shift, even), 1 << bits);
        }
    }
}

// 1000 and 1001 share a bucket, whose last vertex comes first; 999 is in the one before.
const PUSHES: &[(usize, Call)] = &[(0, Call::Push(&[(1, 1000), (2, 2000), (3, 1001), (4, 999)]))];

const LOWEST_FIRST: &[(usize, Call)] = &[
    (0, Call::Pop(&[Some(4), Some(3)])),
    (0, Call::Ahead(1, Some(1))),
    (0, Call::Ahead(2, None)),
    (0, Call::Pop(&[Some(1), Some(2), None])),
];

fn has_figures(sides: &[ObimSide], looks: u64) -> bool {
    let three = Worklist {
        buckets: 3,
        looks,
        chunks: 3,
    };
    Worklist::of(sides) == three
}

#[test]
fn near_metrics_share_a_bag(rt: HostRuntime) {
    let opened = WideningPool::open(rt.alloc(), 1, 256, Scale::widening());
    let (pool, mut sides) = opened.expect(&rt, "memory for a pool");
    expect_calls(&rt, &pool, &mut sides, 0, PUSHES);
    assert!(rt; has_figures(&sides, 0));
    expect_calls(&rt, &pool, &mut sides, 1, LOWEST_FIRST);
    // Worked by hand: the bags of 999 and 1000 were found empty 4 times, that of 2000 3 times. The first vertex was
    // taken without a look.
    assert!(rt; has_figures(&sides, 11));
}
