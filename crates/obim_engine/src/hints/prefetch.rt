//! Prefetching for the next visits.

ghost use Rattle.std.specs.Prelude.{◌≡◌};

use crate::shared::Shared;
use label_words::WorkSeat;
use obim_pool::WorkPool;

/// Loads what the next two vertices of the pool need, side by side: of the first its first arc, of the second its words
/// and the place of its row.
#[inline(always)]
pub(crate) fn prefetch<P: WorkPool, G>(
    shared: &Shared<'_, P, G>,
    n: u32,
    seat: &WorkSeat,
    side: &P::Side,
)
    requires vertices { n ≡ shared.now.run.csr.now.n }
    requires words { seat.now.words ≡ shared.now.words.now }
    requires graph { shared.now.run.csr.now ≡ seat.now.known.graph }
{
    let next = shared.run.pool.ahead(side, 1);
    let second = shared.run.pool.ahead(side, 2);
    if let Some(v) = second {
        prefetch_words(shared, n, seat, v);
    }
    if let Some(v) = next {
        prefetch_row(shared, n, seat, v);
    }
}

#[inline(always)]
fn prefetch_words<P, G>(shared: &Shared<'_, P, G>, n: u32, seat: &WorkSeat, v: u32)
    requires vertices { n ≡ shared.now.run.csr.now.n }
    requires words { seat.now.words ≡ shared.now.words.now }
    requires graph { shared.now.run.csr.now ≡ seat.now.known.graph }
{
    let csr = shared.run.csr;
    // A load whose value decides nothing would be left out.
    if v < n && csr.first(v) < csr.end(v) {
        shared.words.prefetch_label(seat, v);
    }
}

#[inline(always)]
fn prefetch_row<P, G>(shared: &Shared<'_, P, G>, n: u32, seat: &WorkSeat, v: u32)
    requires vertices { n ≡ shared.now.run.csr.now.n }
    requires words { seat.now.words ≡ shared.now.words.now }
    requires graph { shared.now.run.csr.now ≡ seat.now.known.graph }
{
    let csr = shared.run.csr;
    if v < n {
        let first = csr.first(v);
        // As above: of an arc back to its tail the words are asked for once more.
        if first < csr.end(v) && csr.target(first).head == v {
            shared.words.prefetch_label(seat, v);
        }
    }
}
