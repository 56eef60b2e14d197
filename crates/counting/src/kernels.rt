// The kernel of each method.
ghost use Rattle.std.specs.Prelude.{length, slice_index};
ghost use Rattle.edge_pair.specs.Offsets.{EdgesLaid};
ghost use Rattle.edge_pair.specs.Totals.{Added};
ghost use Rattle.edge_pair.specs.Within.{reached_pairs};
ghost use Rattle.counting.specs.Kernels.{PartedAt, Small, Right, ListsFit, Adds};
ghost use Rattle.counting.specs.Runs.{TwoReady};

use crate::choice::{Kernel, kernel_for, pairs_of};
use crate::method::Method;
use edge_pair::{EdgePair, change_from};
use range_query::count_within;

// Adds the pairs within the threshold at a place from there on, and all pairs from the next place on.
fn add_parted(
    edges: EdgePair,
    xs: &[u32],
    ys: &[u32],
    thresholds: &[u32],
    place: usize,
    totals: &mut [u64],
)
    ensures { PartedAt thresholds.now edges place → Small thresholds.now → EdgesLaid edges xs.now ys.now → Added (length thresholds.now) (λ k. reached_pairs (slice_index thresholds.now k) edges xs.now ys.now) totals.old totals.new }
{
    if thresholds.len() <= place {
        return;
    }
    let within = count_within(edges, xs, ys, thresholds[place]);
    change_from(totals, place, 0, within);
    change_from(totals, place + 1, within, pairs_of(xs.len(), ys.len()));
}

// Adds, at each threshold, the pairs of an event of a run on the first edge and one of a run on the second, by a kernel: what this
// counts from is promised whatever the lists hold.
fn add_by(
    kernel: Kernel,
    edges: EdgePair,
    xs: &[u32],
    ys: &[u32],
    near_first: &[u32],
    near_second: &[u32],
    thresholds: &[u32],
    ladder: &[u32],
    totals: &mut [u64],
)
    ensures adds { ListsFit thresholds.now ladder.now xs.now ys.now → Adds thresholds.now ladder.now edges xs.now ys.now near_first.now near_second.now totals.old totals.new kernel }
    ensures added { TwoReady thresholds.now ladder.now edges xs.now ys.now near_first.now near_second.now → Right thresholds.now edges kernel → Added (length thresholds.now) (λ k. reached_pairs (slice_index thresholds.now k) edges xs.now ys.now) totals.old totals.new }
{
    match kernel {
        Kernel::RangeQuery => range_query::add_pairs(edges, xs, ys, ladder, totals),
        Kernel::CountAugmentation => count_augmentation::add_pairs(
            edges,
            xs,
            ys,
            near_first,
            near_second,
            thresholds,
            totals,
        ),
        Kernel::NeighborSharing => neighbor_sharing::add_pairs(edges, xs, ys, thresholds, totals),
        Kernel::AtOnce(place) => change_from(totals, place, 0, pairs_of(xs.len(), ys.len())),
        Kernel::Parted(place) => add_parted(edges, xs, ys, thresholds, place, totals),
    }
}

// The same by the kernel of the method that is asked for.
pub(crate) fn add_pairs(
    method: Method,
    edges: EdgePair,
    xs: &[u32],
    ys: &[u32],
    near_first: &[u32],
    near_second: &[u32],
    thresholds: &[u32],
    ladder: &[u32],
    totals: &mut [u64],
)
    ensures { TwoReady thresholds.now ladder.now edges xs.now ys.now near_first.now near_second.now → Added (length thresholds.now) (λ k. reached_pairs (slice_index thresholds.now k) edges xs.now ys.now) totals.old totals.new }
{
    let kernel = kernel_for(method, edges, xs.len(), ys.len(), thresholds, ladder);
    add_by(
        kernel,
        edges,
        xs,
        ys,
        near_first,
        near_second,
        thresholds,
        ladder,
        totals,
    );
}
