// Which kernel two runs are counted by.
ghost use Rattle.std.specs.Prelude.{◌≡◌, ℕ, ◌*◌, ◌<◌, ◌≤◌, true, false, List, length, slice_index};
ghost use Rattle.model.specs.Limits.{max_events};
ghost use Rattle.edge_pair.specs.Offsets.{Ordered};
ghost use Rattle.range_query.specs.Ladder.{LadderOf};
ghost use Rattle.counting.specs.Kernels.{LastAdmits, Leads, Right};

use crate::method::Method;
use edge_pair::{EdgePair, greatest_distance, shortest_route};
use model::value_at;
use range_query::{WIDEST_AT, first_admitting};

// The kernel of a method, or none: all pairs of the two runs are within reach from one threshold on and none before, or one threshold
// parts them, with none within reach before it and all behind it.
#[derive(Clone, Copy)]
pub enum Kernel {
    RangeQuery,
    CountAugmentation,
    NeighborSharing,
    AtOnce(usize),
    Parted(usize),
}

// Up to so many pairs are looked at one by one, unless the first threshold admits all of them or only the last one admits any.
const FEWEST_PAIRS: u64 = 4;

// Up to so many are, where some threshold may part them.
const FEW_PAIRS: u64 = 25;

// Up to so many are with nothing else asked, where LENGTHS times the length of both edges is at least WIDEST_GAPS times the widest gap
// between two thresholds or before the first.
const PARTED_PAIRS: u64 = 120;

const LENGTHS: u64 = 2;

const WIDEST_GAPS: u64 = 3;

// Up to so many events of the second run are compared with the one threshold that parts the pairs.
const FEW_TO_COMPARE: usize = 10;

// More pairs of two edges are looked at one by one where the second run has at most so many events for each threshold that may part
// them.
const EVENTS_A_THRESHOLD: u64 = 4;

// On one edge it may have so many for each. There looking numbers up takes longer, and so does moving cursors, and of a run with itself
// each two events are looked at once.
const EVENTS_A_THRESHOLD_ON_ONE_EDGE: u64 = 15;

// Moving cursors over so many events at one offset counts as much as moving them on to another offset.
const EVENTS_TO_AN_OFFSET: usize = 16;

// Numbers of events are cut off here, above the limit on events, so that products of two fit.
const MANY: usize = 65536;

// The number of pairs; no more than the square of MANY.
pub(crate) fn pairs_of(a: usize, b: usize) -> u64
    ensures { a ≤ max_events → b ≤ max_events → result ≡ a * b }
{
    (a.min(MANY) * b.min(MANY)) as u64
}

// The limit for two edges, or for one edge with itself.
fn events_a_threshold(same: bool) -> u64
    ensures { result ≤ 15 }
{
    if same {
        EVENTS_A_THRESHOLD_ON_ONE_EDGE
    } else {
        EVENTS_A_THRESHOLD
    }
}

// On one edge, moving cursors should be faster than looking numbers up: at each of all thresholds the cursors are moved to every offset
// and over every event, and numbers are looked up for every offset at the thresholds that may part the pairs, which counts twice.
fn cursors_pay(length: u32, events: usize, thresholds: usize, parting: usize) -> bool {
    let passed = events.min(MANY);
    let offsets = passed.min(length as usize + 1);
    let moves = thresholds.min(MANY) * (passed + EVENTS_TO_AN_OFFSET * offsets);
    let looks = parting.min(MANY) * (2 * EVENTS_TO_AN_OFFSET * offsets);
    moves <= looks
}

// How many of so many thresholds part the pairs of one event with those of the second run, in the mean over the first edge. All do, unless
// they lie within fewer metres than half of both edges: most events of the first edge are then too far away from the second for any.
fn parting(edges: EdgePair, between: usize, last: u32) -> u64
    ensures { result ≤ 65536 }
{
    let all = between.min(MANY) as u64;
    if edges.same {
        return all;
    }
    let both = edges.length1 as u64 + edges.length2 as u64;
    let twice = 2 * (last as u64).saturating_sub(shortest_route(edges));
    if both <= twice {
        return all;
    }
    all * twice / both
}

// Looking at pairs one by one, moving cursors or looking numbers up, by how many of so many thresholds may part the pairs, from the one
// at a place on.
#[tactic(auto, using(crate::specs::Kernels::by_range_query, crate::specs::Kernels::by_count_augmentation, crate::specs::Kernels::by_neighbor_sharing))]
fn by_thresholds(
    edges: EdgePair,
    from: usize,
    others: usize,
    thresholds: usize,
    ladder: &[u32],
) -> Kernel
    ensures { (ts : List ℕ) → Right ts edges result }
{
    let to = first_admitting(ladder, greatest_distance(edges)).min(thresholds);
    let between = to.saturating_sub(from);
    let last = value_at(ladder, to.saturating_sub(1));
    if others as u64 <= events_a_threshold(edges.same) * parting(edges, between, last) {
        return Kernel::RangeQuery;
    }
    if edges.same && cursors_pay(edges.length1, others, thresholds, between) {
        return Kernel::NeighborSharing;
    }
    Kernel::CountAugmentation
}

// There are not many pairs, and the two edges are long beside the gaps between thresholds, so that thresholds are likely to part the
// pairs.
fn are_likely_parted(edges: EdgePair, pairs: u64, ladder: &[u32]) -> bool {
    let both = edges.length1 as u64 + edges.length2 as u64;
    pairs <= PARTED_PAIRS && WIDEST_GAPS * value_at(ladder, WIDEST_AT) as u64 <= LENGTHS * both
}

// The threshold at a place admits so many metres, or there is none.
fn is_next(metres: u64, place: usize, thresholds: &[u32]) -> bool
    ensures admits { result ≡ true → place < length thresholds.now → metres ≤ slice_index thresholds.now place }
    ensures in_list { result ≡ false → place < length thresholds.now }
{
    thresholds.len() <= place || metres <= thresholds[place] as u64
}

// Only the last of at least two thresholds admits so many metres, and it admits so many more.
fn only_last_admits(near: u64, far: u64, thresholds: &[u32]) -> bool
    ensures { result ≡ true → LastAdmits near far thresholds.now }
{
    match thresholds {
        [.., before, last] => (*before as u64) < near && far <= *last as u64,
        _ => false,
    }
}

// What should be fastest for two runs of so many events.
#[tactic(auto, using(crate::specs::Kernels::by_range_query))]
fn cheapest(
    edges: EdgePair,
    events: usize,
    others: usize,
    thresholds: &[u32],
    ladder: &[u32],
) -> Kernel
    ensures { Ordered thresholds.now → LadderOf thresholds.now ladder.now → Right thresholds.now edges result }
{
    let pairs = pairs_of(events, others);
    if are_likely_parted(edges, pairs, ladder) {
        return Kernel::RangeQuery;
    }
    let far = greatest_distance(edges);
    if far <= value_at(thresholds, 0) as u64 {
        return Kernel::AtOnce(0);
    }
    let near = shortest_route(edges);
    if only_last_admits(near, far, thresholds) {
        return Kernel::AtOnce(thresholds.len() - 1);
    }
    if pairs <= FEWEST_PAIRS {
        return Kernel::RangeQuery;
    }
    let from = first_admitting(ladder, near);
    if is_next(far, from, thresholds) {
        return Kernel::AtOnce(from);
    }
    if others <= FEW_TO_COMPARE && is_next(far, from + 1, thresholds) {
        return Kernel::Parted(from);
    }
    if pairs <= FEW_PAIRS {
        return Kernel::RangeQuery;
    }
    by_thresholds(edges, from, others, thresholds.len(), ladder)
}

// The kernel of the method that is asked for.
pub(crate) fn kernel_for(
    method: Method,
    edges: EdgePair,
    events: usize,
    others: usize,
    thresholds: &[u32],
    ladder: &[u32],
) -> Kernel
    ensures leads { Leads method result }
    ensures right { Ordered thresholds.now → LadderOf thresholds.now ladder.now → Right thresholds.now edges result }
{
    match method {
        Method::RangeQuery => Kernel::RangeQuery,
        Method::CountAugmentation => Kernel::CountAugmentation,
        Method::NeighborSharing => Kernel::NeighborSharing,
        Method::Cheapest => cheapest(edges, events, others, thresholds, ladder),
    }
}
