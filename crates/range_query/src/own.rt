// The pairs of two runs on one edge. Of a run with itself each two events are looked at once, and count both ways.
ghost use Rattle.std.specs.Prelude.{true, ◌≡◌, ◌*◌, ◌≤◌, leb, length};
ghost use Rattle.model.specs.Counting.{count_if};
ghost use Rattle.model.specs.Limits.{max_events, max_thresholds};
ghost use Rattle.edge_pair.specs.Totals.{Added};
ghost use Rattle.range_query.specs.Ladder.{ladder_length, cells_of, bucket_in};
ghost use Rattle.range_query.specs.Metres.{metres_between, Mirrored, tallied};

use crate::lookup::{Cells, find};
use crate::pairs::{add_row, meet};
use edge_pair::{EdgePair, change_from, to_end};
use model::EventSet;

// True only if two runs are the same on one edge, so that two places are as far apart one way as the other.
fn is_own(edges: EdgePair, xs: &[u32], ys: &[u32]) -> bool
    ensures { result ≡ true → Mirrored edges × (length xs.now ≤ max_events) × (xs.now ≡ ys.now) }
{
    edges.same
        && edges.length1 == edges.length2
        && edges.fs == edges.sf
        && xs.len() <= EventSet::MAX_EVENTS
        && xs == ys
}

// Counts the pairs of so many events at one offset with those of a run, or of a part of one, each from the first threshold on that
// admits its metres.
#[tactic(auto, unfolding(edge_pair::specs::Edges::side_of))]
fn add_row_along(
    edges: EdgePair,
    x: u32,
    many: u64,
    ys: &[u32],
    ladder: &[u32],
    cells: Cells,
    totals: &mut [u64],
)
    requires { (length ladder.now ≡ ladder_length) × (cells ≡ cells_of ladder.now) }
    ensures { Added max_thresholds (λ k. many * count_if (λ y. leb (bucket_in ladder.now (metres_between edges x y)) k) ys.now) totals.old totals.new }
{
    let p = to_end(edges, x, true);
    let q = to_end(edges, x, false);
    let metres_to = |y: u32| meet(edges, p, q, x, y);
    add_row(metres_to, many, ys, ladder, cells, totals);
}

// Counts the ordered pairs of two events of a run, an event with itself included: the events at one offset together, with each other
// and with those before them.
fn add_own(edges: EdgePair, xs: &[u32], ladder: &[u32], cells: Cells, totals: &mut [u64])
    requires { (length ladder.now ≡ ladder_length) × (cells ≡ cells_of ladder.now) × Mirrored edges × (length xs.now ≤ max_events) }
    ensures { Added max_thresholds (tallied ladder.now edges xs.now xs.now) totals.old totals.new }
{
    let at_once = find(ladder, cells, 0);
    let mut before = 0;
    for equals in xs.chunk_by(|a, b| a == b) {
        let many = equals.len() as u64;
        let both_ways = 2 * many;
        add_row_along(
            edges,
            equals[0],
            both_ways,
            &xs[..before],
            ladder,
            cells,
            totals,
        );
        change_from(totals, at_once, 0, many * many);
        before += equals.len();
    }
}

// Counts the pairs of an event of one run and one of another. `add_pairs` has the same loop over another row: one function for both
// would need a closure that is lent the totals, and is no shorter.
fn add_along(
    edges: EdgePair,
    xs: &[u32],
    ys: &[u32],
    ladder: &[u32],
    cells: Cells,
    totals: &mut [u64],
)
    requires { (length ladder.now ≡ ladder_length) × (cells ≡ cells_of ladder.now) }
    ensures { Added max_thresholds (tallied ladder.now edges xs.now ys.now) totals.old totals.new }
{
    for equals in xs.chunk_by(|a, b| a == b) {
        add_row_along(
            edges,
            equals[0],
            equals.len() as u64,
            ys,
            ladder,
            cells,
            totals,
        );
    }
}

// The same, by which of the two it is.
pub(crate) fn add_on_one_edge(
    edges: EdgePair,
    xs: &[u32],
    ys: &[u32],
    ladder: &[u32],
    cells: Cells,
    totals: &mut [u64],
)
    requires { (length ladder.now ≡ ladder_length) × (cells ≡ cells_of ladder.now) }
    ensures { Added max_thresholds (tallied ladder.now edges xs.now ys.now) totals.old totals.new }
{
    if is_own(edges, xs, ys) {
        add_own(edges, xs, ladder, cells, totals);
    } else {
        add_along(edges, xs, ys, ladder, cells, totals);
    }
}
