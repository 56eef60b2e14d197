// The pairs of two runs, each counted from the first threshold on that admits its metres.
ghost use Rattle.std.specs.Prelude.{false, List, ◌≡◌, ℕ, ◌+◌, ◌*◌, ◌≤◌, ◌<◌, leb, length, get_or};
ghost use Rattle.model.specs.Counting.{count_if};
ghost use Rattle.model.specs.Limits.{max_thresholds};
ghost use Rattle.model.specs.Location.{at_first, at_second};
ghost use Rattle.edge_pair.specs.Totals.{Added};
ghost use Rattle.edge_pair.specs.Ways.{far, to_end_of};
ghost use Rattle.edge_pair.specs.Within.{reached_pairs};
ghost use Rattle.range_query.specs.Ladder.{ladder_length, cells_of, bucket_in, LadderOf};
ghost use Rattle.range_query.specs.Metres.{by_ends_of, metres_between, tallied};

use crate::lookup::{Cells, LADDER, by_steps, place_in, read_cells};
use crate::own::add_on_one_edge;
use edge_pair::{EdgePair, change_from, to_end};

// To an offset of the second edge, by its first end or by its second.
#[tactic(auto, unfolding(crate::specs::Metres::by_ends_of))]
fn by_ends(edges: EdgePair, p: u64, q: u64, x: u32, y: u32) -> u64
    requires { (p ≤ far + far) × (q ≤ far + far) × (p ≡ to_end_of edges at_first x) × (q ≡ to_end_of edges at_second x) }
    ensures { result ≡ by_ends_of edges x y }
{
    let by_first = p + y as u64;
    let by_second = q + (edges.length2 as u64).saturating_sub(y as u64);
    by_first.min(by_second)
}

// From one offset to another, by the ends of the second edge, or along it where the two edges are one. The difference is taken in 64 bits,
// since in 32 bits the loop over wide cells takes a fifth longer.
#[tactic(auto, unfolding(crate::specs::Metres::metres_between, model::specs::Distance::difference))]
pub(crate) fn meet(edges: EdgePair, p: u64, q: u64, x: u32, y: u32) -> u64
    requires { (p ≤ far + far) × (q ≤ far + far) × (p ≡ to_end_of edges at_first x) × (q ≡ to_end_of edges at_second x) }
    ensures { result ≡ metres_between edges x y }
{
    let around = by_ends(edges, p, q, x, y);
    if edges.same {
        around.min((x as u64).abs_diff(y as u64))
    } else {
        around
    }
}

// Counts the pairs of so many events at one offset with those of a run, or of a part of one, each from the place on that is found for the
// metres to its own offset.
fn add_row_by<M: Fn(u32) -> u64, P: Fn(u64) -> usize>(
    metres_to: M,
    place_of: P,
    many: u64,
    ys: &[u32],
    totals: &mut [u64],
)
    requires metres { M.IsAlwaysCallable metres_to }
    requires place { P.IsAlwaysCallable place_of }
    ensures { (metres found : ℕ → ℕ) → ((y r : ℕ) → y < 4294967296 → M.post metres_to y r → r ≡ metres y) → ((d r : ℕ) → d < 18446744073709551616 → P.post place_of d r → r ≡ found d) → Added max_thresholds (λ k. many * count_if (λ y. leb (found (metres y)) k) ys.now) totals.old totals.new }
{
    for y in ys {
        change_from(totals, place_of(metres_to(*y)), 0, many);
    }
}

// The same from the first threshold on that admits the metres. There are two loops, so that neither has the test of what the cells are.
pub(crate) fn add_row<M: Fn(u32) -> u64>(
    metres_to: M,
    many: u64,
    ys: &[u32],
    ladder: &[u32],
    cells: Cells,
    totals: &mut [u64],
)
    requires metres { M.IsAlwaysCallable metres_to }
    requires read { (length ladder.now ≡ ladder_length) × (cells ≡ cells_of ladder.now) }
    ensures { (metres : ℕ → ℕ) → ((y r : ℕ) → y < 4294967296 → M.post metres_to y r → r ≡ metres y) → Added max_thresholds (λ k. many * count_if (λ y. leb (bucket_in ladder.now (metres y)) k) ys.now) totals.old totals.new }
{
    match cells {
        Cells::EachMetre => {
            add_row_by(metres_to, |d| place_in(ladder, d), many, ys, totals);
        }
        Cells::Wide(shift) => {
            add_row_by(metres_to, |d| by_steps(ladder, shift, d), many, ys, totals);
        }
    }
}

// Counts the pairs of so many events at one offset of an edge with those of a run on another edge, each from the first threshold on
// that admits its metres.
#[tactic(auto, unfolding(edge_pair::specs::Edges::side_of))]
fn add_row_across(
    edges: EdgePair,
    x: u32,
    many: u64,
    ys: &[u32],
    ladder: &[u32],
    cells: Cells,
    totals: &mut [u64],
)
    requires { (length ladder.now ≡ ladder_length) × (cells ≡ cells_of ladder.now) × (edges.same ≡ false) }
    ensures { Added max_thresholds (λ k. many * count_if (λ y. leb (bucket_in ladder.now (metres_between edges x y)) k) ys.now) totals.old totals.new }
{
    let p = to_end(edges, x, true);
    let q = to_end(edges, x, false);
    let metres_to = |y: u32| by_ends(edges, p, q, x, y);
    add_row(metres_to, many, ys, ladder, cells, totals);
}

// Adds to the total at each threshold how many ordered pairs of an event of a run on the first edge and one of a run on the second lie
// within it. Nothing is added if the ladder lent is not as long as one. Of a run with itself each two events are looked at once.
pub fn add_pairs(edges: EdgePair, xs: &[u32], ys: &[u32], ladder: &[u32], totals: &mut [u64])
    ensures { (length ladder.now ≡ ladder_length → Added max_thresholds (tallied ladder.now edges xs.now ys.now) totals.old totals.new) × ((ts : List ℕ) → LadderOf ts ladder.now → Added (length ts) (λ k. reached_pairs (get_or ts k 0) edges xs.now ys.now) totals.old totals.new) }
{
    if ladder.len() != LADDER {
        return;
    }
    let cells = read_cells(ladder);
    if edges.same {
        add_on_one_edge(edges, xs, ys, ladder, cells, totals);
        return;
    }
    for equals in xs.chunk_by(|a, b| a == b) {
        add_row_across(
            edges,
            equals[0],
            equals.len() as u64,
            ys,
            ladder,
            cells,
            totals,
        );
    }
}
