// The pairs of two runs within one threshold, by one comparison each.
ghost use Rattle.std.specs.Prelude.{◌≡◌, ◌≤◌, leb, length};
ghost use Rattle.model.specs.Counting.{count_if};
ghost use Rattle.model.specs.Limits.{max_events};
ghost use Rattle.edge_pair.specs.Within.{reached_pairs};
ghost use Rattle.range_query.specs.Metres.{metres_between};

use crate::pairs::meet;
use edge_pair::{EdgePair, to_end};
use model::EventSet;

// How many events of a run on the second edge lie within a limit of an offset of the first.
#[tactic(auto, unfolding(edge_pair::specs::Edges::side_of, model::specs::Counting::count_if))]
fn count_row(edges: EdgePair, x: u32, ys: &[u32], limit: u64) -> u64
    ensures { (result ≡ count_if (λ y. leb (metres_between edges x y) limit) ys.now) × (result ≤ length ys.now) }
{
    let p = to_end(edges, x, true);
    let q = to_end(edges, x, false);
    let mut count: u64 = 0;
    for y in ys {
        let metres = meet(edges, p, q, x, *y);
        count += u64::from(metres <= limit);
    }
    count
}

// How many ordered pairs of an event of a run on the first edge and one of a run on the second lie within a threshold; 0 where a run is
// longer than the limit of events. Of events at one offset of the first edge only one is compared with those of the second.
pub fn count_within(edges: EdgePair, xs: &[u32], ys: &[u32], threshold: u32) -> u64
    ensures { length xs.now ≤ max_events → length ys.now ≤ max_events → result ≡ reached_pairs threshold edges xs.now ys.now }
{
    if EventSet::MAX_EVENTS < xs.len() || EventSet::MAX_EVENTS < ys.len() {
        return 0;
    }
    let limit = threshold as u64;
    let mut total: u64 = 0;
    for equals in xs.chunk_by(|a, b| a == b) {
        total += equals.len() as u64 * count_row(edges, equals[0], ys, limit);
    }
    total
}
