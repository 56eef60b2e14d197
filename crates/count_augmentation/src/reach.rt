// What is looked up of a run for one event.
ghost use Rattle.std.specs.Prelude.{◌≡◌, ◌*◌, ◌≤◌};
ghost use Rattle.model.specs.Location.{at_first, at_second};
ghost use Rattle.edge_pair.specs.Ways.{to_end_of};
ghost use Rattle.count_augmentation.specs.LookUp.{looked_part};

use crate::look_up::{count_below, count_from};
use edge_pair::EdgePair;
use model::covered;

// For an event at an offset of the first edge, from which the ends of the second are u and v metres away, where not all of the second
// edge is within reach of them: from both ends, and on the event's own edge in the window around it.
pub(crate) fn count_part(
    edges: EdgePair,
    x: u32,
    u: u64,
    v: u64,
    threshold: u32,
    ys: &[u32],
    near_first: &[u32],
    near_second: &[u32],
) -> u64
    requires { (u ≡ to_end_of edges at_first x) × (v ≡ to_end_of edges at_second x) }
    ensures { (result ≡ looked_part edges threshold x ys.now near_first.now near_second.now) × (result ≤ 3 * 4294967295) }
{
    let places = ys.len() as u64;
    // Nothing is read for an end that is beyond the threshold.
    let limit = threshold as u64 + 1;
    let first = if u < limit {
        count_below(ys, near_first, limit - u)
    } else {
        0
    };
    let last = if v < limit {
        count_from(
            ys,
            near_second,
            (edges.length2 as u64 + 1).saturating_sub(limit - v),
        )
    } else {
        0
    };
    if edges.same {
        let from_window = count_from(
            ys,
            near_second,
            (x as u64).saturating_sub(threshold as u64),
        ) as u64;
        let upto = count_below(ys, near_first, x as u64 + threshold as u64 + 1) as u64;
        return covered(
            places,
            first as u64,
            last as u64,
            places.saturating_sub(from_window),
            upto,
        );
    }
    let both = first as u64 + last as u64;
    both.min(places)
}
