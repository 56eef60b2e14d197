// The pairs of a run on one edge and a run on another that lie within each threshold.
ghost use Rattle.std.specs.Prelude.{◌≡◌, ◌≤◌, length, get_or};
ghost use Rattle.model.specs.Limits.{max_events};
ghost use Rattle.edge_pair.specs.Offsets.{EdgesLaid};
ghost use Rattle.edge_pair.specs.Totals.{Added};
ghost use Rattle.edge_pair.specs.Ways.{shortest_route_of};
ghost use Rattle.edge_pair.specs.Within.{reached_pairs};
ghost use Rattle.neighbor_sharing.specs.Joined.{shared, shared_within};

use crate::joining::joined_of;
use crate::moving::{at_rest, move_to};
use edge_pair::{EdgePair, change_from, shortest_route};
use model::{EventSet, equals_end};

// For each event of the first run, how many of the second are reached, by cursors that are moved from event to event: what these
// join, whatever the lists hold. At events with the offset of the one before they would stay where they are.
fn count_pairs(threshold: u32, edges: EdgePair, xs: &[u32], ys: &[u32]) -> u64
    requires { (length xs.now ≤ max_events) × (length ys.now ≤ max_events) }
    ensures { result ≡ shared threshold edges xs.now ys.now }
{
    let places = ys.len() as u64;
    let mut stands = at_rest(ys);
    let mut total = 0;
    // Not a `for`: the place goes on to the end of the events at one offset.
    let mut i = 0;
    while i < xs.len() {
        stands = move_to(threshold, edges, ys, xs[i], stands);
        let next = equals_end(xs, i);
        let equals = next - i;
        total += equals as u64 * joined_of(places, stands);
        i = next;
    }
    total
}

// The same, left at once below the metres of the shortest route.
fn count_within(threshold: u32, shortest: u64, edges: EdgePair, xs: &[u32], ys: &[u32]) -> u64
    requires { (shortest ≡ shortest_route_of edges) × (length xs.now ≤ max_events) × (length ys.now ≤ max_events) }
    ensures { result ≡ shared_within threshold edges xs.now ys.now }
{
    if (threshold as u64) < shortest {
        return 0;
    }
    count_pairs(threshold, edges, xs, ys)
}

// Adds, to the total at each threshold, how many ordered pairs of an event of a run on the first edge and one of a run on the second
// lie within it. Runs that are longer than the limit of events are left alone.
pub fn add_pairs(edges: EdgePair, xs: &[u32], ys: &[u32], thresholds: &[u32], totals: &mut [u64])
    ensures added { length xs.now ≤ max_events → length ys.now ≤ max_events → Added (length thresholds.now) (λ k. shared_within (get_or thresholds.now k 0) edges xs.now ys.now) totals.old totals.new }
    ensures added_2 { EdgesLaid edges xs.now ys.now → Added (length thresholds.now) (λ k. reached_pairs (get_or thresholds.now k 0) edges xs.now ys.now) totals.old totals.new }
{
    if xs.len() > EventSet::MAX_EVENTS {
        return;
    }
    if ys.len() > EventSet::MAX_EVENTS {
        return;
    }
    let shortest = shortest_route(edges);
    let mut last = 0;
    for (k, threshold) in thresholds.iter().enumerate() {
        let found = count_within(*threshold, shortest, edges, xs, ys);
        change_from(totals, k, last, found);
        last = found;
    }
}
