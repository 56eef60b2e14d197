// The kernel: to the totals at rising thresholds, the pairs of an event of one run and one of another, looked up from stored numbers.
ghost use Rattle.std.specs.Prelude.{◌≡◌, ◌+◌, ◌*◌, ◌≤◌, length, get_or};
ghost use Rattle.model.specs.Limits.{max_events};
ghost use Rattle.model.specs.Location.{at_first, at_second};
ghost use Rattle.edge_pair.specs.Offsets.{Ordered, EdgesLaid};
ghost use Rattle.edge_pair.specs.Totals.{Added};
ghost use Rattle.edge_pair.specs.Ways.{far, to_end_of};
ghost use Rattle.edge_pair.specs.Within.{reached_pairs};
ghost use Rattle.count_augmentation.specs.LookUp.{stored_last, looked_up_by, looked_up_pairs};
ghost use Rattle.count_augmentation.specs.Storing.{NumbersStored};
ghost use Rattle.count_augmentation.specs.Thresholds.{whole_from_of, some_from_of, Spread};

use crate::look_up::count_all;
use crate::reach::count_part;
use crate::thresholds::place_in;
use edge_pair::{EdgePair, change_from, to_end};
use model::{EventSet, equals_end, value_at};

// The least threshold at which all of an edge is within reach of its ends, which are u and v metres away from an event.
fn whole_from(length: u32, u: u64, v: u64) -> u64
    requires { (u ≤ far + far) × (v ≤ far + far) }
    ensures { result ≡ whole_from_of length u v }
{
    ((u + v + length as u64) / 2).min(u.min(v) + length as u64)
}

// The least at which anything of it is; on the event's own edge something always is.
fn some_from(own: bool, u: u64, v: u64) -> u64
    ensures { result ≡ some_from_of own u v }
{
    if own { 0 } else { u.min(v) }
}

// Adds what is looked up for so many events at one offset: nothing at the thresholds before one place, what is found at each from there
// up to before another, and from that on the whole run's number.
fn add_between(
    edges: EdgePair,
    x: u32,
    events: u64,
    u: u64,
    v: u64,
    ys: &[u32],
    near_first: &[u32],
    near_second: &[u32],
    all: u32,
    thresholds: &[u32],
    from: usize,
    to: usize,
    totals: &mut [u64],
)
    requires { (u ≡ to_end_of edges at_first x) × (v ≡ to_end_of edges at_second x) × (events ≤ max_events) × (all ≡ stored_last near_first.now) }
    ensures { Spread edges thresholds.now x ys.now near_first.now near_second.now from to → Added (length thresholds.now) (λ k. events * looked_up_by edges (get_or thresholds.now k 0) x ys.now near_first.now near_second.now) totals.old totals.new }
{
    let mut last = 0;
    for k in from..to {
        let threshold = value_at(thresholds, k);
        let found = count_part(edges, x, u, v, threshold, ys, near_first, near_second);
        let next = events * found;
        change_from(totals, k, last, next);
        last = next;
    }
    let rest = events * all as u64;
    change_from(totals, to, last, rest);
}

// The same, with the two places found from a hint. The place from which on it is the whole run's number is given back, as the hint for
// the next offset; nothing is promised of it.
fn add_events(
    edges: EdgePair,
    x: u32,
    events: u64,
    ys: &[u32],
    near_first: &[u32],
    near_second: &[u32],
    all: u32,
    thresholds: &[u32],
    hint: usize,
    totals: &mut [u64],
) -> usize
    requires { (events ≤ max_events) × (all ≡ stored_last near_first.now) }
    ensures { Ordered thresholds.now → Added (length thresholds.now) (λ k. events * looked_up_by edges (get_or thresholds.now k 0) x ys.now near_first.now near_second.now) totals.old totals.new }
{
    let u = to_end(edges, x, true);
    let v = to_end(edges, x, false);
    let to = place_in(thresholds, whole_from(edges.length2, u, v), hint);
    let from = place_in(thresholds, some_from(edges.same, u, v), to);
    add_between(
        edges,
        x,
        events,
        u,
        v,
        ys,
        near_first,
        near_second,
        all,
        thresholds,
        from,
        to,
        totals,
    );
    to
}

// Adds to the total at each threshold what is looked up for the events of a run on the first edge, in the numbers of a run on the second,
// once for events at one offset; nothing where the first run is longer than the limit. Where the numbers are those that `store` makes,
// this is how many pairs lie within the threshold.
pub fn add_pairs(
    edges: EdgePair,
    xs: &[u32],
    ys: &[u32],
    near_first: &[u32],
    near_second: &[u32],
    thresholds: &[u32],
    totals: &mut [u64],
)
    ensures added { Ordered thresholds.now → length xs.now ≤ max_events → Added (length thresholds.now) (λ k. looked_up_pairs edges (get_or thresholds.now k 0) xs.now ys.now near_first.now near_second.now) totals.old totals.new }
    ensures added_2 { Ordered thresholds.now → EdgesLaid edges xs.now ys.now → length near_first.now ≡ length ys.now → length near_second.now ≡ length ys.now → NumbersStored edges.length2 ys.now near_first.now near_second.now → Added (length thresholds.now) (λ k. reached_pairs (get_or thresholds.now k 0) edges xs.now ys.now) totals.old totals.new }
{
    if EventSet::MAX_EVENTS < xs.len() {
        return;
    }
    let all = count_all(near_first);
    let mut place = 0;
    // Not a `for`: the place goes on to the end of the events at one offset.
    let mut i = 0;
    while i < xs.len() {
        let next = equals_end(xs, i);
        let events = (next - i) as u64;
        place = add_events(
            edges,
            xs[i],
            events,
            ys,
            near_first,
            near_second,
            all,
            thresholds,
            place,
            totals,
        );
        i = next;
    }
}
