// The stored numbers of a run: the events on one edge, of rising offsets.
ghost use Rattle.std.specs.Prelude.{◌≡◌, ℕ, suc, pred, ◌≤◌, ◌<◌, length, get_or};
ghost use Rattle.model.specs.Limits.{max_events};
ghost use Rattle.edge_pair.specs.Offsets.{Ordered, OnEdge};
ghost use Rattle.count_augmentation.specs.Storing.{NumbersStored, at_most, at_least, Storable};

use model::EventSet;

// How many are at most the offset at a place, from that of the next place: equal offsets share their number.
fn next_at_most(offsets: &[u32], k: usize, later: u32) -> u32
    requires { (k < length offsets.now) × (length offsets.now ≤ max_events) }
    ensures { Ordered offsets.now → (suc k < length offsets.now → later ≡ at_most offsets.now (get_or offsets.now (suc k) 0)) → result ≡ at_most offsets.now (get_or offsets.now k 0) }
{
    let next = k + 1;
    if next == offsets.len() {
        return next as u32;
    }
    if offsets[next] == offsets[k] {
        return later;
    }
    next as u32
}

// How many are at least the offset at a place, from that of the place before. The two stay apart, because they look to different sides.
fn next_at_least(offsets: &[u32], k: usize, earlier: u32) -> u32
    requires { (k < length offsets.now) × (length offsets.now ≤ max_events) }
    ensures { Ordered offsets.now → (0 < k → earlier ≡ at_least offsets.now (get_or offsets.now (pred k) 0)) → result ≡ at_least offsets.now (get_or offsets.now k 0) }
{
    let rest = offsets.len() - k;
    if k == 0 {
        return rest as u32;
    }
    if offsets[k - 1] == offsets[k] {
        return earlier;
    }
    rest as u32
}

// The two passes below differ in their direction, so that they stay two functions: one loop from run to run of equal offsets that fills
// both lists takes two to four times as long where all offsets differ.

// With each event, how many lie no farther from the first end: one pass from the back.
fn store_first(offsets: &[u32], near: &mut [u32])
    requires { Storable offsets.now near.old }
    ensures { Ordered offsets.now → (k : ℕ) → k < length offsets.now → get_or near.new k 0 ≡ at_most offsets.now (get_or offsets.now k 0) }
{
    let mut number = 0;
    for k in (0..offsets.len()).rev() {
        number = next_at_most(offsets, k, number);
        near[k] = number;
    }
}

// With each event, how many lie no farther from the second end: one pass from the front.
fn store_second(offsets: &[u32], near: &mut [u32])
    requires { Storable offsets.now near.old }
    ensures { Ordered offsets.now → (k : ℕ) → k < length offsets.now → get_or near.new k 0 ≡ at_least offsets.now (get_or offsets.now k 0) }
{
    let mut number = 0;
    for k in 0..offsets.len() {
        number = next_at_least(offsets, k, number);
        near[k] = number;
    }
}

// The stored numbers of a run, whatever the length of its edge; nothing is stored where a list of numbers is not as long as the run, or
// the run is longer than the limit.
pub fn store(offsets: &[u32], near_first: &mut [u32], near_second: &mut [u32])
    ensures near_first_len_unchanged { (length near_first.new ≡ length near_first.old) × (length near_second.new ≡ length near_second.old) }
    ensures numbers_stored { Ordered offsets.now → length near_first.old ≡ length offsets.now → length near_second.old ≡ length offsets.now → length offsets.now ≤ max_events → (p : ℕ) → OnEdge p offsets.now → NumbersStored p offsets.now near_first.new near_second.new }
{
    let places = offsets.len();
    if EventSet::MAX_EVENTS < places {
        return;
    }
    if near_first.len() != places {
        return;
    }
    if near_second.len() != places {
        return;
    }
    store_first(offsets, near_first);
    store_second(offsets, near_second);
}
