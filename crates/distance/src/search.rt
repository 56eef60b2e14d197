// The bounded search from one node.
ghost use Rattle.std.specs.Prelude.{◌≡◌, ℕ, ◌+◌, ◌≤◌, ◌<◌, length, get_or};
ghost use Rattle.model.specs.Limits.{max_nodes};
ghost use Rattle.model.specs.Network.{network_of};
ghost use Rattle.distance.specs.Keys.{Keyed};
ghost use Rattle.distance.specs.Search.{Ready, Searched, State, Following, Clipped};

use crate::arcs::tail_of;
use crate::front::{offer, remove};
use crate::keys::{entry_of, key_of, least_of_fours, place_of};
use model::Network;

// Why the search stopped: every node reached is settled, or the nearest one waiting is beyond the bound.
#[derive(Clone, Copy)]
enum Stop {
    Exhausted,
    Beyond,
}

// The entry of every node: 0 where no walk is within the bound, else one more than the least length.
pub(crate) fn search(
    network: Network,
    last: &[u32],
    next: &[u32],
    source: u32,
    bound: u32,
    dist: &mut [u32],
    front: &mut [u32],
)
    requires { Ready (network_of network) last.now next.now source dist.old front.old }
    ensures { Searched (network_of network.entry) source bound dist.new }
{
    let mut keys = [0u64; Network::MAX_NODES as usize];
    let mut slots = [0u32; Network::MAX_NODES as usize + 1];
    search_with(
        network, last, next, source, bound, dist, front, &mut keys, &mut slots,
    );
}

// Waiting nodes stand in the front in any order; each pick settles the nearest of them, which has the least key: by fours, then the
// up to three that are left.
fn search_with(
    network: Network,
    last: &[u32],
    next: &[u32],
    source: u32,
    bound: u32,
    dist: &mut [u32],
    front: &mut [u32],
    keys: &mut [u64],
    slots: &mut [u32],
)
    requires ready { Ready (network_of network) last.now next.now source dist.old front.old }
    requires max_nodes_in_bounds { (max_nodes ≤ length keys.old) × (max_nodes < length slots.old) }
    ensures { Searched (network_of network.entry) source bound dist.new }
{
    dist.fill(0);
    dist[source as usize] = 1;
    front[0] = source;
    keys[0] = key_of(1, 0);
    slots[source as usize] = 0;
    let mut len = 1;
    let mut picked: usize = 0;
    // The form of this loop and of the scan in it is fixed (docs/DECISIONS.md, the node-picking loop).
    let stop = 'picking: loop {
        let mut key = least_of_fours(keys, len);
        let mut k = len / 4 * 4;
        loop {
            if k == len {
                if len == 0 {
                    break 'picking Stop::Exhausted;
                }
                break;
            }
            key = key.min(keys[k]);
            k += 1;
        }
        let least = entry_of(key);
        if bound < least - 1 {
            break 'picking Stop::Beyond;
        }
        let best = place_of(key);
        let v = front[best];
        len -= 1;
        remove(front, keys, slots, len, best);
        picked += 1;
        len = follow(
            network, last, next, source, bound, dist, front, keys, slots, len, picked, v, least,
        );
    };
    match stop {
        Stop::Exhausted => {}
        Stop::Beyond => clip(dist, bound),
    }
}

// Offers each end of an arc of v the entry of v, which is the least, and the arc's length. Nodes, source, bound and picks are for the
// contract.
fn follow(
    network: Network,
    last: &[u32],
    next: &[u32],
    source: u32,
    bound: u32,
    dist: &mut [u32],
    front: &mut [u32],
    keys: &mut [u64],
    slots: &mut [u32],
    len: usize,
    picked: usize,
    v: u32,
    least: u32,
) -> usize
    requires ready { Ready (network_of network) last.now next.now source dist.old front.old }
    requires following { Following (network_of network) source bound dist.old front.old len picked v (length network.lengths.now + length network.lengths.now) }
    requires keyed { Keyed network.nodes dist.old front.old keys.old slots.old len × (get_or dist.old v 0 ≡ least) }
    ensures state { State (network_of network.entry) source bound dist.new front.new result picked 0 }
    ensures keyed_2 { Keyed network.entry.nodes dist.new front.new keys.new slots.new result }
{
    // A `while`, since a turn goes from an arc to the one before it in the chain.
    let mut waiting = len;
    let mut h = last[v as usize] as usize;
    while h != 0 {
        let a = h - 1;
        let w = tail_of(network.seconds, network.firsts, a);
        let entry = least + network.lengths[a / 2];
        waiting = offer(dist, front, keys, slots, waiting, w, entry);
        h = next[a] as usize;
    }
    waiting
}

// An entry, or 0 where it is beyond the bound.
fn clipped(entry: u32, bound: u32) -> u32
    ensures { Clipped bound entry result }
{
    if entry == 0 {
        return 0;
    }
    if bound < entry - 1 {
        return 0;
    }
    entry
}

// Sets every entry beyond the bound to 0.
pub(crate) fn clip(dist: &mut [u32], bound: u32)
    ensures { (v : ℕ) → Clipped bound (get_or dist.old v 0) (get_or dist.new v 0) }
{
    for entry in dist.iter_mut() {
        *entry = clipped(*entry, bound);
    }
}
