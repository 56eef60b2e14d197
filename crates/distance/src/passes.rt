// Distances by passes over all edges (Bellman and Ford). A pass relaxes each edge both ways; where a pass lowers no entry, every entry is
// one more than the least length.
ghost use Rattle.std.specs.Prelude.{true, cond, ◌≡◌, ℕ, suc, ◌-◌, ◌<◌, min, eqb, length, get_or, set};
ghost use Rattle.model.specs.Network.{network_of};
ghost use Rattle.distance.specs.Passes.{unreached, Relaxable, AllLevel, Relaxed};
ghost use Rattle.distance.specs.Search.{Searched};
ghost use Rattle.distance.specs.Table.{RowsKnown};

use crate::search::clip;
use model::Network;
// The entry of a node that has not been reached: above every other.
const UNREACHED: u32 = 1_073_741_824;

// Lowers a node's entry to one that is offered to it, where that is less. By how much it fell is given back.
fn lower(dist: &mut [u32], v: usize, offer: u32) -> u32
    requires { v < length dist.old }
    ensures { (dist.new ≡ set dist.old v (min (get_or dist.old v 0) offer)) × (result ≡ get_or dist.old v 0 - min (get_or dist.old v 0) offer) }
{
    let old = dist[v];
    let new = old.min(offer);
    dist[v] = new;
    old - new
}

// Offers each end of the edge at an index the entry of the other and the length. By how much the two fell is given back. Nodes and source
// are for the contract.
fn relax(network: Network, source: u32, i: usize, dist: &mut [u32]) -> u64
    requires { Relaxable (network_of network) source dist.old × (i < length network.lengths.now) }
    ensures { Relaxed (network_of network.entry) source i dist.old result dist.new }
{
    let u = network.firsts[i] as usize;
    let v = network.seconds[i] as usize;
    let length = network.lengths[i];
    let to_first = dist[v] + length;
    let first_fell = lower(dist, u, to_first);
    let to_second = dist[u] + length;
    let second_fell = lower(dist, v, to_second);
    first_fell as u64 + second_fell as u64
}

// Relaxes every edge; true if no entry fell.
fn pass(network: Network, source: u32, dist: &mut [u32]) -> bool
    requires { Relaxable (network_of network) source dist.old }
    ensures { Relaxable (network_of network.entry) source dist.new × (result ≡ true → AllLevel (network_of network.entry) dist.new) }
{
    let mut fell: u64 = 0;
    for i in 0..network.lengths.len() {
        fell += relax(network, source, i, dist);
    }
    fell == 0
}

// At most so many passes; true if the last of them lowered no entry.
fn relax_all(network: Network, source: u32, most: u64, dist: &mut [u32]) -> bool
    requires { Relaxable (network_of network) source dist.old }
    ensures { Relaxable (network_of network.entry) source dist.new × (result ≡ true → AllLevel (network_of network.entry) dist.new) }
{
    for _ in 0..most {
        if pass(network, source, dist) {
            return true;
        }
    }
    false
}

// An entry of a row, where 0 stands for a node that has not been reached.
fn known_entry(entry: u32) -> u32
    ensures { result ≡ cond (eqb entry 0) unreached entry }
{
    if entry == 0 { UNREACHED } else { entry }
}

// Lowers the entry of the node of an earlier row to what that row has for the source, the node of row k; nothing where it is not wanted.
fn lower_by_row(
    network: Network,
    bound: u32,
    wanted: &[u32],
    rows: &[u32],
    k: usize,
    y: usize,
    dist: &mut [u32],
)
    requires { RowsKnown (network_of network) bound wanted.now k rows.now × Relaxable (network_of network) (suc k) dist.old × (y < k) }
    ensures { Relaxable (network_of network.entry) (suc k) dist.new }
{
    if wanted[y] == 0 {
        return;
    }
    let n = network.nodes as usize;
    let entry = known_entry(rows[y * n + k]);
    lower(dist, y + 1, entry);
}

// The entries that passes start from: the source's own, for the node of an earlier row what that row has for the source, since distances are
// the same both ways, and of every other node that it has not been reached.
fn start_passes(
    network: Network,
    bound: u32,
    wanted: &[u32],
    rows: &[u32],
    k: usize,
    dist: &mut [u32],
)
    requires { RowsKnown (network_of network) bound wanted.now k rows.now × (network.nodes < length dist.old) }
    ensures { Relaxable (network_of network.entry) (suc k) dist.new }
{
    dist.fill(UNREACHED);
    dist[k + 1] = 1;
    for y in 0..k {
        lower_by_row(network, bound, wanted, rows, k, y, dist);
    }
}

// The entry of every node from the node of row k, by at most so many passes. False if these are too few; nothing is promised of the entries
// then.
pub(crate) fn search_by_passes(
    network: Network,
    bound: u32,
    most: u64,
    wanted: &[u32],
    rows: &[u32],
    k: usize,
    dist: &mut [u32],
) -> bool
    requires { RowsKnown (network_of network) bound wanted.now k rows.now × (network.nodes < length dist.old) }
    ensures { result ≡ true → Searched (network_of network.entry) (suc k) bound dist.new }
{
    if most == 0 {
        return false;
    }
    start_passes(network, bound, wanted, rows, k, dist);
    let source = (k + 1) as u32;
    if !relax_all(network, source, most, dist) {
        return false;
    }
    clip(dist, bound.min(UNREACHED - 2));
    true
}
