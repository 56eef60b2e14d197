// The counts over all nodes and all edges.
ghost use Rattle.std.specs.Prelude.{◌≡◌, ◌+◌, ◌*◌, ◌≤◌, ◌<◌, length};
ghost use Rattle.model.specs.Counting.{sum_below};
ghost use Rattle.model.specs.Limits.{max_nodes};
ghost use Rattle.perimeter.specs.Counts.{reached, nodes_at, edge_at, Near, Reached, Prepared, CountedTo};

use crate::codes::{by_ends, is_at};
use crate::edges::{Sight, count_met};
use model::Network;

// The centre: the index of its edge, the metres from it to the edge's two ends, and the radius.
#[derive(Clone, Copy)]
pub struct Centre {
    pub edge: usize,
    pub offset: u64,
    pub rest: u64,
    pub radius: u64,
}

// The code of the distance to the node at an index, by the nearer way.
fn reach(row1: &[u32], row2: &[u32], k: usize, c: Centre) -> u64
    requires k_in_bounds { (k < length row1.now) × (k < length row2.now) }
    requires near { Near c }
    ensures { Reached (reached c row1.now row2.now k) result }
{
    by_ends(c.offset, c.rest, row1[k] as u64, row2[k] as u64)
}

// How many nodes lie at exactly the radius.
fn count_nodes(nodes: u32, row1: &[u32], row2: &[u32], c: Centre) -> u32
    requires nodes_le_max_nodes { (nodes ≤ max_nodes) × (nodes ≤ length row1.now) × (nodes ≤ length row2.now) }
    requires near { Near c }
    ensures { CountedTo (4 * nodes) (nodes_at c row1.now row2.now nodes) result }
{
    let mut count = 0;
    for k in 0..nodes as usize {
        count += u32::from(is_at(reach(row1, row2, k, c), c.radius));
    }
    count
}

// How many locations strictly inside the edge at an index do.
fn count_edge(network: Network, row1: &[u32], row2: &[u32], c: Centre, j: usize) -> u32
    requires prepared { Prepared c network.firsts.now network.seconds.now network.lengths.now row1.now row2.now }
    requires j_in_bounds { j < length network.lengths.now }
    ensures { CountedTo 4 (edge_at c network.entry.firsts.now network.entry.seconds.now network.entry.lengths.now row1.now row2.now j) result }
{
    let end1 = reach(row1, row2, network.firsts[j] as usize - 1, c);
    let end2 = reach(row1, row2, network.seconds[j] as usize - 1, c);
    count_met(Sight {
        end1,
        end2,
        length: network.lengths[j] as u64,
        own: c.edge == j,
        offset: c.offset,
        radius: c.radius,
    })
}

// How many locations strictly inside any edge do.
fn count_insides(network: Network, row1: &[u32], row2: &[u32], c: Centre) -> u32
    requires { Prepared c network.firsts.now network.seconds.now network.lengths.now row1.now row2.now }
    ensures { CountedTo (4 * length network.entry.lengths.now) (sum_below (length network.entry.lengths.now) (edge_at c network.entry.firsts.now network.entry.seconds.now network.entry.lengths.now row1.now row2.now)) result }
{
    let mut count = 0;
    for j in 0..network.lengths.len() {
        count += count_edge(network, row1, row2, c, j);
    }
    count
}

// How many locations lie at exactly the radius.
pub(crate) fn count_all(network: Network, row1: &[u32], row2: &[u32], c: Centre) -> u32
    requires nodes_le_max_nodes { (network.nodes ≤ max_nodes) × (network.nodes ≤ length row1.now) × (network.nodes ≤ length row2.now) }
    requires prepared { Prepared c network.firsts.now network.seconds.now network.lengths.now row1.now row2.now }
    ensures { result ≡ nodes_at c row1.now row2.now network.entry.nodes + sum_below (length network.entry.lengths.now) (edge_at c network.entry.firsts.now network.entry.seconds.now network.entry.lengths.now row1.now row2.now) }
{
    count_nodes(network.nodes, row1, row2, c) + count_insides(network, row1, row2, c)
}
