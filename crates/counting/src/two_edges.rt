// Two edges from the table of leg-end distances.
ghost use Rattle.std.specs.Prelude.{◌≡◌, ℕ, pred, ◌+◌, ◌*◌, ◌<◌, ◌≤◌, true, List, length, slice_index};
ghost use Rattle.model.specs.Network.{network_of};
ghost use Rattle.edge_pair.specs.Within.{reached_pairs};
ghost use Rattle.model.specs.Limits.{max_nodes};
ghost use Rattle.prepare.specs.EndTable.{EndTable};
ghost use Rattle.counting.specs.TwoEdges.{rows_of, table_edges_of, EdgeIn};

use edge_pair::EdgePair;
use model::Network;

// An edge by its index: its length, and where the table has the rows of its two ends.
#[derive(Clone, Copy)]
pub struct Rows {
    pub edge: usize,
    pub length: u32,
    pub first: usize,
    pub second: usize,
}

// Where the table has the row of a node.
fn row_of(nodes: u32, u: u32) -> usize
    requires { (1 ≤ u) × (u ≤ nodes) × (nodes ≤ max_nodes) }
    ensures { result ≡ pred u * nodes }
{
    (u as usize - 1) * (nodes as usize)
}

#[tactic(auto, unfolding(crate::specs::TwoEdges::rows_of))]
pub(crate) fn rows_of(network: Network, i: usize) -> Rows
    requires { EdgeIn (network_of network) i }
    ensures { result ≡ rows_of (network_of network.entry) i }
{
    Rows {
        edge: i,
        length: network.lengths[i],
        first: row_of(network.nodes, network.firsts[i]),
        second: row_of(network.nodes, network.seconds[i]),
    }
}

// A row's entry of a node.
fn entry_in(table: &[u32], row: usize, v: u32) -> u32
    requires { (1 ≤ v) × (row + pred v < length table.now) }
    ensures { result ≡ slice_index table.now (row + pred v) }
{
    let rest = &table[row..];
    rest[v as usize - 1]
}

// Two edges: one whose rows are known, and another by its index.
pub(crate) fn table_edges(network: Network, table: &[u32], rows: Rows, j: usize) -> EdgePair
    requires { EndTable (network_of network) table.now × (rows.edge < length network.lengths.now) × (j < length network.lengths.now) × (rows ≡ rows_of (network_of network) rows.edge) }
    ensures { result ≡ table_edges_of (network_of network.entry) table.now rows.edge j }
{
    let first = network.firsts[j];
    let second = network.seconds[j];
    EdgePair {
        length1: rows.length,
        length2: network.lengths[j],
        same: rows.edge == j,
        ff: entry_in(table, rows.first, first),
        fs: entry_in(table, rows.first, second),
        sf: entry_in(table, rows.second, first),
        ss: entry_in(table, rows.second, second),
    }
}

// No end of the one edge has a route to an end of the other, and they are two: none of their events lie within any threshold of each
// other.
pub(crate) fn are_apart(pair: EdgePair) -> bool
    ensures { result ≡ true → (t : ℕ) (xs ys : List ℕ) → reached_pairs t pair xs ys ≡ 0 }
{
    !pair.same && (pair.ff == 0) & (pair.fs == 0) & (pair.sf == 0) & (pair.ss == 0)
}
