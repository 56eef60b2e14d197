// The leg-end distances: for the ends of the edges that events lie on, the bounded distances to every node.
ghost use Rattle.std.specs.Prelude.{◌≡◌, length};
ghost use Rattle.model.specs.Network.{network_of};
ghost use Rattle.prepare.specs.Marking.{Markable, Unmarked, Marked, Endable, EndsFilled};
ghost use Rattle.prepare.specs.Prepared.{TableKept};

use model::Network;

// Marks one end of each event's edge among the wanted nodes.
fn mark(ends: &[u32], edges: &[u32], wanted: &mut [u32])
    requires { Markable ends.now edges.now wanted.old }
    ensures { Marked ends.now edges.now (length edges.now) wanted.old wanted.new }
{
    for edge in edges {
        let v = ends[*edge as usize - 1] as usize;
        wanted[v - 1] = 1;
    }
}

// Fills the rows of both ends of each event's edge, by way of a list of wanted nodes. The other rows stay as they were.
fn fill_rows(network: Network, edges: &[u32], bound: u32, wanted: &mut [u32], table: &mut [u32])
    requires { Endable (network_of network) edges.now table.old × (length wanted.old ≡ network.nodes) × Unmarked wanted.old }
    ensures ends_filled { EndsFilled (network_of network.entry) edges.now bound table.new }
    ensures table_kept { TableKept (network_of network.entry) edges.now table.old table.new }
{
    mark(network.firsts, edges, wanted);
    mark(network.seconds, edges, wanted);
    let _ = distance::end_distances(network, bound, wanted, table);
}

// Fills the rows of both ends of each event's edge. The other rows stay as they were.
pub(crate) fn end_table(network: Network, edges: &[u32], bound: u32, table: &mut [u32])
    requires { Endable (network_of network) edges.now table.old }
    ensures ends_filled { EndsFilled (network_of network.entry) edges.now bound table.new }
    ensures table_kept { TableKept (network_of network.entry) edges.now table.old table.new }
{
    let n = network.nodes as usize;
    let mut wanted = [0u32; Network::MAX_NODES as usize];
    fill_rows(network, edges, bound, &mut wanted[..n], table);
}
