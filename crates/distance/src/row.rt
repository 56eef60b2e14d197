// The distances from one node to every node.
ghost use Rattle.std.specs.Prelude.{◌++◌, ◌≡◌, ◌<◌, ◌≤◌, length, take, drop};
ghost use Rattle.model.specs.Network.{network_of};
ghost use Rattle.distance.specs.Answers.{row_check, distance_row, RowAnswered};
ghost use Rattle.distance.specs.Search.{Askable, Searched};

use crate::find::find;
use model::{Fault, Network, Refusal};

// 2, the answer list too, then 6, 7 and 9 with the source as a lone node.
fn check_row(network: Network, source: u32, answers: &[u32]) -> Result<(), Refusal>
    ensures { result ≡ row_check (network_of network.entry) source answers.now }
{
    if answers.len() < network.nodes as usize {
        return Err(Refusal {
            fault: Fault::ListsDiffer,
            place: 0,
        });
    }
    validate::check_nodes(network, source, source)
}

// Copies the entries of all nodes; node v's stands at index v - 1 of a row.
pub(crate) fn copy_row(nodes: u32, dist: &[u32], row: &mut [u32])
    requires { (nodes < length dist.now) × (nodes ≤ length row.old) }
    ensures { row.new ≡ take nodes (drop 1 dist.now) ++ drop nodes row.old }
{
    let n = nodes as usize;
    row[..n].copy_from_slice(&dist[1..n + 1]);
}

// Searches and writes the row into the answers.
fn write_row(network: Network, source: u32, bound: u32, dist: &mut [u32], answers: &mut [u32])
    requires askable { Askable (network_of network) source dist.old }
    requires nodes_in_bounds { network.nodes ≤ length answers.old }
    ensures answers_after { answers.new ≡ distance_row (network_of network.entry) bound source ++ drop network.entry.nodes answers.old }
    ensures searched { Searched (network_of network.entry) source bound dist.new }
{
    find(network, source, bound, dist);
    copy_row(network.nodes, dist, answers);
}

// The code of the bounded distance from the source to each node, in node order: 0 where it is beyond the bound, else one more
// than the metres. Refuses by 2, 6, 7 and 9, and leaves the answers as they were then.
pub fn distances_from(
    network: Network,
    source: u32,
    bound: u32,
    answers: &mut [u32],
) -> Result<(), Refusal>
    ensures { RowAnswered (network_of network.entry) source bound answers.old result answers.new }
{
    check_row(network, source, answers)?;
    let mut dist = [0u32; Network::MAX_NODES as usize + 1];
    write_row(network, source, bound, &mut dist, answers);
    Ok(())
}
