// One search with room of its own.
ghost use Rattle.model.specs.Network.{network_of};
ghost use Rattle.distance.specs.Search.{Askable, Rooms, Searched};

use crate::arcs::link;
use crate::search::search;
use model::Network;

// Links the arcs, then searches.
fn find_with(
    network: Network,
    source: u32,
    bound: u32,
    last: &mut [u32],
    next: &mut [u32],
    front: &mut [u32],
    dist: &mut [u32],
)
    requires askable { Askable (network_of network) source dist.old }
    requires rooms { Rooms last.old next.old front.old }
    ensures { Searched (network_of network.entry) source bound dist.new }
{
    link(network.nodes, network.firsts, network.seconds, last, next);
    search(network, last, next, source, bound, dist, front);
}

// The entry of every node, from one source.
pub(crate) fn find(network: Network, source: u32, bound: u32, dist: &mut [u32])
    requires { Askable (network_of network) source dist.old }
    ensures { Searched (network_of network.entry) source bound dist.new }
{
    let mut last = [0u32; Network::MAX_NODES as usize + 1];
    let mut next = [0u32; 2 * Network::MAX_EDGES];
    let mut front = [0u32; Network::MAX_NODES as usize];
    find_with(
        network, source, bound, &mut last, &mut next, &mut front, dist,
    );
}
