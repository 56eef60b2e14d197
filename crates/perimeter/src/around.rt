// The perimeter count at a centre of a network that has been checked: two bounded searches, then the counts.
ghost use Rattle.model.specs.Refusal.{accepted};
ghost use Rattle.std.specs.Prelude.{◌≡◌, ◌≤◌, ◌<◌, length};
ghost use Rattle.model.specs.Checks.{network_check};
ghost use Rattle.model.specs.Location.{location_of};
ghost use Rattle.model.specs.Network.{network_of, size, IsNode};
ghost use Rattle.model.specs.Perimeter.{perimeter_count_of};
ghost use Rattle.perimeter.specs.Counts.{IsRow};

use crate::counts::{Centre, count_all};
use model::Network;

// The distances from one end of the centre's edge to every node, up to the radius.
fn fill_row(network: Network, source: u32, radius: u32, row: &mut [u32])
    requires lengths_value { network_check (network_of network) ≡ accepted }
    requires node { IsNode (network_of network) source }
    requires nodes_in_bounds { network.nodes ≤ length row.old }
    ensures { IsRow (network_of network.entry) radius source row.new }
{
    let _ = distance::distances_from(network, source, radius, row);
}

// The centre lies at an offset of the edge at an index.
pub(crate) fn count_around(network: Network, edge: usize, offset: u32, radius: u32) -> u32
    requires lengths_value { network_check (network_of network) ≡ accepted }
    requires edge_in_bounds { (edge < length network.lengths.now) × (offset ≤ size (network_of network) edge) }
    ensures { result ≡ perimeter_count_of (network_of network.entry) (location_of (network_of network.entry) edge offset) radius }
{
    let end1 = network.firsts[edge];
    let end2 = network.seconds[edge];
    let rest = network.lengths[edge] - offset;
    let centre = Centre {
        edge,
        offset: offset as u64,
        rest: rest as u64,
        radius: radius as u64,
    };
    let mut row1 = [0u32; Network::MAX_NODES as usize];
    let mut row2 = [0u32; Network::MAX_NODES as usize];
    fill_row(network, end1, radius, &mut row1);
    fill_row(network, end2, radius, &mut row2);
    count_all(network, &row1, &row2, centre)
}
