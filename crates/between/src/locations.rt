// The distance of two locations, each an edge and an offset.
ghost use Rattle.std.specs.Option.{IfSome};
ghost use Rattle.std.specs.Prelude.{◌≡◌, ◌*◌, ◌≤◌, eqb, length};
ghost use Rattle.model.specs.Distance.{metres, plus};
ghost use Rattle.model.specs.Limits.{max_length, max_nodes};
ghost use Rattle.model.specs.Location.{end, edge_distance, along_edge_of};
ghost use Rattle.model.specs.Network.{network_of};
ghost use Rattle.between.specs.Answers.{location_answer, metres_of};
ghost use Rattle.between.specs.Metres.{distance_of};
ghost use Rattle.between.specs.Routes.{from_end_of, OnEdge};
ghost use Rattle.between.specs.Rows.{Asked};

use crate::metres::{WIDEST, lesser, metres_at};
use model::{Network, Refusal};

// A distance with the gaps at both ends.
#[tactic(auto, unfolding(crate::specs::Answers::metres_of, crate::specs::Metres::distance_of, model::specs::Distance::plus))]
fn with_gaps(near: u32, distance: Option<u32>, far: u32) -> Option<u32>
    requires { (near ≤ max_length) × IfSome distance (λ n. n ≤ max_length * max_nodes) × (far ≤ max_length) }
    ensures { result ≡ metres_of (plus (plus (metres near) (distance_of distance)) (metres far)) }
{
    Some(near + distance? + far)
}

// The stretch on one edge.
#[tactic(auto, unfolding(crate::specs::Answers::metres_of, model::specs::Distance::difference, model::specs::Location::along_edge_of))]
fn along_edge(i: usize, x: u32, j: usize, y: u32) -> Option<u32>
    ensures { result ≡ metres_of (along_edge_of (eqb i j) x y) }
{
    if i == j { Some(x.abs_diff(y)) } else { None }
}

// The lesser of the two routes from an end of the first edge: a row from that end, and both ends of the second edge.
fn from_end(network: Network, at: u32, gap: u32, j: usize, y: u32, row: &mut [u32]) -> Option<u32>
    requires asked { Asked (network_of network) at row.old }
    requires gap_le_max_length { (gap ≤ max_length) × OnEdge (network_of network) j y }
    ensures { result ≡ metres_of (from_end_of (network_of network.entry) (end at gap) j y) }
{
    let _ = distance::distances_from(network, at, WIDEST, row);
    let by_first = with_gaps(gap, metres_at(row, network.firsts[j]), y);
    let by_second = with_gaps(
        gap,
        metres_at(row, network.seconds[j]),
        network.lengths[j] - y,
    );
    lesser(by_first, by_second)
}

// The least of the four routes and, on one edge, of the stretch between the two.
fn distance_with(
    network: Network,
    i: usize,
    x: u32,
    j: usize,
    y: u32,
    row: &mut [u32],
) -> Option<u32>
    requires on_edge { OnEdge (network_of network) i x × OnEdge (network_of network) j y }
    requires max_nodes_in_bounds { max_nodes ≤ length row.old }
    ensures { result ≡ metres_of (edge_distance (network_of network.entry) i x j y) }
{
    let from_first = from_end(network, network.firsts[i], x, j, y, row);
    let from_second = from_end(
        network,
        network.seconds[i],
        network.lengths[i] - x,
        j,
        y,
        row,
    );
    let by_ends = lesser(from_first, from_second);
    let stretch = along_edge(i, x, j, y);
    lesser(by_ends, stretch)
}

fn distance_between(network: Network, i: usize, x: u32, j: usize, y: u32) -> Option<u32>
    requires { OnEdge (network_of network) i x × OnEdge (network_of network) j y }
    ensures { result ≡ metres_of (edge_distance (network_of network.entry) i x j y) }
{
    let mut row = [0u32; Network::MAX_NODES as usize];
    distance_with(network, i, x, j, y, &mut row)
}

// The least length over all walks between two locations. Refuses by 2, 6, 7, 9, 13 and 14.
#[tactic(auto, unfolding(crate::specs::Answers::location_answer, model::specs::Answer::answer))]
pub fn location_distance(
    network: Network,
    edge1: u32,
    offset1: u32,
    edge2: u32,
    offset2: u32,
) -> Result<Option<u32>, Refusal>
    ensures { result ≡ location_answer (network_of network.entry) edge1 offset1 edge2 offset2 }
{
    validate::check_locations(network, edge1, offset1, edge2, offset2)?;
    let i = edge1 as usize - 1;
    let j = edge2 as usize - 1;
    Ok(distance_between(network, i, offset1, j, offset2))
}
