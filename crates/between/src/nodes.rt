// The distance of two nodes.
ghost use Rattle.model.specs.Refusal.{accepted};
ghost use Rattle.std.specs.Prelude.{◌≡◌};
ghost use Rattle.model.specs.Checks.{nodes_over_network_check};
ghost use Rattle.model.specs.Network.{network_of, IsNode};
ghost use Rattle.between.specs.Answers.{node_answer, bounded_node_answer};
ghost use Rattle.between.specs.Metres.{MetresFound};
ghost use Rattle.between.specs.Rows.{Asked};

use crate::metres::{WIDEST, metres_at};
use model::{Network, Refusal};

// The metres from u to v, if they are within the bound.
fn distance_with(network: Network, bound: u32, u: u32, v: u32, row: &mut [u32]) -> Option<u32>
    requires asked { Asked (network_of network) u row.old }
    requires node { IsNode (network_of network) v }
    ensures { MetresFound (network_of network.entry) u bound v result }
{
    let _ = distance::distances_from(network, u, bound, row);
    metres_at(row, v)
}

fn distance_between(network: Network, bound: u32, u: u32, v: u32) -> Option<u32>
    requires { nodes_over_network_check (network_of network) u v ≡ accepted }
    ensures { MetresFound (network_of network.entry) u bound v result }
{
    let mut row = [0u32; Network::MAX_NODES as usize];
    distance_with(network, bound, u, v, &mut row)
}

// The least length over all walks from u to v. Refuses by 2, 6, 7 and 9.
#[tactic(auto, unfolding(crate::specs::Answers::node_answer, model::specs::Answer::answer))]
pub fn node_distance(network: Network, u: u32, v: u32) -> Result<Option<u32>, Refusal>
    ensures { result ≡ node_answer (network_of network.entry) u v }
{
    validate::check_nodes(network, u, v)?;
    Ok(distance_between(network, WIDEST, u, v))
}

// The same if it is at most the bound.
#[tactic(auto, unfolding(crate::specs::Answers::bounded_node_answer, model::specs::Answer::answer))]
pub fn bounded_node_distance(
    network: Network,
    bound: u32,
    u: u32,
    v: u32,
) -> Result<Option<u32>, Refusal>
    ensures { result ≡ bounded_node_answer (network_of network.entry) bound u v }
{
    validate::check_nodes(network, u, v)?;
    Ok(distance_between(network, bound, u, v))
}
