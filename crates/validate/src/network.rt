// Refusals 2, 6, 7 and 9: the lists of a network.
ghost use Rattle.std.specs.Prelude.{◌≡◌, length};
ghost use Rattle.model.specs.Network.{network_of};
ghost use Rattle.model.specs.Refusal.{or_else};
ghost use Rattle.validate.specs.Part.{with_nodes, with_lengths, with_edges};
ghost use Rattle.model.specs.Checks.{network_lists, network_values, sizes_check, nodes_check, lengths_check, lone_node_check};

use crate::number::{names_one, same_length};
use crate::scan::first_bad;
use model::{Fault, Network, NetworkSize, Refusal};

// 2.
#[tactic(auto, unfolding(model::specs::Checks::network_lists, model::specs::Refusal::or_else))]
fn check_lists(firsts: &[u32], seconds: &[u32], lengths: &[u32]) -> Result<(), Refusal>
    ensures { result ≡ network_lists (with_edges firsts.now seconds.now lengths.now) }
{
    same_length(firsts, lengths)?;
    same_length(seconds, lengths)
}

// 6: nodes or edges outside their limits.
#[tactic(auto, unfolding(model::specs::Answer::answer, model::specs::Made::network_size_of))]
fn check_sizes(nodes: u32, edges: usize) -> Result<(), Refusal>
    ensures { result ≡ sizes_check nodes edges }
{
    NetworkSize::new(nodes, edges)?;
    Ok(())
}

// 7: an edge ends at no node.
fn check_ends(network: Network) -> Result<(), Refusal>
    requires { (length network.firsts.now ≡ length network.lengths.now) × (length network.seconds.now ≡ length network.lengths.now) }
    ensures { result ≡ nodes_check (network_of network.entry) }
{
    first_bad(Fault::BadNode, 0, network.lengths.len(), |k| {
        Network::are_nodes(network.nodes, network.firsts[k], network.seconds[k])
    })
}

// 9: a length outside its limits.
fn check_lengths(lengths: &[u32]) -> Result<(), Refusal>
    ensures { result ≡ lengths_check (with_lengths lengths.now) }
{
    first_bad(
        Fault::BadLength,
        0,
        lengths.len(),
        |k| Network::is_length(lengths[k]),
    )
}

// 7 for a lone node.
fn check_lone_node(nodes: u32, v: u32) -> Result<(), Refusal>
    ensures { result ≡ lone_node_check (with_nodes nodes) v }
{
    if !names_one(nodes as u64, v) {
        return Err(Refusal {
            fault: Fault::BadNode,
            place: 0,
        });
    }
    Ok(())
}

// 7 for two lone nodes.
#[tactic(auto, unfolding(model::specs::Checks::lone_node_check, model::specs::Refusal::or_else))]
pub(crate) fn check_lone_nodes(nodes: u32, u: u32, v: u32) -> Result<(), Refusal>
    ensures { result ≡ or_else (lone_node_check (with_nodes nodes) u) (lone_node_check (with_nodes nodes) v) }
{
    check_lone_node(nodes, u)?;
    check_lone_node(nodes, v)
}

// 6, 7 and 9; lone is what the check of lone nodes said.
#[tactic(auto, unfolding(model::specs::Checks::lengths_check, model::specs::Checks::network_values, model::specs::Refusal::or_else))]
fn check_values(lone: Result<(), Refusal>, network: Network) -> Result<(), Refusal>
    requires { (length network.firsts.now ≡ length network.lengths.now) × (length network.seconds.now ≡ length network.lengths.now) }
    ensures { result ≡ network_values lone (network_of network.entry) }
{
    check_sizes(network.nodes, network.lengths.len())?;
    lone?;
    check_ends(network)?;
    check_lengths(network.lengths)
}

// A network and what is lent with it: 2 for the network's lists, then what the check of the other lists said, then 6, 7 and 9.
#[tactic(auto, unfolding(model::specs::Checks::network_lists, model::specs::Refusal::or_else))]
pub(crate) fn check_over(
    others: Result<(), Refusal>,
    lone: Result<(), Refusal>,
    network: Network,
) -> Result<(), Refusal>
    ensures { result ≡ or_else (network_lists (network_of network.entry)) (or_else others (network_values lone (network_of network.entry))) }
{
    check_lists(network.firsts, network.seconds, network.lengths)?;
    others?;
    check_values(lone, network)
}
