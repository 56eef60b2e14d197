// The checks of lent lists against document 01, in its order: the lowest number decides, then the lowest place.
// Each module has the checks of some of its numbers, a function to a number.
#![tactic(auto)]

mod events;
mod network;
mod number;
mod scan;
mod sets;
mod thresholds;

ghost use Rattle.std.specs.Prelude.{◌≡◌};
ghost use Rattle.model.specs.Network.{network_of};
ghost use Rattle.model.specs.Checks.{network_check, nodes_over_network_check, locations_over_network_check, set_check, laid_out_check, sets_over_network_check, thresholds_check, layout_check};

use model::{Network, Refusal, Reports};
pub use number::{check_room, same_length};
pub use sets::greatest_set;

// A network alone: 2, then 6, 7 and 9.
pub fn check_network(network: Network) -> Result<(), Refusal>
    ensures { result ≡ network_check (network_of network.entry) }
{
    network::check_over(Ok(()), Ok(()), network)
}

// A network and two lone nodes.
pub fn check_nodes(network: Network, u: u32, v: u32) -> Result<(), Refusal>
    ensures { result ≡ nodes_over_network_check (network_of network.entry) u v }
{
    let lone = network::check_lone_nodes(network.nodes, u, v);
    network::check_over(Ok(()), lone, network)
}

// A network and two lone locations, each an edge number and an offset: 13 and 14 besides.
#[tactic(auto, unfolding(model::specs::Checks::locations_over_network_check, model::specs::Checks::lone_edge_check, model::specs::Checks::lone_offset_check, model::specs::Refusal::or_else))]
pub fn check_locations(
    network: Network,
    edge1: u32,
    offset1: u32,
    edge2: u32,
    offset2: u32,
) -> Result<(), Refusal>
    ensures { result ≡ locations_over_network_check (network_of network.entry) edge1 offset1 edge2 offset2 }
{
    check_network(network)?;
    events::check_lone_edge(network.lengths, edge1)?;
    events::check_lone_edge(network.lengths, edge2)?;
    events::check_lone_offset(network.lengths, edge1, offset1)?;
    events::check_lone_offset(network.lengths, edge2, offset2)
}

// One set in any order, over a network: 2, 6, 7, 9, 13 to 15.
#[tactic(auto, unfolding(model::specs::Checks::event_edges_check, model::specs::Checks::event_lists, model::specs::Checks::event_offsets_check, model::specs::Checks::event_values, model::specs::Checks::set_check, model::specs::Refusal::or_else))]
pub fn check_set(network: Network, edges: &[u32], offsets: &[u32]) -> Result<(), Refusal>
    ensures { result ≡ set_check (network_of network.entry) edges.now offsets.now }
{
    let lists = number::same_length(edges, offsets);
    network::check_over(lists, Ok(()), network)?;
    events::check_events(network.lengths, edges, offsets)
}

// One set given as laid out, over a network, and the number of one edge: 17 besides.
#[tactic(auto, unfolding(model::specs::Checks::event_edges_check, model::specs::Checks::event_lists, model::specs::Checks::event_offsets_check, model::specs::Checks::event_values, model::specs::Checks::laid_out_check, model::specs::Checks::lone_edge_check, model::specs::Refusal::or_else))]
pub fn check_laid_out(
    network: Network,
    edges: &[u32],
    offsets: &[u32],
    edge: u32,
) -> Result<(), Refusal>
    ensures { result ≡ laid_out_check (network_of network.entry) edges.now offsets.now edge }
{
    let lists = number::same_length(edges, offsets);
    network::check_over(lists, Ok(()), network)?;
    events::check_laid_out(network.lengths, edges, offsets, edge)
}

// All sets, in any order, over a network: 12 and 16 besides.
#[tactic(auto, unfolding(model::specs::Checks::event_edges_check, model::specs::Checks::event_lists, model::specs::Checks::event_offsets_check, model::specs::Checks::event_values, model::specs::Checks::set_lists, model::specs::Checks::sets_over_network_check, model::specs::Refusal::or_else))]
pub fn check_sets(network: Network, reports: Reports) -> Result<(), Refusal>
    ensures { result ≡ sets_over_network_check (network_of network.entry) reports.entry.sets.now reports.entry.edges.now reports.entry.offsets.now }
{
    let lists = sets::check_lists(reports);
    network::check_over(lists, Ok(()), network)?;
    sets::check_values(network.lengths, reports)
}

// A threshold list: 18 and 19.
#[tactic(auto, unfolding(model::specs::Checks::thresholds_check, model::specs::Refusal::or_else))]
pub fn check_thresholds(thresholds: &[u32]) -> Result<(), Refusal>
    ensures { result ≡ thresholds_check thresholds.now }
{
    thresholds::check_count(thresholds.len())?;
    thresholds::check_rising(thresholds)
}

// One set that is to be laid out, with no network: 2 and 15.
#[tactic(auto, unfolding(model::specs::Checks::event_lists, model::specs::Checks::layout_check, model::specs::Refusal::or_else))]
pub fn check_layout(edges: &[u32], offsets: &[u32]) -> Result<(), Refusal>
    ensures { result ≡ layout_check edges.now offsets.now }
{
    number::same_length(edges, offsets)?;
    events::check_count(edges.len())
}
