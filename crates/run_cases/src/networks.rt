// Functions of a network and more.
use crate::functions::OnNetwork;
use crate::show::answer;
use crate::{checks, counts, cursors, distances, events};
use cases::list;
use model::{Network, Reports, value_at};
use std::io::Write;

// The network that the lists of a case begin with.
pub(crate) fn network_of(lists: &[u32]) -> Network {
    Network {
        nodes: value_at(lists, 1),
        firsts: list(lists, 1),
        seconds: list(lists, 2),
        lengths: list(lists, 3),
    }
}

// The reports that follow the network.
pub(crate) fn reports_of(lists: &[u32]) -> Reports {
    Reports {
        sets: list(lists, 4),
        edges: list(lists, 5),
        offsets: list(lists, 6),
    }
}

// What a function says of a network and the lists of a case.
fn on_network(output: &mut impl Write, function: OnNetwork, network: Network, lists: &[u32]) {
    match function {
        OnNetwork::CheckNetwork => answer(output, validate::check_network(network)),
        OnNetwork::CheckNodes => checks::two_nodes(output, network, lists),
        OnNetwork::CheckLocations => checks::two_locations(output, network, lists),
        OnNetwork::CheckSets => checks::sets(output, network, lists),
        OnNetwork::CheckSet => checks::set(output, network, lists),
        OnNetwork::CheckLaidOut => checks::laid_out(output, network, lists),
        OnNetwork::EventsOn => events::stretch(output, network, lists),
        OnNetwork::NodeDistance => distances::of_nodes(output, network, lists),
        OnNetwork::BoundedNodeDistance => distances::of_nodes_within(output, network, lists),
        OnNetwork::LocationDistance => distances::of_locations(output, network, lists),
        OnNetwork::PerimeterCount => distances::perimeter(output, network, lists),
        OnNetwork::DistancesFrom => distances::row(output, network, lists),
        OnNetwork::EndDistances => distances::table(output, network, lists),
        OnNetwork::Counts => counts::three(output, network, lists),
        OnNetwork::Augment => counts::stored(output, network, lists),
        OnNetwork::Cursors => cursors::swept(output, network, lists),
        OnNetwork::PairCounts => counts::all_at_once(output, network, lists),
    }
}

// What a function says of the network and the other lists of a case.
pub(crate) fn asked(output: &mut impl Write, function: OnNetwork, lists: &[u32]) {
    on_network(output, function, network_of(lists), lists);
}
