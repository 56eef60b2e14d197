// Distances and perimeter counts.
use crate::show::{MetresOr, answer, answer_and_list};
use cases::{filled, list};
use model::{Network, value_at};
use std::io::Write;

pub(crate) fn of_nodes(output: &mut impl Write, network: Network, lists: &[u32]) {
    let found = between::node_distance(network, value_at(lists, 2), value_at(lists, 3));
    answer(output, found.map(|metres| MetresOr(metres, " no walk")));
}

pub(crate) fn of_nodes_within(output: &mut impl Write, network: Network, lists: &[u32]) {
    let found = between::bounded_node_distance(
        network,
        value_at(lists, 2),
        value_at(lists, 3),
        value_at(lists, 4),
    );
    answer(output, found.map(|metres| MetresOr(metres, " beyond")));
}

pub(crate) fn of_locations(output: &mut impl Write, network: Network, lists: &[u32]) {
    let found = between::location_distance(
        network,
        value_at(lists, 2),
        value_at(lists, 3),
        value_at(lists, 4),
        value_at(lists, 5),
    );
    answer(output, found.map(|metres| MetresOr(metres, " no walk")));
}

pub(crate) fn perimeter(output: &mut impl Write, network: Network, lists: &[u32]) {
    answer(
        output,
        perimeter::perimeter_count(
            network,
            value_at(lists, 2),
            value_at(lists, 3),
            value_at(lists, 4),
        ),
    );
}

// A row of bounded distances: 0 is beyond, else one more than the metres.
pub(crate) fn row(output: &mut impl Write, network: Network, lists: &[u32]) {
    let mut room = [0; 8];
    let row = filled(list(lists, 4), &mut room);
    let check = distance::distances_from(network, value_at(lists, 2), value_at(lists, 3), row);
    answer_and_list(output, check, row);
}

// The rows of the nodes that are wanted.
pub(crate) fn table(output: &mut impl Write, network: Network, lists: &[u32]) {
    let mut room = [0; 8];
    let table = filled(list(lists, 5), &mut room);
    let check = distance::end_distances(network, value_at(lists, 2), list(lists, 4), table);
    answer_and_list(output, check, table);
}
