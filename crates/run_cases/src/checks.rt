// The checks of lists that begin with a network.
use crate::networks::reports_of;
use crate::show::answer;
use cases::list;
use model::{Network, value_at};
use std::io::Write;

// Two nodes, at place 0.
pub(crate) fn two_nodes(output: &mut impl Write, network: Network, lists: &[u32]) {
    answer(
        output,
        validate::check_nodes(network, value_at(lists, 2), value_at(lists, 3)),
    );
}

// Two locations, at place 0.
pub(crate) fn two_locations(output: &mut impl Write, network: Network, lists: &[u32]) {
    answer(
        output,
        validate::check_locations(
            network,
            value_at(lists, 2),
            value_at(lists, 3),
            value_at(lists, 4),
            value_at(lists, 5),
        ),
    );
}

pub(crate) fn sets(output: &mut impl Write, network: Network, lists: &[u32]) {
    answer(output, validate::check_sets(network, reports_of(lists)));
}

pub(crate) fn set(output: &mut impl Write, network: Network, lists: &[u32]) {
    answer(
        output,
        validate::check_set(network, list(lists, 4), list(lists, 5)),
    );
}

// Events given as laid out, with an edge asked for.
pub(crate) fn laid_out(output: &mut impl Write, network: Network, lists: &[u32]) {
    answer(
        output,
        validate::check_laid_out(network, list(lists, 4), list(lists, 5), value_at(lists, 2)),
    );
}
