// The three methods, each by itself; stored numbers; the three methods and the cursors together.
use crate::labels::Label;
use crate::networks::reports_of;
use crate::show::{line_end, named, named_answer};
use cases::{filled, list};
use counting::Method;
use model::{Network, value_at};
use std::io::Write;

const METHODS: [(Label, Method); 3] = [
    (Label::RangeQuery, Method::RangeQuery),
    (Label::CountAugmentation, Method::CountAugmentation),
    (Label::NeighborSharing, Method::NeighborSharing),
];

fn one(output: &mut impl Write, label: Label, method: Method, network: Network, lists: &[u32]) {
    let mut room = [0; 128];
    let counts = filled(list(lists, 8), &mut room);
    let check = counting::counts(method, network, reports_of(lists), list(lists, 7), counts);
    named_answer(output, label, check, counts);
}

pub(crate) fn three(output: &mut impl Write, network: Network, lists: &[u32]) {
    line_end(output);
    for (label, method) in METHODS {
        one(output, label, method, network, lists);
    }
}

pub(crate) fn stored(output: &mut impl Write, network: Network, lists: &[u32]) {
    line_end(output);
    let mut first = [0; 16];
    let mut second = [0; 16];
    let near_first = filled(list(lists, 6), &mut first);
    let near_second = filled(list(lists, 7), &mut second);
    let check = count_augmentation::augment(
        network,
        list(lists, 4),
        list(lists, 5),
        near_first,
        near_second,
    );
    named_answer(output, Label::NearFirst, check, near_first);
    named(output, Label::NearSecond, near_second);
}

pub(crate) fn all_at_once(output: &mut impl Write, network: Network, lists: &[u32]) {
    line_end(output);
    let mut first = [0; 16];
    let mut second = [0; 16];
    let mut third = [0; 16];
    let mut fourth = [0; 32];
    let mut fifth = [0; 8];
    let by_range = filled(list(lists, 8), &mut first);
    let by_augmentation = filled(list(lists, 9), &mut second);
    let by_sharing = filled(list(lists, 10), &mut third);
    let positions = filled(list(lists, 11), &mut fourth);
    let moves = filled(list(lists, 12), &mut fifth);
    let check = pair_counts::pair_counts(
        network,
        reports_of(lists),
        list(lists, 7),
        value_at(lists, 2),
        value_at(lists, 3),
        value_at(lists, 4),
        value_at(lists, 5),
        by_range,
        by_augmentation,
        by_sharing,
        positions,
        moves,
    );
    named_answer(output, Label::RangeQuery, check, by_range);
    named(output, Label::CountAugmentation, by_augmentation);
    named(output, Label::NeighborSharing, by_sharing);
    named(output, Label::Positions, positions);
    named(output, Label::Moves, moves);
}
