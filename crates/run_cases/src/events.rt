// Laying out, and the events on an edge.
use crate::labels::Label;
use crate::show::{Show, answer, entries, line_end, named, word};
use cases::{filled, list};
use model::{Network, value_at};
use std::io::Write;

pub(crate) fn laid_out(output: &mut impl Write, lists: &[u32]) {
    let mut first = [0; 8];
    let mut second = [0; 8];
    let edges = filled(list(lists, 1), &mut first);
    let offsets = filled(list(lists, 2), &mut second);
    answer(output, layout::lay_out(edges, offsets));
    named(output, Label::Edges, edges);
    named(output, Label::Offsets, offsets);
}

// The events on an edge, and the number and the place told beside them.
pub(crate) fn stretch(output: &mut impl Write, network: Network, lists: &[u32]) {
    let mut number = 9;
    let mut place = 9;
    let found = layout::events_on(
        network,
        list(lists, 4),
        list(lists, 5),
        value_at(lists, 2),
        &mut number,
        &mut place,
    );
    entries(output, found);
    told(output, number, place);
}

fn told(output: &mut impl Write, number: u32, place: usize) {
    word(output, b"number and place:");
    number.show(output);
    place.show(output);
    line_end(output);
}
