// The three readers.
use crate::functions::OnText;
use crate::labels::Label;
use crate::networks::network_of;
use crate::show::{answer, named};
use cases::{filled, list, numbers};
use std::io::{Read, Write};

// No text for a reader alone is longer.
const TEXT: usize = 200;

// No answer list of these cases is longer.
const ROOM: usize = 8;

fn thresholds(output: &mut impl Write, text: &[u8], lists: &[u32]) {
    let mut first = [0; ROOM];
    let thresholds = filled(list(lists, 1), &mut first);
    answer(output, threshold_reader::read_thresholds(text, thresholds));
    named(output, Label::Thresholds, thresholds);
}

// Over a network that is lent.
fn events(output: &mut impl Write, text: &[u8], lists: &[u32]) {
    let mut first = [0; ROOM];
    let mut second = [0; ROOM];
    let mut third = [0; ROOM];
    let sets = filled(list(lists, 4), &mut first);
    let edges = filled(list(lists, 5), &mut second);
    let offsets = filled(list(lists, 6), &mut third);
    answer(
        output,
        event_reader::read_events(text, network_of(lists), sets, edges, offsets),
    );
    named(output, Label::Sets, sets);
    named(output, Label::Edges, edges);
    named(output, Label::Offsets, offsets);
}

fn network(output: &mut impl Write, text: &[u8], lists: &[u32]) {
    let mut first = [0; ROOM];
    let mut second = [0; ROOM];
    let mut third = [0; ROOM];
    let firsts = filled(list(lists, 1), &mut first);
    let seconds = filled(list(lists, 2), &mut second);
    let lengths = filled(list(lists, 3), &mut third);
    answer(
        output,
        network_reader::read_network(text, firsts, seconds, lengths),
    );
    named(output, Label::FirstNodes, firsts);
    named(output, Label::SecondNodes, seconds);
    named(output, Label::Lengths, lengths);
}

fn on_text(output: &mut impl Write, function: OnText, text: &[u8], lists: &[u32]) {
    match function {
        OnText::ReadThresholds => thresholds(output, text, lists),
        OnText::ReadEvents => events(output, text, lists),
        OnText::ReadNetwork => network(output, text, lists),
    }
}

// What a reader says of a case.
pub(crate) fn asked(
    input: &mut impl Read,
    output: &mut impl Write,
    function: OnText,
    room: &mut [u32],
) {
    let mut bytes = [0u8; TEXT];
    let text = cases::text(input, &mut bytes);
    let lists = numbers(input, room);
    on_text(output, function, text, lists);
}
