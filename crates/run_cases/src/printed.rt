// The line of a refusal, printed into a list of bytes.
use crate::show::{answer, line_end, word};
use cases::{numbers, text};
use model::{Refusal, value_at};
use std::io::{Read, Write};

// No name of a file and no list of bytes is longer.
const TEXT: usize = 40;

// A refusal, and what the list of bytes holds.
fn refused(output: &mut impl Write, refusal: Refusal, out: &[u8]) {
    word(output, b"list of bytes");
    answer(output, refusal);
    word(output, out);
    line_end(output);
}

#[tactic(auto, unfolding(model::specs::Answer::answer, model::specs::Answer::written, model::specs::Checks::room_check))]
fn line(output: &mut impl Write, file: &[u8], number: u32, place: usize, out: &mut [u8]) {
    line_end(output);
    match printing::print_refusal(file, number, place, out) {
        // The bytes that were printed, for which there was room.
        Ok(count) => word(output, &out[..count]),
        Err(refusal) => refused(output, refusal, out),
    }
}

// What is printed for a case: the name of a file, what the list of bytes holds before, and a number and a place.
pub(crate) fn asked(input: &mut impl Read, output: &mut impl Write, room: &mut [u32]) {
    let mut first = [0u8; TEXT];
    let mut second = [0u8; TEXT];
    let file = text(input, &mut first);
    let out = text(input, &mut second);
    let lists = numbers(input, room);
    line(
        output,
        file,
        value_at(lists, 1),
        value_at(lists, 2) as usize,
        out,
    );
}
