// This program runs cases with known answers. Those over lists are about the checks, laying out, the events on an edge, distances,
// perimeter counts, the three methods, stored numbers, cursors and all of them at once, and meet each refusal number that lists can meet.
// Those over texts are about the three readers, with each refusal number at several places, and about the line of a refusal. The cases
// stand in stdin, as the crate `cases` reads them, texts first, then lists. The first list of a case holds lone numbers, and the last ones
// are answer lists: what stands in them shows what was not written. A new function is a variant and a number in functions, an arm of
// `on_lists` here, of `on_network` in networks or of `on_text` in readers, and a section of stdin.
#![tactic(auto)]

mod checks;
mod counts;
mod cursors;
mod distances;
mod events;
mod functions;
mod labels;
mod networks;
mod printed;
mod readers;
mod show;

use crate::functions::{Function, OnLists, OnNetwork};
use crate::show::answer;
use cases::{list, next_case, numbers};
use std::io::{Read, Write};

// There are not so many cases.
const MANY: u32 = 1000;

// What a function says of the lists of a case.
fn on_lists(input: &mut impl Read, output: &mut impl Write, function: OnLists, room: &mut [u32]) {
    let lists = numbers(input, room);
    match function {
        OnLists::CheckThresholds => answer(output, validate::check_thresholds(list(lists, 1))),
        OnLists::LayOut => events::laid_out(output, lists),
    }
}

// What a function says of a case that begins with a network.
fn on_network(
    input: &mut impl Read,
    output: &mut impl Write,
    function: OnNetwork,
    room: &mut [u32],
) {
    let lists = numbers(input, room);
    networks::asked(output, function, lists);
}

// What a function says of a case.
fn asked(input: &mut impl Read, output: &mut impl Write, function: Function, room: &mut [u32]) {
    match function {
        Function::OnLists(function) => on_lists(input, output, function, room),
        Function::OnNetwork(function) => on_network(input, output, function, room),
        Function::OnText(function) => readers::asked(input, output, function, room),
        Function::PrintRefusal => printed::asked(input, output, room),
    }
}

// The cases one after the other, up to the end of the input.
fn cases(input: &mut impl Read, output: &mut impl Write, room: &mut [u32]) {
    let mut number = 0;
    for _ in 0..MANY {
        number = next_case(input, output, number, room);
        let Some(function) = Function::from_number(number) else {
            return;
        };
        asked(input, output, function, room);
    }
}

fn main(rt: HostRuntime) {
    let mut room = [0; 25000];
    cases(&mut rt.stdin(), &mut rt.stdout(), &mut room);
}
