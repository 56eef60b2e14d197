// Positions and moves of the cursors of two edges. Each is told as one more, and 0 where there is no cursor. The routes stand first to
// first end, first to second, second to first, second to second; then the window's two.
use crate::labels::Label;
use crate::show::{line_end, named, named_answer};
use cases::{filled, list};
use model::{Network, value_at};
use std::io::Write;

pub(crate) fn swept(output: &mut impl Write, network: Network, lists: &[u32]) {
    line_end(output);
    let mut first = [0; 32];
    let mut second = [0; 8];
    let positions = filled(list(lists, 6), &mut first);
    let moves = filled(list(lists, 7), &mut second);
    let check = sweep::cursors(
        network,
        list(lists, 4),
        list(lists, 5),
        value_at(lists, 2),
        value_at(lists, 3),
        value_at(lists, 4),
        value_at(lists, 5),
        positions,
        moves,
    );
    named_answer(output, Label::Positions, check, positions);
    named(output, Label::Moves, moves);
}
