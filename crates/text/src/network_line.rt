// The form of a line of a network text.
ghost use Rattle.std.specs.Prelude.{◌≡◌};
ghost use Rattle.text.specs.NetworkText.{network_line_text, problem_in, arc_in};

use crate::fields::{Numbers, begins_with, numbers_of, same_bytes};

#[derive(Clone, Copy)]
pub enum NetworkLine {
    Remark,
    // Nodes and arcs.
    Problem(u32, u32),
    // From, to, weight.
    Arc(u32, u32, u32),
    Other,
}

#[tactic(auto, unfolding(crate::specs::NetworkText::problem_in))]
fn problem_of(numbers: Numbers) -> NetworkLine
    ensures { result ≡ problem_in numbers }
{
    match numbers {
        Numbers::Two(nodes, arcs) => NetworkLine::Problem(nodes, arcs),
        _ => NetworkLine::Other,
    }
}

#[tactic(auto, unfolding(crate::specs::NetworkText::arc_in))]
fn arc_of(numbers: Numbers) -> NetworkLine
    ensures { result ≡ arc_in numbers }
{
    match numbers {
        Numbers::Three(from, to, weight) => NetworkLine::Arc(from, to, weight),
        _ => NetworkLine::Other,
    }
}

// What a line is: a remark, `p sp N M`, `a U V W`, or none of these.
pub fn network_line_of(line: &[u8]) -> NetworkLine
    ensures { result ≡ network_line_text line.now }
{
    if same_bytes(line, b"c") || begins_with(b"c ", line) {
        return NetworkLine::Remark;
    }
    if let Some(numbers) = line.strip_prefix(b"p sp ") {
        return problem_of(numbers_of(numbers, b' '));
    }
    if let Some(numbers) = line.strip_prefix(b"a ") {
        return arc_of(numbers_of(numbers, b' '));
    }
    NetworkLine::Other
}
