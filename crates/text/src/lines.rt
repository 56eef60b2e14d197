// The lines of what is left of a text, one at a time.
ghost use Rattle.std.specs.Prelude.{◌≡◌};
ghost use Rattle.text.specs.NextLine.{line_to, feed_line_of, csv_line_of};

use crate::search::{first_at, pair_at};

// Where the first line ends, and where the next one begins.
#[derive(Clone, Copy)]
pub struct Line {
    pub end: usize,
    pub next: usize,
}

// The line up to a place, and behind it a line end of so many bytes, which the last line may lack.
#[tactic(auto, unfolding(crate::specs::NextLine::line_to))]
fn line_to(end: usize, width: usize, rest: &[u8]) -> Line
    ensures { result ≡ line_to end width rest.now }
{
    let next = end.saturating_add(width).min(rest.len());
    Line { end, next }
}

// Lines ended by a line feed.
#[tactic(auto, unfolding(crate::specs::NextLine::feed_line_of))]
pub fn feed_line(rest: &[u8]) -> Line
    ensures { result ≡ feed_line_of rest.now }
{
    line_to(first_at(b'\n', rest), 1, rest)
}

// Lines ended by a carriage return and a line feed.
#[tactic(auto, unfolding(crate::specs::NextLine::csv_line_of))]
pub fn csv_line(rest: &[u8]) -> Line
    ensures { result ≡ csv_line_of rest.now }
{
    line_to(pair_at(b'\r', b'\n', rest), 2, rest)
}
