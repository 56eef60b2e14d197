// The fields of a line.
ghost use Rattle.std.specs.Prelude.{◌≡◌, [], ◌∷◌, MatchOption};
ghost use Rattle.text.specs.Fields.{fields, same_bytes_of, begins_with_of, numbers_in, of_one, of_two, of_three};

use crate::number::number_of;
use crate::search::first_at;

// Fields that are one, two or three numbers and nothing else.
#[derive(Clone, Copy)]
pub enum Numbers {
    Nothing,
    One(u32),
    Two(u32, u32),
    Three(u32, u32, u32),
}

// The two lists hold the same bytes.
pub fn same_bytes(a: &[u8], b: &[u8]) -> bool
    ensures { result ≡ same_bytes_of a.now b.now }
{
    a == b
}

// The line begins with these bytes.
pub fn begins_with(bytes: &[u8], line: &[u8]) -> bool
    ensures { result ≡ begins_with_of bytes.now line.now }
{
    line.starts_with(bytes)
}

#[tactic(auto, unfolding(crate::specs::Fields::of_one))]
fn one(a: Option<u32>) -> Numbers
    ensures { result ≡ of_one a }
{
    match a {
        Some(x) => Numbers::One(x),
        None => Numbers::Nothing,
    }
}

#[tactic(auto, unfolding(crate::specs::Fields::of_two))]
fn two(a: Option<u32>, b: Option<u32>) -> Numbers
    ensures { result ≡ of_two a b }
{
    match (a, b) {
        (Some(x), Some(y)) => Numbers::Two(x, y),
        _ => Numbers::Nothing,
    }
}

#[tactic(auto, unfolding(crate::specs::Fields::of_three))]
fn three(a: Option<u32>, b: Option<u32>, c: Option<u32>) -> Numbers
    ensures { result ≡ of_three a b c }
{
    match (a, b, c) {
        (Some(x), Some(y), Some(z)) => Numbers::Three(x, y, z),
        _ => Numbers::Nothing,
    }
}

// The first field of a line, and what stands behind its separator, where it has one.
fn first_field(line: &[u8], sep: u8) -> (&[u8], Option<&[u8]>)
    ensures { MatchOption result.1 (fields sep line.now ≡ result.0.now ∷ []) (λ rest. fields sep line.now ≡ result.0.now ∷ fields sep rest.now) }
{
    let end = first_at(sep, line);
    if line.len() <= end {
        return (line, None);
    }
    (&line[..end], Some(&line[end + 1..]))
}

// The numbers of a line whose fields are parted by sep.
pub fn numbers_of(line: &[u8], sep: u8) -> Numbers
    ensures { result ≡ numbers_in (fields sep line.now) }
{
    let (first, behind_first) = first_field(line, sep);
    let Some(rest) = behind_first else {
        return one(number_of(first));
    };
    let (second, behind_second) = first_field(rest, sep);
    let Some(rest) = behind_second else {
        return two(number_of(first), number_of(second));
    };
    let (third, behind_third) = first_field(rest, sep);
    if let Some(_) = behind_third {
        return Numbers::Nothing;
    }
    three(number_of(first), number_of(second), number_of(third))
}
