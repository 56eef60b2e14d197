// Reading names, numbers and texts.
ghost use Rattle.std.specs.Prelude.{◌≤◌, IfSome, max, length};

use std::io::{Read, Write};
use std::num::NonZeroU32;

// No name, and no words in front of a number, have more bytes.
const MAX_BYTES: u32 = 1000;

const MAX_FUNCTION: u32 = 1000;

// A number, and the byte behind it.
#[derive(Drop)]
struct NumberRead {
    value: u32,
    behind: u8,
}

// A value that stands several times.
#[derive(Drop)]
struct Run<T> {
    times: NonZeroU32,
    value: T,
}

// The value so many times; no run where that is never.
fn repeated<T: Drop>(times: u32, value: T) -> Option<Run<T>> {
    Some(Run {
        times: NonZeroU32::new(times)?,
        value,
    })
}

// The next byte, or a line feed where the input has ended or a read fails.
fn byte<R: Read>(input: &mut R) -> u8 {
    let mut bytes = [b'\n'];
    match input.read_exact(&mut bytes) {
        Ok(()) => bytes[0],
        Err(_) => b'\n',
    }
}

// The number with one more digit, or 0 where that has more than 32 bits.
fn with_digit(value: u32, digit: u8) -> u32 {
    let more = u64::from(value) * 10 + u64::from(digit.saturating_sub(b'0'));
    u32::try_from(more).unwrap_or(0)
}

// The number that goes on with the next byte.
fn number<R: Read>(input: &mut R, start: u32) -> NumberRead {
    let mut value = start;
    for _ in 0..MAX_BYTES {
        let b = byte(input);
        if !b.is_ascii_digit() {
            return NumberRead { value, behind: b };
        }
        value = with_digit(value, b);
    }
    NumberRead {
        value,
        behind: b'\n',
    }
}

// The first digit behind words; none at an empty line.
fn first_digit<R: Read>(input: &mut R) -> Option<u8> {
    let mut is_line_empty = true;
    for _ in 0..MAX_BYTES {
        let b = byte(input);
        if b.is_ascii_digit() {
            return Some(b);
        }
        let ends_line = b == b'\n';
        if ends_line && is_line_empty {
            return None;
        }
        is_line_empty = ends_line;
    }
    None
}

// A number that stands several times; none at all where the list has ended.
fn next_number_run<R: Read>(input: &mut R) -> Option<Run<u32>> {
    let digit = first_digit(input)?;
    let first = number(input, with_digit(0, digit));
    if first.behind != b'x' {
        return repeated(1, first.value);
    }
    let second = number(input, 0);
    repeated(first.value, second.value)
}

// The byte that an escape stands for.
fn escaped<R: Read>(input: &mut R) -> Option<Run<u8>> {
    let b = byte(input);
    if b.is_ascii_digit() {
        let times = number(input, with_digit(0, b));
        return repeated(times.value, byte(input));
    }
    match b {
        b'n' => repeated(1, b'\n'),
        b'r' => repeated(1, b'\r'),
        _ => repeated(1, b),
    }
}

// A byte that stands several times; none at all where the text has ended.
fn next_byte_run<R: Read>(input: &mut R) -> Option<Run<u8>> {
    let b = byte(input);
    match b {
        b'\n' => None,
        b'\\' => escaped(input),
        _ => repeated(1, b),
    }
}

// Fills the list with runs until there is none, or the list is full, and answers the part that was filled.
fn fill<'a, T: Copy, R: Read, F: Fn(&mut R) -> Option<Run<T>>>(
    input: &mut R,
    list: &'a mut [T],
    next_run: F,
) -> &'a mut [T]
    requires callable { F.IsAlwaysCallable next_run }
    requires copied { (value : T) → T.is_infallible value }
    ensures { length result.now ≤ length list.old }
{
    let mut count = 0;
    // Each turn fills as many places as its run is long, so this is no `for`.
    while count < list.len() {
        let Some(run) = next_run(input) else {
            return &mut list[..count];
        };
        let end = count
            .saturating_add(run.times.get() as usize)
            .min(list.len());
        list[count..end].fill(run.value);
        count = end;
    }
    list
}

// Reads numbers up to an empty line, or as many as the list holds, and answers the part of the list that was filled.
pub fn numbers<'a, R: Read>(input: &mut R, list: &'a mut [u32]) -> &'a mut [u32]
    ensures { length result.now ≤ length list.old }
{
    fill(input, list, |input| next_number_run(input))
}

// Reads a text, or as much of it as the list holds, and answers the part of the list that was filled.
pub fn text<'a, R: Read>(input: &mut R, list: &'a mut [u8]) -> &'a mut [u8]
    ensures { length result.now ≤ length list.old }
{
    fill(input, list, |input| next_byte_run(input))
}

// Prints the next line of the input, without its end, and answers how many bytes it has. A write that fails is passed over.
fn name<R: Read, W: Write>(input: &mut R, output: &mut W) -> u32 {
    for count in 0..MAX_BYTES {
        let b = byte(input);
        if b == b'\n' {
            return count;
        }
        let _ = output.write_all(&[b]);
    }
    MAX_BYTES
}

// The number of the function that the next section is about; none where there is no section, or the number is too great.
fn next_section<R: Read>(input: &mut R, room: &mut [u32]) -> Option<u32>
    ensures { IfSome result (λ function. function ≤ 1000) }
{
    let function = *numbers(input, room).first()?;
    if MAX_FUNCTION < function {
        return None;
    }
    Some(function)
}

// Prints the name of the next case, and answers the number of the function that it is about, 0 where there are no more cases. That of the
// case before is given, 0 at the start. A list is lent to read with.
pub fn next_case<R: Read, W: Write>(
    input: &mut R,
    output: &mut W,
    function: u32,
    room: &mut [u32],
) -> u32
    ensures { result ≤ max function 1000 }
{
    if 0 < function {
        if 0 < name(input, output) {
            return function;
        }
    }
    let next = next_section(input, room).unwrap_or(0);
    name(input, output);
    next
}
