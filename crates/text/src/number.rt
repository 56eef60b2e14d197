// A number in a text.
ghost use Rattle.std.specs.Prelude.{cond, ◌&&◌, ◌||◌, not, ◌≡◌, eqb, leb, length, get_or, Some, None};
ghost use Rattle.model.specs.Refusal.{is_between_of};
ghost use Rattle.text.specs.Numbers.{all_digits_of, decimal, max_digits, max_number, number_of};

// The most digits that a number may have, and the greatest number.
pub const MAX_DIGITS: usize = 10;

pub const MAX_NUMBER: u64 = 4_294_967_295;

// As many bytes as a number may have, the first of them no leading zero.
#[tactic(auto, unfolding(model::specs::Refusal::is_between_of))]
fn has_shape(field: &[u8]) -> bool
    ensures { result ≡ (is_between_of 1 max_digits (length field.now) &&
        (eqb (length field.now) 1 || not (eqb (get_or field.now 0 0) 48))) }
{
    match field {
        [] => false,
        [_] => true,
        [first, ..] => field.len() <= MAX_DIGITS && *first != b'0',
    }
}

// What the bytes stand for, where all are digits and the number is not above the limit.
fn value_of(field: &[u8]) -> Option<u32>
    ensures { result ≡ cond (all_digits_of field.now && leb (decimal 0 field.now) max_number)
        (Some (decimal 0 field.now)) None }
{
    let mut value: u64 = 0;
    for byte in field {
        if !byte.is_ascii_digit() {
            return None;
        }
        value = value * 10 + u64::from(*byte - b'0');
        if MAX_NUMBER < value {
            return None;
        }
    }
    let read = value as u32;
    Some(read)
}

// The number that a field is.
pub fn number_of(field: &[u8]) -> Option<u32>
    ensures { result ≡ number_of field.now }
{
    if has_shape(field) {
        value_of(field)
    } else {
        None
    }
}
