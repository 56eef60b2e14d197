// The length of a text.
ghost use Rattle.std.specs.Prelude.{◌≡◌};
ghost use Rattle.text.specs.Reading.{length_check};

use model::{Fault, Refusal};

// Of every text.
pub const MAX_BYTES: usize = 60_000;

// 1: the text is too long.
#[tactic(auto, unfolding(model::specs::Refusal::unless, text::specs::Reading::length_check))]
pub fn check_length(text: &[u8]) -> Result<(), Refusal>
    ensures { result ≡ length_check text.now }
{
    if MAX_BYTES < text.len() {
        return Err(Refusal {
            fault: Fault::TooLong,
            place: 0,
        });
    }
    Ok(())
}
