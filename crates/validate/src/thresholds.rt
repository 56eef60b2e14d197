// Refusals 18 and 19: a threshold list.
ghost use Rattle.std.specs.Prelude.{◌≡◌};
ghost use Rattle.model.specs.Checks.{threshold_count_check, rising_check};

use crate::scan::first_bad;
use model::{Fault, Refusal, Thresholds};

// 18: no thresholds or more than may be given.
#[tactic(auto, unfolding(model::specs::Answer::answer, model::specs::Made::thresholds_of))]
pub(crate) fn check_count(count: usize) -> Result<(), Refusal>
    ensures { result ≡ threshold_count_check count }
{
    Thresholds::new(count)?;
    Ok(())
}

// 19: a threshold not above the one before it.
pub(crate) fn check_rising(thresholds: &[u32]) -> Result<(), Refusal>
    ensures { result ≡ rising_check thresholds.now }
{
    first_bad(
        Fault::NotRising,
        1,
        thresholds.len(),
        |k| thresholds[k - 1] < thresholds[k],
    )
}
