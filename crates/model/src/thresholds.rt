// The size of a threshold list, with its limit.
ghost use Rattle.std.specs.Prelude.{◌≡◌};
ghost use Rattle.model.specs.Made.{thresholds_of};

use crate::refusal::{Fault, Refusal};

#[derive(Clone, Copy)]
pub struct Thresholds {
    pub len: usize,
}

impl Thresholds {
    pub const MAX_THRESHOLDS: usize = 64;

    // 18: no thresholds, at the end; or too many, at the first surplus one.
    #[tactic(auto, unfolding(crate::specs::Answer::answer, crate::specs::Checks::threshold_count_check, crate::specs::Made::thresholds_of, crate::specs::Refusal::or_else, crate::specs::Refusal::unless))]
    pub fn new(len: usize) -> Result<Thresholds, Refusal>
        ensures { result ≡ thresholds_of len }
    {
        if len < 1 {
            return Err(Refusal {
                fault: Fault::BadThresholds,
                place: 0,
            });
        }
        if Thresholds::MAX_THRESHOLDS < len {
            return Err(Refusal {
                fault: Fault::BadThresholds,
                place: Thresholds::MAX_THRESHOLDS,
            });
        }
        Ok(Thresholds { len })
    }
}
