// The size of a collection of events, with the limits of events and set numbers.
ghost use Rattle.std.specs.Prelude.{◌≡◌, leb};
ghost use Rattle.model.specs.Limits.{max_set};
ghost use Rattle.model.specs.Made.{event_set_of};

use crate::refusal::{Fault, Refusal};

#[derive(Clone, Copy)]
pub struct EventSet {
    pub len: usize,
}

impl EventSet {
    // In all sets together.
    pub const MAX_EVENTS: usize = 8192;
    // Set 0 is the observed one, the others are comparison sets.
    pub const MAX_SET: u32 = 31;

    // 15: too many events, at the first surplus one.
    #[tactic(auto, unfolding(crate::specs::Answer::answer, crate::specs::Checks::event_count_check, crate::specs::Made::event_set_of, crate::specs::Refusal::unless))]
    pub fn new(len: usize) -> Result<EventSet, Refusal>
        ensures { result ≡ event_set_of len }
    {
        if len <= EventSet::MAX_EVENTS {
            return Ok(EventSet { len });
        }
        Err(Refusal {
            fault: Fault::TooManyEvents,
            place: EventSet::MAX_EVENTS,
        })
    }

    // 12: a set number up to the limit.
    pub fn is_set(set: u32) -> bool
        ensures { result ≡ leb set max_set }
    {
        set <= EventSet::MAX_SET
    }
}
