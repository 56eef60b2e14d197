// Refusals 2, 12 and 16: set numbers, and the sizes of the comparison sets.
ghost use Rattle.std.specs.Prelude.{◌≡◌, length, get_or, ℕ, ◌≤◌, ◌<◌};
ghost use Rattle.model.specs.Limits.{max_set};
ghost use Rattle.model.specs.Events.{set_size, greatest_set_of};
ghost use Rattle.model.specs.Refusal.{or_else};
ghost use Rattle.validate.specs.Part.{with_lengths};
ghost use Rattle.model.specs.Checks.{set_lists, set_numbers_check, event_values, equal_sets_check};

use crate::events::check_events;
use crate::number::same_length;
use crate::scan::first_bad;
use model::{EventSet, Fault, Refusal, Reports};

// As many as there are set numbers.
const SETS: usize = EventSet::MAX_SET as usize + 1;

// 2 for events with set numbers.
#[tactic(auto, unfolding(model::specs::Checks::event_lists, model::specs::Checks::set_lists, model::specs::Refusal::or_else))]
pub(crate) fn check_lists(reports: Reports) -> Result<(), Refusal>
    ensures { result ≡ set_lists reports.entry.sets.now reports.entry.edges.now reports.entry.offsets.now }
{
    same_length(reports.sets, reports.edges)?;
    same_length(reports.edges, reports.offsets)
}

// 12: a set number above the greatest.
fn check_set_numbers(sets: &[u32]) -> Result<(), Refusal>
    ensures { result ≡ set_numbers_check sets.now }
{
    first_bad(Fault::BadSet, 0, sets.len(), |k| EventSet::is_set(sets[k]))
}

// How many events each set has.
fn count_sets(sets: &[u32]) -> [usize; SETS]
    requires { (k : ℕ) → k < length sets.now → get_or sets.now k 0 ≤ max_set }
    ensures { (s : ℕ) → s ≤ max_set → get_or result s 0 ≡ set_size sets.now s }
{
    let mut sizes = [0usize; SETS];
    for set in sets {
        sizes[*set as usize] += 1;
    }
    sizes
}

// The greatest set number, 0 if there is none.
pub fn greatest_set(sets: &[u32]) -> u32
    ensures { result ≡ greatest_set_of sets.now }
{
    sets.iter().copied().max().unwrap_or(0)
}

// 16: a comparison set up to the greatest one differs in size from set 0, at the lowest such set.
fn check_equal_sets(sets: &[u32]) -> Result<(), Refusal>
    requires { (k : ℕ) → k < length sets.now → get_or sets.now k 0 ≤ max_set }
    ensures { result ≡ equal_sets_check sets.now }
{
    let sizes = count_sets(sets);
    let greatest = greatest_set(sets) as usize;
    for s in 1..=greatest {
        if sizes[s] != sizes[0] {
            return Err(Refusal {
                fault: Fault::UnequalSets,
                place: s,
            });
        }
    }
    Ok(())
}

// 12, 13 to 15 and 16: events with set numbers.
#[tactic(auto, unfolding(model::specs::Refusal::or_else))]
pub(crate) fn check_values(lengths: &[u32], reports: Reports) -> Result<(), Refusal>
    requires { length reports.edges.now ≡ length reports.offsets.now }
    ensures { result ≡ or_else (set_numbers_check reports.entry.sets.now) (or_else (event_values (with_lengths lengths.now) reports.entry.edges.now reports.entry.offsets.now) (equal_sets_check reports.entry.sets.now)) }
{
    check_set_numbers(reports.sets)?;
    check_events(lengths, reports.edges, reports.offsets)?;
    check_equal_sets(reports.sets)
}
