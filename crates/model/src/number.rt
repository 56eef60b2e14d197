// Numbers compared, and places counted, as several crates want them.
ghost use Rattle.std.specs.Prelude.{◌≡◌};
ghost use Rattle.model.specs.Counting.{covered};
ghost use Rattle.model.specs.Refusal.{is_between_of};

// The number is from low to high, both included.
#[tactic(auto, unfolding(crate::specs::Refusal::is_between_of))]
pub fn is_between(low: u64, high: u64, n: u64) -> bool
    ensures { result ≡ is_between_of low high n }
{
    low <= n && n <= high
}

// Of so many places the first, the last and a window (from below on up to before upto, which is no less), what overlaps counted once.
pub fn covered(places: u64, first: u64, last: u64, below: u64, upto: u64) -> u64
    ensures { result ≡ covered places first last below upto }
{
    let rest = places.saturating_sub(last);
    let before_window = below.min(rest).saturating_sub(first);
    let behind_window = rest.saturating_sub(upto.max(first));
    places
        .saturating_sub(before_window)
        .saturating_sub(behind_window)
}
