// The scan that most checks make.
ghost use Rattle.std.specs.Prelude.{◌≡◌, ℕ, ◌-◌, ◌≤◌, ◌<◌, Bool};
ghost use Rattle.model.specs.Refusal.{first_bad_from};

use model::{Fault, Refusal};

// The fault at the lowest of the places from start up to before end at which the test fails.
pub(crate) fn first_bad<F: Fn(usize) -> bool>(
    fault: Fault,
    start: usize,
    end: usize,
    good: F,
) -> Result<(), Refusal>
    requires { (k : ℕ) → start ≤ k → k < end → F.pre good k }
    ensures { (test : ℕ → Bool) (n : ℕ) → end - start ≡ n → ((k : ℕ) (r : Bool) → start ≤ k → k < end → F.post good k r → r ≡ test k) → result ≡ first_bad_from fault test start n }
{
    for k in start..end {
        if !good(k) {
            return Err(Refusal { fault, place: k });
        }
    }
    Ok(())
}
