// The stored numbers of all runs.
ghost use Rattle.counting.specs.Runs.{RunsStorable, RunsStored};

use count_augmentation::store;
use model::value_at;

// The stored numbers of so many runs, each in its part of the two lists.
pub(crate) fn store_runs(
    offsets: &[u32],
    bounds: &[u32],
    runs: usize,
    near_first: &mut [u32],
    near_second: &mut [u32],
)
    requires { RunsStorable offsets.now bounds.now near_first.old near_second.old runs }
    ensures { RunsStored offsets.now bounds.now near_first.new near_second.new runs }
{
    for k in 0..runs {
        let from = value_at(bounds, k) as usize;
        let to = value_at(bounds, k + 1) as usize;
        store(
            &offsets[from..to],
            &mut near_first[from..to],
            &mut near_second[from..to],
        );
    }
}
