// Laid-out events cut into runs on one edge of one set.
ghost use Rattle.std.specs.Prelude.{◌≡◌, suc, ◌≤◌, ◌<◌, length, get_or};
ghost use Rattle.prepare.specs.Cutting.{ends_run_of, Cuttable, CutTo, Startable, SetsCut};
ghost use Rattle.prepare.specs.Prepared.{KeptFrom};

// A run ends at a place: the events end there, or the edge changes.
#[tactic(auto, unfolding(crate::specs::Cutting::ends_run_of))]
fn ends_run(edges: &[u32], to: usize, k: usize) -> bool
    requires { (1 ≤ k) × (k ≤ to) × (to ≤ length edges.now) }
    ensures { result ≡ ends_run_of edges.now to k }
{
    k == to || edges[k] != edges[k - 1]
}

// Cuts the events from the last bound to another place into runs, and gives the number of runs then.
fn cut(edges: &[u32], from: usize, to: usize, bounds: &mut [u32], runs: usize) -> usize
    requires { Cuttable edges.now bounds.old runs from to }
    ensures cut_to { CutTo edges.now bounds.old runs to result bounds.new }
    ensures kept_from { KeptFrom (suc result) bounds.old bounds.new }
{
    let mut r = runs;
    for k in from + 1..to + 1 {
        if ends_run(edges, to, k) {
            r += 1;
            bounds[r] = k as u32;
        }
    }
    r
}

// Cuts so many sets into runs, and notes the number of the run with which each begins.
pub(crate) fn cut_sets(
    starts: &[u32],
    count: usize,
    edges: &[u32],
    bounds: &mut [u32],
    set_runs: &mut [u32],
)
    requires { Startable starts.now edges.now bounds.old set_runs.old count }
    ensures sets_cut { SetsCut starts.now edges.now bounds.new set_runs.new count }
    ensures kept_from { KeptFrom (suc (get_or set_runs.new count 0)) bounds.old bounds.new × KeptFrom (suc count) set_runs.old set_runs.new }
{
    bounds[0] = 0;
    set_runs[0] = 0;
    let mut runs = 0;
    for s in 0..count {
        runs = cut(
            edges,
            starts[s] as usize,
            starts[s + 1] as usize,
            bounds,
            runs,
        );
        set_runs[s + 1] = runs as u32;
    }
}
