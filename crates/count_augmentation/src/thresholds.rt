// Places of rising thresholds.
ghost use Rattle.std.specs.Prelude.{◌≤◌, length};
ghost use Rattle.edge_pair.specs.Offsets.{Ordered};
ghost use Rattle.count_augmentation.specs.Thresholds.{NotBelow, Parted};

// From a place on, the first threshold that is not below so many metres.
fn walk_up(thresholds: &[u32], metres: u64, from: usize) -> usize
    ensures { (result ≤ length thresholds.now) × (Ordered thresholds.now → NotBelow thresholds.now metres result) }
{
    for k in from..thresholds.len() {
        if metres <= thresholds[k] as u64 {
            return k;
        }
    }
    thresholds.len()
}

// Back from a place, the first threshold of those that are not below so many metres. It stays apart from `walk_up`, from which it differs
// in the direction, in the test and in where it ends.
fn walk_down(thresholds: &[u32], metres: u64, from: usize) -> usize
    requires { from ≤ length thresholds.now }
    ensures { Ordered thresholds.now → NotBelow thresholds.now metres from → Parted thresholds.now metres result }
{
    for k in (0..from).rev() {
        if (thresholds[k] as u64) < metres {
            return k + 1;
        }
    }
    0
}

// The first threshold that is not below so many metres, walked to from a hint.
pub(crate) fn place_in(thresholds: &[u32], metres: u64, hint: usize) -> usize
    ensures { Ordered thresholds.now → Parted thresholds.now metres result }
{
    walk_down(thresholds, metres, walk_up(thresholds, metres, hint))
}
