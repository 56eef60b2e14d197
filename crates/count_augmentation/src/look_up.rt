// The stored numbers looked up by binary search.
ghost use Rattle.std.specs.Prelude.{cond, ◌≡◌, ◌+◌, ◌/◌, ◌≤◌, ltb, length};
ghost use Rattle.count_augmentation.specs.LookUp.{half_way, place_among_of, place_of, stored_before, stored_last, read_below_of, read_from};

use model::value_at;

// So many places are halved away by four halvings.
const LAST_FEW: usize = 15;

// So many places are passed if the offset at the last of them is below a limit.
fn passed(offset: u32, limit: u64, places: usize) -> usize
    ensures { result ≡ cond (ltb offset limit) places 0 }
{
    if (offset as u64) < limit { places } else { 0 }
}

// Halves the places among which the first whose offset is not below a limit is looked for.
fn halve(offsets: &[u32], limit: u64, low: usize, left: usize) -> usize
    requires { (low + left ≤ length offsets.now) × (1 ≤ left) }
    ensures { (result ≡ half_way offsets.now limit low left) × (result + left / 2 ≤ length offsets.now) }
{
    let half = left - left / 2;
    low + passed(offsets[low + half - 1], limit, half)
}

// That place, with at most LAST_FEW places left to look at: four halvings. No loop, so that it compiles with no branch on what is found.
fn place_among(offsets: &[u32], limit: u64, low: usize, left: usize) -> usize
    requires { (low + left ≤ length offsets.now) × (left ≤ 15) }
    ensures { result ≡ place_among_of offsets.now limit low left }
{
    if left == 0 {
        return low;
    }
    let by_8 = halve(offsets, limit, low, left);
    if left / 2 == 0 {
        return by_8;
    }
    let by_4 = halve(offsets, limit, by_8, left / 2);
    if left / 4 == 0 {
        return by_4;
    }
    let by_2 = halve(offsets, limit, by_4, left / 4);
    if left / 8 == 0 {
        return by_2;
    }
    halve(offsets, limit, by_2, left / 8)
}

// That place, looked for in the whole list.
fn place_of(offsets: &[u32], limit: u64) -> usize
    ensures { result ≡ place_of offsets.now limit }
{
    let mut low = 0;
    // Not a `for`: the places left are halved.
    let mut left = offsets.len();
    while LAST_FEW < left {
        low = halve(offsets, limit, low, left);
        left = left / 2;
    }
    place_among(offsets, limit, low, left)
}

// What is stored with the event before a place, 0 before the first.
fn stored_before(near: &[u32], place: usize) -> u32
    ensures { result ≡ stored_before near.now place }
{
    if place == 0 {
        return 0;
    }
    value_at(near, place - 1)
}

// What is stored for the first end with the last offset below a limit, 0 if there is none: read, whatever the list holds.
pub(crate) fn count_below(offsets: &[u32], near_first: &[u32], limit: u64) -> u32
    ensures { result ≡ read_below_of offsets.now near_first.now limit }
{
    stored_before(near_first, place_of(offsets, limit))
}

// What is stored for the second end with the first offset not below a limit, 0 if there is none: read, whatever the list holds.
pub(crate) fn count_from(offsets: &[u32], near_second: &[u32], limit: u64) -> u32
    ensures { result ≡ read_from offsets.now near_second.now limit }
{
    value_at(near_second, place_of(offsets, limit))
}

// What is stored for the first end with the last offset, 0 if there is none: the whole run's number, read, whatever the list holds.
pub(crate) fn count_all(near_first: &[u32]) -> u32
    ensures { result ≡ stored_last near_first.now }
{
    stored_before(near_first, near_first.len())
}
