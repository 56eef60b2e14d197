// Keys of the nodes that wait: an entry in the upper half, a place of the front in the lower, so the least key has the least entry.
ghost use Rattle.std.specs.Prelude.{◌≡◌, ◌+◌, ◌*◌, ◌/◌, ◌%◌, ◌≤◌, ◌<◌, length};
ghost use Rattle.distance.specs.Keys.{key_of, Least};

pub(crate) fn key_of(entry: u32, place: usize) -> u64
    requires { place < 4294967296 }
    ensures { result ≡ key_of entry place }
{
    entry as u64 * 4_294_967_296 + place as u64
}

pub(crate) fn entry_of(key: u64) -> u32
    ensures { result ≡ key / 4294967296 }
{
    (key / 4_294_967_296) as u32
}

pub(crate) fn place_of(key: u64) -> usize
    ensures { result ≡ key % 4294967296 }
{
    (key % 4_294_967_296) as usize
}

// The least of the four keys from a place on: a value and not a place, so that it compiles to conditional moves.
fn least_of_four(keys: &[u64], len: usize, at: usize) -> u64
    requires { (at + 4 ≤ len) × (len ≤ length keys.now) }
    ensures { Least keys.now len at (at + 4) result }
{
    let one = keys[at].min(keys[at + 1]);
    let other = keys[at + 2].min(keys[at + 3]);
    one.min(other)
}

// The least of the keys up to the last full four; any key where there is none.
pub(crate) fn least_of_fours(keys: &[u64], len: usize) -> u64
    requires { (1 ≤ length keys.now) × (len ≤ length keys.now) }
    ensures { 1 ≤ len → Least keys.now len 0 (len / 4 * 4) result }
{
    let mut least = keys[0];
    for k in 0..len / 4 {
        least = least.min(least_of_four(keys, len, k * 4));
    }
    least
}
