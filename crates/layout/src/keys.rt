// Events as keys, one number to an event, and keys as events again.
ghost use Rattle.std.specs.Prelude.{◌≡◌, map, length};
ghost use Rattle.model.specs.Events.{events};
ghost use Rattle.layout.specs.Keys.{key_of, edge_of, offset_of};

// One more than the greatest u32.
const BASE: u64 = 4294967296;

// Fills the keys of events.
pub(crate) fn join(edges: &[u32], offsets: &[u32], keys: &mut [u64])
    requires { (length edges.now ≡ length keys.old) × (length offsets.now ≡ length keys.old) }
    ensures { keys.new ≡ map key_of (events edges.now offsets.now) }
{
    for (i, key) in keys.iter_mut().enumerate() {
        *key = edges[i] as u64 * BASE + offsets[i] as u64;
    }
}

// Takes keys apart into edges and offsets.
pub(crate) fn part(keys: &[u64], edges: &mut [u32], offsets: &mut [u32])
    requires { (length edges.old ≡ length keys.now) × (length offsets.old ≡ length keys.now) }
    ensures { (edges.new ≡ map edge_of keys.now) × (offsets.new ≡ map offset_of keys.now) }
{
    for (i, key) in keys.iter().enumerate() {
        edges[i] = (*key / BASE) as u32;
        offsets[i] = (*key % BASE) as u32;
    }
}
