// A network's edges as arcs, linked by the node where they begin.
ghost use Rattle.std.specs.Prelude.{◌≡◌, ℕ, ◌+◌, ◌/◌, ◌≤◌, ◌<◌, length};
ghost use Rattle.model.specs.Limits.{max_edges};
ghost use Rattle.distance.specs.Arcs.{tail, Linked};

// Where an arc begins; with the lists swapped, where it ends.
pub(crate) fn tail_of(firsts: &[u32], seconds: &[u32], arc: usize) -> u32
    requires { (arc / 2 < length firsts.now) × (arc / 2 < length seconds.now) }
    ensures { result ≡ tail firsts.now seconds.now arc }
{
    let i = arc / 2;
    if arc % 2 == 0 { firsts[i] } else { seconds[i] }
}

// Links the arcs of each node into a chain.
pub(crate) fn link(nodes: u32, firsts: &[u32], seconds: &[u32], last: &mut [u32], next: &mut [u32])
    requires firsts_len_bound { (length firsts.now ≤ max_edges) × (length seconds.now ≡ length firsts.now) }
    requires nodes_in_bounds { (nodes < length last.old) × (length firsts.now + length firsts.now ≤ length next.old) }
    requires by_index { (a : ℕ) → a < length firsts.now + length firsts.now → tail firsts.now seconds.now a ≤ nodes }
    ensures { Linked firsts.now seconds.now last.new next.new nodes (length firsts.now + length firsts.now) }
{
    last.fill(0);
    let arcs = firsts.len() + firsts.len();
    for a in 0..arcs {
        let v = tail_of(firsts, seconds, a) as usize;
        next[a] = last[v];
        last[v] = (a + 1) as u32;
    }
}
