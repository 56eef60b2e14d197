// The metres of the ways between two edges.
ghost use Rattle.std.specs.Prelude.{◌≡◌, ◌+◌, ◌≤◌};
ghost use Rattle.edge_pair.specs.Edges.{side_of};
ghost use Rattle.edge_pair.specs.Ways.{far, way, to_end_of, shortest_route_of, greatest_distance_of};

use crate::edges::{EdgePair, code_between};

// Stands for no way: above every threshold, and so are the sums it stands in.
pub const FAR: u64 = 1099511627776;

// The metres of a table entry, which is one more, and 0 for none.
pub fn way(code: u32) -> u64
    ensures { result ≡ way code }
{
    if code == 0 { FAR } else { code as u64 - 1 }
}

// The metres of the shortest way from an offset of the first edge to an end of the second.
pub fn to_end(edges: EdgePair, x: u32, first2: bool) -> u64
    ensures { (result ≡ to_end_of edges (side_of first2) x) × (result ≤ far + far) }
{
    let by_first = way(code_between(edges, true, first2));
    let by_second = way(code_between(edges, false, first2));
    let rest = (edges.length1 as u64).saturating_sub(x as u64);
    (x as u64 + by_first).min(rest + by_second)
}

// The metres of the shortest route between two edges, than which no place of the one is nearer to one of the other. 0 on one edge.
pub fn shortest_route(edges: EdgePair) -> u64
    ensures { result ≡ shortest_route_of edges }
{
    if edges.same {
        return 0;
    }
    let ff = way(edges.ff);
    let fs = way(edges.fs);
    let sf = way(edges.sf);
    let ss = way(edges.ss);
    ff.min(fs).min(sf.min(ss))
}

// The metres of two ways together.
fn both(a: u32, b: u32) -> u64
    ensures { (result ≡ way a + way b) × (result ≤ far + far) }
{
    way(a) + way(b)
}

// An upper bound: no place of the one edge is farther away from one of the other. The routes between two places by both first ends
// and by both second ends add up to the same for all places, and so do those onward and back, so that the lesser of two is at most half
// of that.
pub fn greatest_distance(edges: EdgePair) -> u64
    ensures { result ≡ greatest_distance_of edges }
{
    let ways = both(edges.ff, edges.ss).min(both(edges.fs, edges.sf));
    (ways + edges.length1 as u64 + edges.length2 as u64) / 2
}
