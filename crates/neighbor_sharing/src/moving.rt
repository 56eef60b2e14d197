// Where the six cursors of two edges stand at an offset of the first, moved on from where they stood before.
ghost use Rattle.std.specs.Prelude.{cond, ◌≡◌};
ghost use Rattle.neighbor_sharing.specs.Stands.{route_moved, stands_moved, stands_at_rest};
ghost use Rattle.sweep.specs.Moving.{moved_on};

use edge_pair::{EdgePair, code_between};
use sweep::{Cursor, advance, below, route, up_to};

// The positions (01) of the four routes' cursors, from the first edge's ends to the second's, and of the window's two. In the
// place of a route beyond the bound is a cursor that reaches nothing, and on two edges there is no window: both count 0 at every event.
#[derive(Clone, Copy)]
pub struct Stands {
    pub ff: usize,
    pub fs: usize,
    pub sf: usize,
    pub ss: usize,
    pub low: usize,
    pub high: usize,
}

// Before the first event.
pub(crate) fn at_rest(ys: &[u32]) -> Stands
    ensures { result ≡ stands_at_rest ys.now }
{
    Stands {
        ff: ys.len(),
        fs: ys.len(),
        sf: 0,
        ss: 0,
        low: 0,
        high: 0,
    }
}

// Moves the cursor of a route to an offset of the first edge.
fn route_to(
    threshold: u32,
    edges: EdgePair,
    first1: bool,
    first2: bool,
    ys: &[u32],
    x: u32,
    from: usize,
) -> usize
    ensures { result ≡ route_moved threshold edges first1 first2 ys.now x from }
{
    let code = code_between(edges, first1, first2);
    let cursor = route(threshold, edges.length1, first1, code, first2);
    advance(cursor, ys, edges.length2, x, from)
}

// The same for a cursor of the window. On two edges there is none, which counts as position 0.
fn window_to(same: bool, cursor: Cursor, ys: &[u32], long: u32, x: u32, from: usize) -> usize
    ensures { result ≡ cond same (moved_on cursor long ys.now x from) 0 }
{
    if !same {
        return 0;
    }
    advance(cursor, ys, long, x, from)
}

// All six, each on from where it stood.
pub(crate) fn move_to(threshold: u32, edges: EdgePair, ys: &[u32], x: u32, from: Stands) -> Stands
    ensures { result ≡ stands_moved threshold edges ys.now x from }
{
    let ff = route_to(threshold, edges, true, true, ys, x, from.ff);
    let fs = route_to(threshold, edges, true, false, ys, x, from.fs);
    let sf = route_to(threshold, edges, false, true, ys, x, from.sf);
    let ss = route_to(threshold, edges, false, false, ys, x, from.ss);
    let lower = below(threshold);
    let low = window_to(edges.same, lower, ys, edges.length2, x, from.low);
    let upper = up_to(threshold);
    let high = window_to(edges.same, upper, ys, edges.length2, x, from.high);
    Stands {
        ff,
        fs,
        sf,
        ss,
        low,
        high,
    }
}
