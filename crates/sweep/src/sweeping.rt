// The sweep over two edges: the cursors' positions at each event of the first edge, and their moves.
ghost use Rattle.std.specs.Prelude.{Bool, ◌≡◌};
ghost use Rattle.std.specs.Bool.{then_some};
ghost use Rattle.edge_pair.specs.Edges.{side_of};
ghost use Rattle.sweep.specs.Sweeping.{Sweepable, Swept};
ghost use Rattle.sweep.specs.Six.{PartSweepable, PartSwept, RouteSweepable, RouteSwept, EdgesSweepable, EdgesSwept};

use crate::cursor::{Cursor, advance, below, rest, route, up_to};
use edge_pair::{EdgePair, code_between};

// Sweeps one cursor over the events of the first edge. Each position, and the sum of the moves, is written as one more.
fn sweep(cursor: Cursor, long: u32, xs: &[u32], ys: &[u32], positions: &mut [u32]) -> u32
    requires { Sweepable xs.now ys.now positions.old }
    ensures { Swept cursor long xs.now ys.now result positions.new }
{
    let mut position = rest(cursor, ys);
    let mut moves = 0;
    for (i, x) in xs.iter().enumerate() {
        let next = advance(cursor, ys, long, *x, position);
        moves += position.abs_diff(next);
        position = next;
        positions[i] = position as u32 + 1;
    }
    moves as u32 + 1
}

// The positions of a cursor, written from a place on, and its moves; zeros where there is no cursor.
fn sweep_part(
    cursor: Option<Cursor>,
    long: u32,
    xs: &[u32],
    ys: &[u32],
    from: usize,
    positions: &mut [u32],
) -> u32
    requires { PartSweepable xs.now ys.now from positions.old }
    ensures { (exists : Bool) (c : Cursor) → cursor ≡ then_some exists c → PartSwept exists c long xs.now ys.now from positions.old result positions.new }
{
    let part = &mut positions[from..from + xs.len()];
    match cursor {
        Some(cursor) => sweep(cursor, long, xs, ys, part),
        None => {
            part.fill(0);
            0
        }
    }
}

// The same for a route's cursor. A route whose distance is beyond the bound has none.
fn sweep_route(
    threshold: u32,
    edges: EdgePair,
    first1: bool,
    first2: bool,
    xs: &[u32],
    ys: &[u32],
    from: usize,
    positions: &mut [u32],
) -> u32
    requires { RouteSweepable edges xs.now ys.now from positions.old }
    ensures { RouteSwept threshold edges (side_of first1) (side_of first2) xs.now ys.now from positions.old result positions.new }
{
    let code = code_between(edges, first1, first2);
    let cursor = route(threshold, edges.length1, first1, code, first2);
    let found = (code != 0).then_some(cursor);
    sweep_part(found, edges.length2, xs, ys, from, positions)
}

// Sweeps the six cursors of two edges: the four routes', then the window's two, which are there if the edges are one.
pub(crate) fn sweep_edges(
    threshold: u32,
    edges: EdgePair,
    xs: &[u32],
    ys: &[u32],
    positions: &mut [u32],
    moves: &mut [u32],
)
    requires { EdgesSweepable edges xs.now ys.now positions.old moves.old }
    ensures { EdgesSwept threshold edges xs.now ys.now positions.old moves.old positions.new moves.new }
{
    let n = xs.len();
    moves[0] = sweep_route(threshold, edges, true, true, xs, ys, 0, positions);
    moves[1] = sweep_route(threshold, edges, true, false, xs, ys, n, positions);
    moves[2] = sweep_route(threshold, edges, false, true, xs, ys, 2 * n, positions);
    moves[3] = sweep_route(threshold, edges, false, false, xs, ys, 3 * n, positions);
    let low = edges.same.then_some(below(threshold));
    moves[4] = sweep_part(low, edges.length2, xs, ys, 4 * n, positions);
    let high = edges.same.then_some(up_to(threshold));
    moves[5] = sweep_part(high, edges.length2, xs, ys, 5 * n, positions);
}
