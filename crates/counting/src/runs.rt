// Runs of events, two at a time.
ghost use Rattle.std.specs.Prelude.{◌≡◌, suc, pred, ◌-◌, ◌<◌, ◌≤◌, length, slice_index};
ghost use Rattle.model.specs.Network.{network_of, edges};
ghost use Rattle.edge_pair.specs.Totals.{wrap};
ghost use Rattle.prepare.specs.RunPairs.{edge_of};
ghost use Rattle.counting.specs.TwoEdges.{rows_of};
ghost use Rattle.counting.specs.Runs.{run_of, RunRead, PartsIn, part, partners};
ghost use Rattle.counting.specs.Prepared.{taken, AreApart, pairs_of_two, pairs_of_one, pairs_of_each, AddedAt};

use crate::kernels::add_pairs;
use crate::method::Method;
use crate::prepared::Prepared;
use crate::two_edges::{Rows, are_apart, rows_of, table_edges};
use std::ops::Range;

// A run: the index of its edge, where its events begin and where they end.
#[derive(Clone, Copy)]
pub struct Run {
    pub edge: usize,
    pub from: usize,
    pub to: usize,
}

// A run that is taken with others, by its number, and where the table has the rows of its edge.
#[derive(Clone, Copy)]
pub struct Taken {
    pub number: usize,
    pub run: Run,
    pub rows: Rows,
}

// An entry of a list as a place.
fn place(list: &[u32], k: usize) -> usize
    requires { k < length list.now }
    ensures { result ≡ slice_index list.now k }
{
    list[k] as usize
}

// The index of a run's edge.
#[tactic(auto, unfolding(prepare::specs::RunPairs::edge_of))]
fn edge_at(edges: &[u32], bounds: &[u32], r: usize) -> usize
    requires { RunRead edges.now bounds.now r }
    ensures { result ≡ pred (edge_of edges.now bounds.now r) }
{
    place(edges, place(bounds, r)) - 1
}

// A run by its number.
#[tactic(auto, unfolding(crate::specs::Runs::run_of))]
fn run_at(edges: &[u32], bounds: &[u32], r: usize) -> Run
    requires { RunRead edges.now bounds.now r }
    ensures { result ≡ run_of edges.now bounds.now r }
{
    Run {
        edge: edge_at(edges, bounds, r),
        from: place(bounds, r),
        to: place(bounds, r + 1),
    }
}

// What stands at the places of a run in a list.
fn part_in(list: &[u32], run: Run) -> &[u32]
    requires { PartsIn list.now run }
    ensures { result.now ≡ part run list.now }
{
    &list[run.from..run.to]
}

// A run that is to be taken with others.
fn take(prepared: Prepared, a: usize) -> Taken
    requires { a < prepared.runs }
    ensures { result ≡ taken prepared.entry a }
{
    let run = run_at(prepared.edges, prepared.bounds, a);
    Taken {
        number: a,
        run,
        rows: rows_of(prepared.network, run.edge),
    }
}

// The first of the runs from a number up to before another whose edge is not apart from the one with these rows; the other number, if
// there is none. Few lists are read for each, so that passing over runs is cheap. Where the last edge was not apart, the first run is
// taken without a look.
fn next_near(last_apart: bool, prepared: Prepared, rows: Rows, from: usize, to: usize) -> usize
    requires { (rows.edge < edges (network_of prepared.network)) × (rows ≡ rows_of (network_of prepared.network) rows.edge) × (from ≤ to) × (to ≤ prepared.runs) }
    ensures { (result ≤ to) × AreApart prepared.entry rows.edge from result }
{
    if !last_apart {
        return from;
    }
    for b in from..to {
        let edge = edge_at(prepared.edges, prepared.bounds, b);
        let pair = table_edges(prepared.network, prepared.table, rows, edge);
        if !are_apart(pair) {
            return b;
        }
    }
    to
}

// Adds, at each threshold, the pairs of an event of one run and one of another. True if their edges are apart, so that there is nothing
// to add.
fn add_two(method: Method, prepared: Prepared, one: Taken, b: usize, totals: &mut [u64]) -> bool
    requires { (one.number < prepared.runs) × (b < prepared.runs) × (one ≡ taken prepared one.number) }
    ensures { AddedAt prepared.entry (λ t. pairs_of_two prepared.entry t one.number b) totals.old totals.new }
{
    let other = run_at(prepared.edges, prepared.bounds, b);
    let pair = table_edges(prepared.network, prepared.table, one.rows, other.edge);
    if are_apart(pair) {
        return true;
    }
    add_pairs(
        method,
        pair,
        part_in(prepared.offsets, one.run),
        part_in(prepared.offsets, other),
        part_in(prepared.near_first, other),
        part_in(prepared.near_second, other),
        prepared.thresholds,
        prepared.ladder,
        totals,
    );
    false
}

// The same for one run with those of a range, of its own set or of a different one. Those on edges apart are passed over.
fn add_with(
    method: Method,
    prepared: Prepared,
    a: usize,
    from: usize,
    to: usize,
    totals: &mut [u64],
)
    requires { (a < prepared.runs) × (from ≤ to) × (to ≤ prepared.runs) }
    ensures { AddedAt prepared.entry (λ t. pairs_of_one prepared.entry t from a (to - from)) totals.old totals.new }
{
    let one = take(prepared, a);
    let mut b = from;
    // A `while`, because the number goes on to that of the next run whose edge is not apart.
    while b < to {
        let apart = add_two(method, prepared, one, b, totals);
        b = next_near(apart, prepared, one.rows, b + 1, to);
    }
}

// The runs that a run of a set is taken with: itself, or the earlier ones of the set, whose first run is r.
#[tactic(auto, unfolding(crate::specs::Runs::partners))]
fn partners_of(own: bool, r: usize, a: usize) -> Range<usize>
    requires { suc a < wrap }
    ensures from { result.start ≡ partners own r a }
    ensures to { result.end ≡ partners own a (suc a) }
{
    if own { a..a + 1 } else { r..a }
}

// The same for each run of a set, whose runs are those from r up to before q: with itself, or with each earlier one.
pub(crate) fn add_each(
    method: Method,
    prepared: Prepared,
    own: bool,
    r: usize,
    q: usize,
    totals: &mut [u64],
)
    requires { (r ≤ q) × (q ≤ prepared.runs) }
    ensures { AddedAt prepared.entry (λ t. pairs_of_each prepared.entry own t r (q - r)) totals.old totals.new }
{
    for a in r..q {
        let others = partners_of(own, r, a);
        add_with(method, prepared, a, others.start, others.end, totals);
    }
}
