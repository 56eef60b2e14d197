// What is asked of two edges: the checks, and the codes between their ends.
ghost use Rattle.std.specs.Prelude.{◌≡◌, pred, get_or};
ghost use Rattle.model.specs.Events.{set_size};
ghost use Rattle.model.specs.Network.{network_of};
ghost use Rattle.sweep.specs.Answers.{cursors_check};
ghost use Rattle.sweep.specs.Asked.{has_rooms_of, EndsAsked, EndsReached, EdgesAsked, EdgesFound, TwoEdges};

use edge_pair::EdgePair;
use model::{Fault, Network, Refusal, value_at};

// The cursors of two edges: four of routes and two of the window.
const CURSORS: usize = 6;

// How many events lie on an edge.
fn count_on(edges: &[u32], edge: u32) -> usize
    ensures { result ≡ set_size edges.now edge }
{
    edges.iter().filter(|e| **e == edge).count()
}

// Lists of events that belong together, room for six positions at each event of the first edge, and for six sums of moves.
fn has_rooms(edges: &[u32], offsets: &[u32], edge1: u32, positions: &[u32], moves: &[u32]) -> bool
    ensures { result ≡ has_rooms_of edges.now offsets.now edge1 positions.now moves.now }
{
    if edges.len() != offsets.len() {
        return false;
    }
    let count = count_on(edges, edge1);
    if positions.len() / CURSORS < count {
        return false;
    }
    CURSORS <= moves.len()
}

// 2, 6, 7, 9, 13 for the two edges, 13 to 15 and 17. Every refusal 2 is at place 0, so that the rooms may be looked at first;
// an edge's offset 0 is never beyond it, so that the check of two locations is one of two edges.
pub(crate) fn check_cursors(
    network: Network,
    edges: &[u32],
    offsets: &[u32],
    edge1: u32,
    edge2: u32,
    positions: &[u32],
    moves: &[u32],
) -> Result<(), Refusal>
    ensures { result ≡ cursors_check (network_of network.entry) edges.now offsets.now edge1 edge2 positions.now moves.now }
{
    if !has_rooms(edges, offsets, edge1, positions, moves) {
        return Err(Refusal {
            fault: Fault::ListsDiffer,
            place: 0,
        });
    }
    validate::check_locations(network, edge1, 0, edge2, 0)?;
    validate::check_laid_out(network, edges, offsets, edge1)
}

// The codes of the distances from one node to the two ends of an edge.
#[derive(Clone, Copy)]
pub struct EndCodes {
    pub first: u32,
    pub second: u32,
}

// Node v's entry of a row.
fn code_of(row: &[u32], v: u32) -> u32
    ensures { result ≡ get_or row.now (pred v) 0 }
{
    value_at(row, v.saturating_sub(1) as usize)
}

// A search from a node, and the codes to both ends of the edge at an index.
fn to_ends(network: Network, source: u32, bound: u32, j: usize, row: &mut [u32]) -> EndCodes
    requires { EndsAsked (network_of network) source j row.old }
    ensures { EndsReached (network_of network.entry) bound source j result }
{
    let _ = distance::distances_from(network, source, bound, row);
    let first = code_of(row, value_at(network.firsts, j));
    let second = code_of(row, value_at(network.seconds, j));
    EndCodes { first, second }
}

// The lengths of the edges at two indices, and the codes between their ends.
fn edges_with(network: Network, bound: u32, i: usize, j: usize, row: &mut [u32]) -> EdgePair
    requires { EdgesAsked (network_of network) i j row.old }
    ensures { EdgesFound (network_of network.entry) bound i j result }
{
    let first = value_at(network.firsts, i);
    let second = value_at(network.seconds, i);
    let from_first = to_ends(network, first, bound, j, row);
    let from_second = to_ends(network, second, bound, j, row);
    EdgePair {
        length1: value_at(network.lengths, i),
        length2: value_at(network.lengths, j),
        same: i == j,
        ff: from_first.first,
        fs: from_first.second,
        sf: from_second.first,
        ss: from_second.second,
    }
}

// The same of two edges named by their numbers.
pub(crate) fn edges_between(network: Network, bound: u32, edge1: u32, edge2: u32) -> EdgePair
    requires { TwoEdges (network_of network) edge1 edge2 }
    ensures { EdgesFound (network_of network.entry) bound (pred edge1) (pred edge2) result }
{
    let i = edge1 as usize - 1;
    let j = edge2 as usize - 1;
    let mut row = [0u32; Network::MAX_NODES as usize];
    edges_with(network, bound, i, j, &mut row)
}
