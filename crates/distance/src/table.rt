// The distances from every wanted node to every node.
ghost use Rattle.std.specs.Prelude.{◌++◌, ◌≡◌, suc, ◌+◌, ◌*◌, ◌<◌, length, take, drop};
ghost use Rattle.model.specs.Limits.{max_nodes};
ghost use Rattle.model.specs.Network.{network_of};
ghost use Rattle.distance.specs.Answers.{table_check, distance_row, table, TableAnswered};
ghost use Rattle.distance.specs.Search.{Ready, Rooms, Searched};
ghost use Rattle.distance.specs.Table.{Fillable, RowsKnown, filled_row, AnySource};

use crate::arcs::link;
use crate::passes::search_by_passes;
use crate::row::copy_row;
use crate::search::search;
use model::{Fault, Network, Refusal};

// So many passes over all edges are tried from a source; they take no more time than a search that reaches all nodes. If they are not
// enough for one source, searches are made from it and from all further ones.
const MOST_PASSES: u64 = 16;

// Passes are not tried again where less than one node for so many edges is within the bound: a search is faster then.
const EDGES_A_NODE: usize = 4;

// 2, the list of wanted nodes and the table too, then 6, 7 and 9.
fn check_table(network: Network, wanted: &[u32], table: &[u32]) -> Result<(), Refusal>
    ensures { result ≡ table_check (network_of network.entry) wanted.now table.now }
{
    if wanted.len() != network.nodes as usize {
        return Err(Refusal {
            fault: Fault::ListsDiffer,
            place: 0,
        });
    }
    if (table.len() as u64) < network.nodes as u64 * network.nodes as u64 {
        return Err(Refusal {
            fault: Fault::ListsDiffer,
            place: 0,
        });
    }
    validate::check_network(network)
}

// How many entries are not 0.
fn reached(dist: &[u32]) -> usize {
    // A `for` compiles to vector instructions here, and `filter` with `count` to a branch for each entry.
    let mut count = 0;
    for entry in dist {
        if *entry != 0 {
            count += 1;
        }
    }
    count
}

// How many passes are worth trying from the next source. The entries are those that passes have found from this one.
fn worth_trying(dist: &[u32], edges: usize) -> u64 {
    if reached(dist) < edges / EDGES_A_NODE {
        return 0;
    }
    MOST_PASSES
}

// The entry of every node from the node of row k: by at most so many passes, or by a search where they are too few. How many are worth
// trying for the next row is given back; nothing is promised of it.
fn search_row(
    network: Network,
    last: &[u32],
    next: &[u32],
    bound: u32,
    most: u64,
    wanted: &[u32],
    rows: &[u32],
    k: usize,
    dist: &mut [u32],
    front: &mut [u32],
) -> u64
    requires ready { Ready (network_of network) last.now next.now (suc k) dist.old front.old }
    requires rows_known { RowsKnown (network_of network) bound wanted.now k rows.now }
    ensures { Searched (network_of network.entry) (suc k) bound dist.new }
{
    if search_by_passes(network, bound, most, wanted, rows, k, dist) {
        return worth_trying(dist, network.lengths.len());
    }
    let source = (k + 1) as u32;
    search(network, last, next, source, bound, dist, front);
    0
}

// Row k, which begins at an index: if it is wanted it is searched for and copied, otherwise it stays.
fn fill_row(
    network: Network,
    last: &[u32],
    next: &[u32],
    bound: u32,
    most: u64,
    wanted: &[u32],
    k: usize,
    at: usize,
    dist: &mut [u32],
    front: &mut [u32],
    rows: &mut [u32],
) -> u64
    requires ready { Ready (network_of network) last.now next.now (suc k) dist.old front.old }
    requires rows_known { RowsKnown (network_of network) bound wanted.now k rows.old × (at ≡ k * network.nodes) }
    ensures { rows.new ≡ take at rows.old ++ (filled_row (network_of network.entry) bound wanted.now k rows.old ++ drop (at + network.entry.nodes) rows.old) }
{
    if wanted[k] == 0 {
        return most;
    }
    let worth = search_row(
        network, last, next, bound, most, wanted, rows, k, dist, front,
    );
    let n = network.nodes as usize;
    copy_row(network.nodes, dist, &mut rows[at..at + n]);
    worth
}

// Row after row; at is where the next one begins.
fn fill_rows(
    network: Network,
    last: &[u32],
    next: &[u32],
    bound: u32,
    wanted: &[u32],
    dist: &mut [u32],
    front: &mut [u32],
    rows: &mut [u32],
)
    requires fillable { Fillable (network_of network) wanted.now rows.old }
    requires any_source { AnySource (network_of network) last.now next.now dist.old front.old }
    ensures { rows.new ≡ table (network_of network.entry) bound wanted.now rows.old ++ drop (network.entry.nodes * network.entry.nodes) rows.old }
{
    let n = network.nodes as usize;
    let mut most = MOST_PASSES;
    let mut at = 0;
    for k in 0..n {
        most = fill_row(
            network, last, next, bound, most, wanted, k, at, dist, front, rows,
        );
        at += n;
    }
}

// Links the arcs once for all rows.
fn fill_with(
    network: Network,
    bound: u32,
    wanted: &[u32],
    last: &mut [u32],
    next: &mut [u32],
    dist: &mut [u32],
    front: &mut [u32],
    rows: &mut [u32],
)
    requires fillable { Fillable (network_of network) wanted.now rows.old }
    requires rooms { Rooms last.old next.old front.old × (max_nodes < length dist.old) }
    ensures { rows.new ≡ table (network_of network.entry) bound wanted.now rows.old ++ drop (network.entry.nodes * network.entry.nodes) rows.old }
{
    link(network.nodes, network.firsts, network.seconds, last, next);
    fill_rows(network, last, next, bound, wanted, dist, front, rows);
}

fn fill(network: Network, bound: u32, wanted: &[u32], rows: &mut [u32])
    requires { Fillable (network_of network) wanted.now rows.old }
    ensures { rows.new ≡ table (network_of network.entry) bound wanted.now rows.old ++ drop (network.entry.nodes * network.entry.nodes) rows.old }
{
    let mut last = [0u32; Network::MAX_NODES as usize + 1];
    let mut next = [0u32; 2 * Network::MAX_EDGES];
    let mut dist = [0u32; Network::MAX_NODES as usize + 1];
    let mut front = [0u32; Network::MAX_NODES as usize];
    fill_with(
        network, bound, wanted, &mut last, &mut next, &mut dist, &mut front, rows,
    );
}

// A square table of codes of bounded distances, a row for each node. A row whose entry in the list of wanted nodes is 0 stays as
// it was. Refuses by 2, 6, 7 and 9, and leaves the table as it was then.
pub fn end_distances(
    network: Network,
    bound: u32,
    wanted: &[u32],
    table: &mut [u32],
) -> Result<(), Refusal>
    ensures { TableAnswered (network_of network.entry) bound wanted.now table.old result table.new }
{
    check_table(network, wanted, table)?;
    fill(network, bound, wanted, table);
    Ok(())
}
