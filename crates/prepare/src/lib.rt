// What every counting method starts from: checked lists, each set laid out and cut into runs, and the leg-end distances.
#![tactic(auto)]

mod checks;
mod ends;
mod laying_out;
mod runs;
mod sets;

ghost use Rattle.model.specs.Network.{network_of};
ghost use Rattle.prepare.specs.Prepared.{Ready, LeftOnRefusal, SurplusKept};

use checks::check_counts;
use ends::end_table;
use laying_out::lay_runs;
use model::{EventSet, Network, Refusal, Reports};

// Runs are at most as many as events; behind the last stands its end.
pub const BOUNDS: usize = EventSet::MAX_EVENTS + 1;

// An entry for each set, and one behind the last.
pub const SET_RUNS: usize = EventSet::MAX_SET as usize + 2;

// An entry for each two nodes.
pub const TABLE: usize = Network::MAX_NODES as usize * Network::MAX_NODES as usize;

// The storage that is lent to `prepare`: an entry for each event in the first two lists.
#[derive(Drop)]
pub struct Working {
    pub laid_edges: [u32; EventSet::MAX_EVENTS],
    pub laid_offsets: [u32; EventSet::MAX_EVENTS],
    pub bounds: [u32; BOUNDS],
    pub set_runs: [u32; SET_RUNS],
    pub table: [u32; TABLE],
}

// Checks everything that a counting method is lent; `room` is the length of its answer list. On acceptance the laid-out lists hold the
// sets one after the other, each laid out; `bounds` holds the positions at which runs of events on one edge begin, `set_runs` the number
// of the run with which each set begins, and `table` the leg-end distances. All five keep their surplus entries: those behind the
// events, behind the ends of the last run and of the last set and behind the square of nodes, and the rows of nodes at which no event's
// edge ends. On refusal all five are left as they were.
pub fn prepare(
    network: Network,
    reports: Reports,
    thresholds: &[u32],
    room: usize,
    working: &mut Working,
) -> Result<(), Refusal>
    ensures ready { Ready (network_of network.entry) reports.entry.sets.now reports.entry.edges.now reports.entry.offsets.now thresholds.now room result working.new.laid_edges working.new.laid_offsets working.new.bounds working.new.set_runs working.new.table }
    ensures left_on_refusal { LeftOnRefusal result working.old.laid_edges working.old.laid_offsets working.old.bounds working.old.set_runs working.old.table working.new.laid_edges working.new.laid_offsets working.new.bounds working.new.set_runs working.new.table }
    ensures surplus_kept { SurplusKept (network_of network.entry) reports.entry.sets.now reports.entry.edges.now result working.old.laid_edges working.old.laid_offsets working.old.bounds working.old.set_runs working.old.table working.new.laid_edges working.new.laid_offsets working.new.bounds working.new.set_runs working.new.table }
{
    check_counts(network, reports, thresholds, room)?;
    let bound = thresholds[thresholds.len() - 1];
    lay_runs(
        reports,
        &mut working.laid_edges,
        &mut working.laid_offsets,
        &mut working.bounds,
        &mut working.set_runs,
    );
    end_table(network, reports.edges, bound, &mut working.table);
    Ok(())
}
