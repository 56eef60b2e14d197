// The counts of all sets at all thresholds.
ghost use Rattle.std.specs.Prelude.{◌≡◌, ◌*◌, ◌≤◌, length};
ghost use Rattle.model.specs.Network.{network_of};
ghost use Rattle.prepare.specs.Counts.{CountsAnswered};
ghost use Rattle.range_query.specs.Ladder.{ladder_length};
ghost use Rattle.counting.specs.Prepared.{AllReady, AllWritten};

use crate::method::Method;
use crate::prepared::Prepared;
use crate::rows::set_row;
use crate::stored::store_runs;
use model::{EventSet, Network, Refusal, Reports, value_at};

// The rows of so many sets, one after the other.
fn count_rows(
    method: Method,
    prepared: Prepared,
    set_runs: &[u32],
    count: usize,
    answers: &mut [u32],
)
    requires { AllReady prepared set_runs.now count × (count * length prepared.thresholds.now ≤ length answers.old) }
    ensures { AllWritten prepared.entry set_runs.now count answers.old answers.new }
{
    let width = prepared.thresholds.len();
    let mut start = 0;
    for s in 0..count {
        let end = start + width;
        let r = value_at(set_runs, s) as usize;
        let q = value_at(set_runs, s + 1) as usize;
        let events = value_at(prepared.bounds, q).saturating_sub(value_at(prepared.bounds, r));
        set_row(
            method,
            prepared,
            r,
            q,
            events as u64,
            &mut answers[start..end],
        );
        start = end;
    }
}

// `counts` with working storage lent.
fn count_sets(
    method: Method,
    network: Network,
    reports: Reports,
    thresholds: &[u32],
    working: &mut prepare::Working,
    near_first: &mut [u32; EventSet::MAX_EVENTS],
    near_second: &mut [u32; EventSet::MAX_EVENTS],
    ladder: &mut [u32],
    answers: &mut [u32],
) -> Result<(), Refusal>
    requires { length ladder.old ≡ ladder_length }
    ensures { CountsAnswered (network_of network.entry) reports.entry.sets.now reports.entry.edges.now reports.entry.offsets.now thresholds.now answers.old result answers.new }
{
    prepare::prepare(network, reports, thresholds, answers.len(), working)?;
    let count = validate::greatest_set(reports.sets) as usize + 1;
    let runs = value_at(&working.set_runs, count) as usize;
    store_runs(
        &working.laid_offsets,
        &working.bounds,
        runs,
        near_first,
        near_second,
    );
    range_query::spread(thresholds, ladder);
    let prepared = Prepared {
        network,
        table: &working.table,
        edges: &working.laid_edges,
        offsets: &working.laid_offsets,
        bounds: &working.bounds,
        near_first,
        near_second,
        thresholds,
        ladder,
        runs,
    };
    count_rows(method, prepared, &working.set_runs, count, answers);
    Ok(())
}

// The pair counts of every set at every threshold, by a method; 01's refusals where a list is not within the limits or belongs to
// no other. The answers stand set by set, and under each set threshold by threshold. The counts are the same by every method.
pub fn counts(
    method: Method,
    network: Network,
    reports: Reports,
    thresholds: &[u32],
    answers: &mut [u32],
) -> Result<(), Refusal>
    ensures { CountsAnswered (network_of network.entry) reports.entry.sets.now reports.entry.edges.now reports.entry.offsets.now thresholds.now answers.old result answers.new }
{
    let mut working = prepare::Working {
        laid_edges: [0; EventSet::MAX_EVENTS],
        laid_offsets: [0; EventSet::MAX_EVENTS],
        bounds: [0; prepare::BOUNDS],
        set_runs: [0; prepare::SET_RUNS],
        table: [0; prepare::TABLE],
    };
    let mut near_first = [0u32; EventSet::MAX_EVENTS];
    let mut near_second = [0u32; EventSet::MAX_EVENTS];
    let mut ladder = [0u32; range_query::LADDER];
    count_sets(
        method,
        network,
        reports,
        thresholds,
        &mut working,
        &mut near_first,
        &mut near_second,
        &mut ladder,
        answers,
    )
}
