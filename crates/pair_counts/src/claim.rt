// The three methods and the cursors of the set, threshold and two edges asked about.
ghost use Rattle.std.specs.Prelude.{◌≡◌, ◌<◌, length, get_or};
ghost use Rattle.model.specs.Network.{network_of};
ghost use Rattle.pair_counts.specs.Asked.{BoundAsked, SweepAsked, Counted, bound_of, set_part};
ghost use Rattle.pair_counts.specs.Claim.{PairCountsAnswered};
ghost use Rattle.sweep.specs.Answers.{CursorsAnswered};
ghost use Rattle.prepare.specs.Prepared.{greatest};

use crate::verdict::{check_asked, check_room, lowest};
use counting::{Method, counts};
use model::{EventSet, Network, Refusal, Reports};

// An entry of a list as a place.
fn place(list: &[u32], k: usize) -> usize
    requires { k < length list.now }
    ensures { result ≡ get_or list.now k 0 }
{
    list[k] as usize
}

// Where the runs of a set begin, or the ones before it end; 0 where there is no such set.
fn set_bound(set_runs: &[u32], bounds: &[u32], exists: bool, s: usize) -> usize
    requires { BoundAsked set_runs.now bounds.now exists s }
    ensures { result ≡ bound_of set_runs.now bounds.now exists s }
{
    if !exists {
        return 0;
    }
    place(bounds, place(set_runs, s))
}

// Each method into its own list.
fn count_each(
    network: Network,
    reports: Reports,
    thresholds: &[u32],
    ranged: &mut [u32],
    augmented: &mut [u32],
    shared: &mut [u32],
)
    ensures counted { Counted (network_of network.entry) reports.entry.sets.now reports.entry.edges.now reports.entry.offsets.now thresholds.now ranged.old ranged.new }
    ensures counted_2 { Counted (network_of network.entry) reports.entry.sets.now reports.entry.edges.now reports.entry.offsets.now thresholds.now augmented.old augmented.new }
    ensures counted_3 { Counted (network_of network.entry) reports.entry.sets.now reports.entry.edges.now reports.entry.offsets.now thresholds.now shared.old shared.new }
{
    let _ = counts(Method::RangeQuery, network, reports, thresholds, ranged);
    let _ = counts(
        Method::CountAugmentation,
        network,
        reports,
        thresholds,
        augmented,
    );
    let _ = counts(
        Method::NeighborSharing,
        network,
        reports,
        thresholds,
        shared,
    );
}

// The cursors of the set asked about, from what was prepared.
// The lists are lent one by one: with all of them lent as one value, what is asked of their lengths was not proved at the call.
fn sweep_asked(
    network: Network,
    sets: &[u32],
    thresholds: &[u32],
    laid_edges: &[u32],
    laid_offsets: &[u32],
    bounds: &[u32],
    set_runs: &[u32],
    set: u32,
    threshold: u32,
    edge1: u32,
    edge2: u32,
    positions: &mut [u32],
    moves: &mut [u32],
) -> Result<(), Refusal>
    requires { SweepAsked sets.now thresholds.now laid_edges.now laid_offsets.now bounds.now set_runs.now set }
    ensures { CursorsAnswered (network_of network.entry) (set_part sets.now set_runs.now bounds.now set laid_edges.now) (set_part sets.now set_runs.now bounds.now set laid_offsets.now) edge1 edge2 threshold (greatest thresholds.now) positions.old moves.old result positions.new moves.new }
{
    let bound = thresholds[thresholds.len() - 1];
    let exists = set <= validate::greatest_set(sets);
    let s = set as usize;
    let start = set_bound(set_runs, bounds, exists, s);
    let end = set_bound(set_runs, bounds, exists, s + 1);
    sweep::cursors(
        network,
        &laid_edges[start..end],
        &laid_offsets[start..end],
        edge1,
        edge2,
        threshold,
        bound,
        positions,
        moves,
    )
}

// The public function with working storage lent.
fn pair_counts_with(
    network: Network,
    reports: Reports,
    thresholds: &[u32],
    set: u32,
    threshold: u32,
    edge1: u32,
    edge2: u32,
    working: &mut prepare::Working,
    by_range: &mut [u32],
    by_augmentation: &mut [u32],
    by_sharing: &mut [u32],
    positions: &mut [u32],
    moves: &mut [u32],
) -> Result<(), Refusal>
    ensures { PairCountsAnswered (network_of network.entry) reports.entry.sets.now reports.entry.edges.now reports.entry.offsets.now thresholds.now set threshold edge1 edge2 by_range.old by_augmentation.old by_sharing.old positions.old moves.old result by_range.new by_augmentation.new by_sharing.new positions.new moves.new }
{
    let room = by_range
        .len()
        .min(by_augmentation.len().min(by_sharing.len()));
    let counted = prepare::prepare(network, reports, thresholds, room, working);
    let asked = check_asked(network, set, edge1, edge2);
    let roomy = check_room(reports.sets, reports.edges, set, edge1, positions, moves);
    lowest(roomy, lowest(asked, counted))?;
    count_each(
        network,
        reports,
        thresholds,
        by_range,
        by_augmentation,
        by_sharing,
    );
    let _ = sweep_asked(
        network,
        reports.sets,
        thresholds,
        &working.laid_edges,
        &working.laid_offsets,
        &working.bounds,
        &working.set_runs,
        set,
        threshold,
        edge1,
        edge2,
        positions,
        moves,
    );
    Ok(())
}

// The counts of every set at every threshold by each of the three methods; and for the set, the threshold and the two edges asked
// about, the positions and the moves of the cursors.
pub fn pair_counts(
    network: Network,
    reports: Reports,
    thresholds: &[u32],
    set: u32,
    threshold: u32,
    edge1: u32,
    edge2: u32,
    by_range: &mut [u32],
    by_augmentation: &mut [u32],
    by_sharing: &mut [u32],
    positions: &mut [u32],
    moves: &mut [u32],
) -> Result<(), Refusal>
    ensures { PairCountsAnswered (network_of network.entry) reports.entry.sets.now reports.entry.edges.now reports.entry.offsets.now thresholds.now set threshold edge1 edge2 by_range.old by_augmentation.old by_sharing.old positions.old moves.old result by_range.new by_augmentation.new by_sharing.new positions.new moves.new }
{
    let mut working = prepare::Working {
        laid_edges: [0; EventSet::MAX_EVENTS],
        laid_offsets: [0; EventSet::MAX_EVENTS],
        bounds: [0; prepare::BOUNDS],
        set_runs: [0; prepare::SET_RUNS],
        table: [0; prepare::TABLE],
    };
    pair_counts_with(
        network,
        reports,
        thresholds,
        set,
        threshold,
        edge1,
        edge2,
        &mut working,
        by_range,
        by_augmentation,
        by_sharing,
        positions,
        moves,
    )
}
