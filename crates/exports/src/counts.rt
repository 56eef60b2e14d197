// Pair counts of every set at every threshold. The answers stand set by set, and under each set threshold by threshold.
ghost use Rattle.std.specs.Prelude.{length};
ghost use Rattle.model.specs.Network.{network};
ghost use Rattle.prepare.specs.Counts.{counts_check, CountsAnswered};
ghost use Rattle.exports.specs.Told.{Told};

use crate::told;
use counting::{Method, counts};
use model::{Network, Reports};

// By a range query.
#[unsafe(no_mangle)]
pub extern "C" fn kc_range_counts(
    nodes: u32,
    firsts: &[u32],
    seconds: &[u32],
    lengths: &[u32],
    sets: &[u32],
    edges: &[u32],
    offsets: &[u32],
    thresholds: &[u32],
    answers: &mut [u32],
    number: &mut u32,
    place: &mut usize,
)
    ensures told { Told (counts_check (network nodes firsts.now seconds.now lengths.now) sets.now edges.now offsets.now thresholds.now (length answers.old)) number.new place.new }
    ensures counts_answered { CountsAnswered (network nodes firsts.now seconds.now lengths.now) sets.now edges.now offsets.now thresholds.now answers.old (counts_check (network nodes firsts.now seconds.now lengths.now) sets.now edges.now offsets.now thresholds.now (length answers.old)) answers.new }
{
    let network = Network {
        nodes,
        firsts,
        seconds,
        lengths,
    };
    let reports = Reports {
        sets,
        edges,
        offsets,
    };
    let answer = counts(Method::RangeQuery, network, reports, thresholds, answers);
    told::tell(answer, (), number, place);
}

// By numbers stored with the events.
#[unsafe(no_mangle)]
pub extern "C" fn kc_augmentation_counts(
    nodes: u32,
    firsts: &[u32],
    seconds: &[u32],
    lengths: &[u32],
    sets: &[u32],
    edges: &[u32],
    offsets: &[u32],
    thresholds: &[u32],
    answers: &mut [u32],
    number: &mut u32,
    place: &mut usize,
)
    ensures told { Told (counts_check (network nodes firsts.now seconds.now lengths.now) sets.now edges.now offsets.now thresholds.now (length answers.old)) number.new place.new }
    ensures counts_answered { CountsAnswered (network nodes firsts.now seconds.now lengths.now) sets.now edges.now offsets.now thresholds.now answers.old (counts_check (network nodes firsts.now seconds.now lengths.now) sets.now edges.now offsets.now thresholds.now (length answers.old)) answers.new }
{
    let network = Network {
        nodes,
        firsts,
        seconds,
        lengths,
    };
    let reports = Reports {
        sets,
        edges,
        offsets,
    };
    let answer = counts(
        Method::CountAugmentation,
        network,
        reports,
        thresholds,
        answers,
    );
    told::tell(answer, (), number, place);
}

// By cursors that neighbouring events share.
#[unsafe(no_mangle)]
pub extern "C" fn kc_sharing_counts(
    nodes: u32,
    firsts: &[u32],
    seconds: &[u32],
    lengths: &[u32],
    sets: &[u32],
    edges: &[u32],
    offsets: &[u32],
    thresholds: &[u32],
    answers: &mut [u32],
    number: &mut u32,
    place: &mut usize,
)
    ensures told { Told (counts_check (network nodes firsts.now seconds.now lengths.now) sets.now edges.now offsets.now thresholds.now (length answers.old)) number.new place.new }
    ensures counts_answered { CountsAnswered (network nodes firsts.now seconds.now lengths.now) sets.now edges.now offsets.now thresholds.now answers.old (counts_check (network nodes firsts.now seconds.now lengths.now) sets.now edges.now offsets.now thresholds.now (length answers.old)) answers.new }
{
    let network = Network {
        nodes,
        firsts,
        seconds,
        lengths,
    };
    let reports = Reports {
        sets,
        edges,
        offsets,
    };
    let answer = counts(
        Method::NeighborSharing,
        network,
        reports,
        thresholds,
        answers,
    );
    told::tell(answer, (), number, place);
}
