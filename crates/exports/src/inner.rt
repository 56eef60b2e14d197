// What two of the methods count from, of one laid-out set: stored numbers and cursors.
ghost use Rattle.model.specs.Network.{network};
ghost use Rattle.count_augmentation.specs.Augmented.{augment_check, Augmented};
ghost use Rattle.sweep.specs.Answers.{cursors_check, CursorsAnswered};
ghost use Rattle.exports.specs.Told.{Told};

use crate::told;
use model::Network;

// With each event of a laid-out set, how many on its edge lie no farther from the first end, and from the second.
#[unsafe(no_mangle)]
pub extern "C" fn kc_augment(
    nodes: u32,
    firsts: &[u32],
    seconds: &[u32],
    lengths: &[u32],
    edges: &[u32],
    offsets: &[u32],
    near_first: &mut [u32],
    near_second: &mut [u32],
    number: &mut u32,
    place: &mut usize,
)
    ensures told { Told (augment_check (network nodes firsts.now seconds.now lengths.now) edges.now offsets.now near_first.old near_second.old) number.new place.new }
    ensures augmented { Augmented (network nodes firsts.now seconds.now lengths.now) edges.now offsets.now near_first.old near_second.old (augment_check (network nodes firsts.now seconds.now lengths.now) edges.now offsets.now near_first.old near_second.old) near_first.new near_second.new }
{
    let network = Network {
        nodes,
        firsts,
        seconds,
        lengths,
    };
    let answer = count_augmentation::augment(network, edges, offsets, near_first, near_second);
    told::tell(answer, (), number, place);
}

// The cursors of two edges of a laid-out set: six positions for each event on the first, and six sums of moves.
// 0 where there is no cursor, else one more than the number.
#[unsafe(no_mangle)]
pub extern "C" fn kc_cursors(
    nodes: u32,
    firsts: &[u32],
    seconds: &[u32],
    lengths: &[u32],
    edges: &[u32],
    offsets: &[u32],
    edge1: u32,
    edge2: u32,
    threshold: u32,
    bound: u32,
    positions: &mut [u32],
    moves: &mut [u32],
    number: &mut u32,
    place: &mut usize,
)
    ensures told { Told (cursors_check (network nodes firsts.now seconds.now lengths.now) edges.now offsets.now edge1 edge2 positions.old moves.old) number.new place.new }
    ensures cursors_answered { CursorsAnswered (network nodes firsts.now seconds.now lengths.now) edges.now offsets.now edge1 edge2 threshold bound positions.old moves.old (cursors_check (network nodes firsts.now seconds.now lengths.now) edges.now offsets.now edge1 edge2 positions.old moves.old) positions.new moves.new }
{
    let network = Network {
        nodes,
        firsts,
        seconds,
        lengths,
    };
    let answer = sweep::cursors(
        network, edges, offsets, edge1, edge2, threshold, bound, positions, moves,
    );
    told::tell(answer, (), number, place);
}
