// The cursors of two edges, over events given as laid out.
ghost use Rattle.model.specs.Refusal.{accepted};
ghost use Rattle.std.specs.Prelude.{◌≡◌};
ghost use Rattle.model.specs.Network.{network_of};
ghost use Rattle.sweep.specs.Answers.{cursors_check, CursorsAnswered};
ghost use Rattle.sweep.specs.Asked.{CursorsWritten};

use crate::asked::{check_cursors, edges_between};
use crate::sweeping::sweep_edges;
use layout::events_on;
use model::{Network, Refusal};

// Sweeps the cursors, what is asked being accepted.
fn sweep_between(
    network: Network,
    edges: &[u32],
    offsets: &[u32],
    edge1: u32,
    edge2: u32,
    threshold: u32,
    bound: u32,
    positions: &mut [u32],
    moves: &mut [u32],
)
    requires { cursors_check (network_of network) edges.now offsets.now edge1 edge2 positions.old moves.old ≡ accepted }
    ensures { CursorsWritten (network_of network.entry) edges.now offsets.now edge1 edge2 threshold bound positions.old moves.old positions.new moves.new }
{
    let mut number: u32 = 0;
    let mut place: usize = 0;
    let xs = events_on(network, edges, offsets, edge1, &mut number, &mut place);
    let ys = events_on(network, edges, offsets, edge2, &mut number, &mut place);
    let between = edges_between(network, bound, edge1, edge2);
    sweep_edges(threshold, between, xs, ys, positions, moves);
}

// The positions of the six cursors of two edges at each event of the first, cursor by cursor, and the moves of each. A route whose
// node distance is beyond the bound has no cursor, and on two different edges there are none of the window: 0 stands for that, and
// one more than the number otherwise. Refuses by 2, 6, 7, 9, 13 to 15 and 17, and leaves the answers as they were then.
pub fn cursors(
    network: Network,
    edges: &[u32],
    offsets: &[u32],
    edge1: u32,
    edge2: u32,
    threshold: u32,
    bound: u32,
    positions: &mut [u32],
    moves: &mut [u32],
) -> Result<(), Refusal>
    ensures { CursorsAnswered (network_of network.entry) edges.now offsets.now edge1 edge2 threshold bound positions.old moves.old result positions.new moves.new }
{
    check_cursors(network, edges, offsets, edge1, edge2, positions, moves)?;
    sweep_between(
        network, edges, offsets, edge1, edge2, threshold, bound, positions, moves,
    );
    Ok(())
}
