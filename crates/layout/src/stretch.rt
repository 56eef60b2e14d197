// The events on one edge of a laid-out set, as a part of the caller's own list.
ghost use Rattle.std.specs.Prelude.{◌≡◌, count_by, ltb};
ghost use Rattle.model.specs.Network.{network_of};
ghost use Rattle.layout.specs.Stretch.{StretchAnswered};

use model::Network;
use validate::check_laid_out;

// How many of the numbers are below a limit.
fn count_below(numbers: &[u32], limit: u64) -> usize
    ensures { result ≡ count_by (λ t. ltb t limit) numbers.now }
{
    // A `for` compiles to vector instructions here, and `filter` with `count` to a branch for each number.
    let mut count = 0;
    for n in numbers {
        if (*n as u64) < limit {
            count += 1;
        }
    }
    count
}

// The offsets that belong to an edge. Where that is refused the part is empty; number and place tell it, 0 and 0 where it is not. They
// stand beside the part, and not in a Result, since document 01 asks for an empty part then (`StretchAnswered`).
pub fn events_on<'a>(
    network: Network,
    edges: &[u32],
    offsets: &'a [u32],
    edge: u32,
    number: &mut u32,
    place: &mut usize,
) -> &'a [u32]
    ensures { StretchAnswered (network_of network.entry) edges.now offsets.now edge result.now number.new place.new }
{
    if let Err(refusal) = check_laid_out(network, edges, offsets, edge) {
        *number = refusal.fault.number();
        *place = refusal.place;
        return &offsets[0..0];
    }
    *number = 0;
    *place = 0;
    let from = count_below(edges, edge as u64);
    let to = count_below(edges, edge as u64 + 1);
    &offsets[from..to]
}
