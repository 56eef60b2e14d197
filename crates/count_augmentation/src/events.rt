// The stored numbers of every event of a laid-out set.
ghost use Rattle.std.specs.Prelude.{◌≡◌, length};
ghost use Rattle.model.specs.Network.{network_of};
ghost use Rattle.count_augmentation.specs.Augmented.{augment_check, Augmented};
ghost use Rattle.count_augmentation.specs.Events.{LaidOut, EventsStored};

use crate::storing::store;
use model::{Fault, Network, Refusal, equals_end};

// The stored numbers of all events, edge by edge.
fn store_events(edges: &[u32], offsets: &[u32], near_first: &mut [u32], near_second: &mut [u32])
    requires { LaidOut edges.now offsets.now × (length near_first.old ≡ length edges.now) × (length near_second.old ≡ length edges.now) }
    ensures { EventsStored edges.now offsets.now (length edges.now) near_first.new near_second.new }
{
    // Not a `for`: the place goes on to the end of the events on one edge.
    let mut from = 0;
    while from < edges.len() {
        let to = equals_end(edges, from);
        store(
            &offsets[from..to],
            &mut near_first[from..to],
            &mut near_second[from..to],
        );
        from = to;
    }
}

// 2, 6, 7, 9, 13 to 15 and 17. Every refusal 2 is at place 0, so that the room may be looked at first. Beside the events one edge
// is looked at: edge 1, which every network has.
fn check_augment(
    network: Network,
    edges: &[u32],
    offsets: &[u32],
    near_first: &[u32],
    near_second: &[u32],
) -> Result<(), Refusal>
    ensures { result ≡ augment_check (network_of network.entry) edges.now offsets.now near_first.now near_second.now }
{
    if near_first.len() < edges.len() {
        return Err(Refusal {
            fault: Fault::ListsDiffer,
            place: 0,
        });
    }
    if near_second.len() < edges.len() {
        return Err(Refusal {
            fault: Fault::ListsDiffer,
            place: 0,
        });
    }
    validate::check_laid_out(network, edges, offsets, 1)
}

// With each event of a laid-out set, how many on its edge lie no farther from the edge's first end, and how many no farther from
// the second, itself and equals included.
pub fn augment(
    network: Network,
    edges: &[u32],
    offsets: &[u32],
    near_first: &mut [u32],
    near_second: &mut [u32],
) -> Result<(), Refusal>
    ensures { Augmented (network_of network.entry) edges.now offsets.now near_first.old near_second.old result near_first.new near_second.new }
{
    check_augment(network, edges, offsets, near_first, near_second)?;
    let count = edges.len();
    store_events(
        edges,
        offsets,
        &mut near_first[..count],
        &mut near_second[..count],
    );
    Ok(())
}
