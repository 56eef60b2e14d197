// The checks in front of a counting method, in document 01's order.
ghost use Rattle.std.specs.Prelude.{◌≡◌, ◌*◌, leb, length};
ghost use Rattle.model.specs.Events.{set_count};
ghost use Rattle.model.specs.Network.{network_of};
ghost use Rattle.prepare.specs.Counts.{counts_check};

use model::{Fault, Network, Refusal, Reports};

// Room for a count of every set at every threshold.
fn has_room(sets: &[u32], thresholds: &[u32], room: usize) -> bool
    ensures { result ≡ leb (set_count sets.now * length thresholds.now) room }
{
    let count = validate::greatest_set(sets) as usize + 1;
    thresholds.len() <= room / count
}

// 2, 6, 7, 9, 12 to 16, 18 and 19. Every refusal 2 is at place 0, so that the room may be looked at first.
pub(crate) fn check_counts(
    network: Network,
    reports: Reports,
    thresholds: &[u32],
    room: usize,
) -> Result<(), Refusal>
    ensures { result ≡ counts_check (network_of network.entry) reports.entry.sets.now reports.entry.edges.now reports.entry.offsets.now thresholds.now room }
{
    if !has_room(reports.sets, thresholds, room) {
        return Err(Refusal {
            fault: Fault::ListsDiffer,
            place: 0,
        });
    }
    validate::check_sets(network, reports)?;
    validate::check_thresholds(thresholds)
}
