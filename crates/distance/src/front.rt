// The front: the nodes that wait, in any order, each with its key and its slot, which is its place there.
ghost use Rattle.std.specs.Prelude.{◌+◌, ◌-◌, ◌≤◌, ◌<◌, length, get_or};
ghost use Rattle.model.specs.Limits.{max_nodes};
ghost use Rattle.distance.specs.Keys.{Removed};
ghost use Rattle.distance.specs.Search.{Offerable, Offered};

use crate::keys::key_of;

// Offers node w an entry: a node not yet reached enters the front, one with a greater entry gets the lesser.
pub(crate) fn offer(
    dist: &mut [u32],
    front: &mut [u32],
    keys: &mut [u64],
    slots: &mut [u32],
    len: usize,
    w: u32,
    entry: u32,
) -> usize
    requires { Offerable dist.old front.old keys.old slots.old len w entry }
    ensures { Offered dist.old front.old keys.old slots.old len w entry dist.new front.new keys.new slots.new result }
{
    let at = w as usize;
    let old = dist[at];
    if old == 0 {
        dist[at] = entry;
        front[len] = w;
        keys[len] = key_of(entry, len);
        slots[at] = len as u32;
        return len + 1;
    }
    if entry < old {
        let place = slots[at] as usize;
        dist[at] = entry;
        keys[place] = key_of(entry, place);
    }
    len
}

// Takes the node at a place out of the front; the last one moves there.
pub(crate) fn remove(
    front: &mut [u32],
    keys: &mut [u64],
    slots: &mut [u32],
    last: usize,
    place: usize,
)
    requires place_le_last { (place ≤ last) × (last < length front.old) × (last < length keys.old) × (last < max_nodes) }
    requires last_in_bounds { (get_or front.old last 0 < length slots.old) × (last ≤ get_or keys.old last 0) }
    ensures { Removed front.old keys.old slots.old last place front.new keys.new slots.new }
{
    let moved = front[last];
    front[place] = moved;
    keys[place] = keys[last] - (last - place) as u64;
    slots[moved as usize] = place as u32;
}
