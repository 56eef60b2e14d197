// The locations strictly inside one edge at exactly the radius.
ghost use Rattle.std.specs.Prelude.{◌≡◌, ◌≤◌};
ghost use Rattle.model.specs.Counting.{one_if};
ghost use Rattle.model.specs.Distance.{code};
ghost use Rattle.perimeter.specs.Reach.{unseen};
ghost use Rattle.perimeter.specs.Sight.{lies, met, InSight, MetCounted};

use crate::codes::{by_ends, is_at, left, stretch};
use model::lesser_code;

// An edge as seen from the centre: the codes of its ends' distances, its length, and whether the centre lies on it.
#[derive(Clone, Copy)]
pub struct Sight {
    pub end1: u64,
    pub end2: u64,
    pub length: u64,
    pub own: bool,
    pub offset: u64,
    pub radius: u64,
}

// The code of an offset's distance.
fn lies_at(s: Sight, y: u64) -> u64
    requires { InSight s × (y ≤ s.length) }
    ensures { result ≡ code (lies s y) }
{
    lesser_code(
        by_ends(y, s.length - y, s.end1, s.end2),
        stretch(s.own, s.offset, y),
    )
}

// The offset is strictly inside the edge and at exactly the radius.
fn is_met(s: Sight, y: u64) -> bool
    requires { InSight s }
    ensures { result ≡ met s y }
{
    (1..s.length).contains(&y) && is_at(lies_at(s, y), s.radius)
}

// 1 if the offset is met and is none of those seen before, else 0.
// Three numbers in place of a slice of those seen: with `contains` a perimeter count took 9 % longer at a radius of up to 2 metres.
fn first_met(s: Sight, y: u64, seen1: u64, seen2: u64, seen3: u64) -> u32
    requires { InSight s }
    ensures { result ≡ one_if (unseen seen1 (unseen seen2 (unseen seen3 (met s))) y) }
{
    if seen1 == y || seen2 == y || seen3 == y {
        return 0;
    }
    u32::from(is_met(s, y))
}

// How many offsets are met. Only four can be: by either end, and on the centre's own edge before it or behind it.
// Where two of them are the same one, as where two ways meet, it is counted once. (Offset 0 is never met.)
pub(crate) fn count_met(s: Sight) -> u32
    requires { InSight s }
    ensures { MetCounted s result }
{
    let by_end1 = left(s.radius, s.end1);
    let by_end2 = s.length.saturating_sub(left(s.radius, s.end2));
    let before = s.offset.saturating_sub(s.radius);
    let behind = s.offset + s.radius;
    let n1 = first_met(s, by_end1, 0, 0, 0);
    let n2 = first_met(s, by_end2, 0, 0, by_end1);
    let n3 = first_met(s, before, 0, by_end2, by_end1);
    let n4 = first_met(s, behind, before, by_end2, by_end1);
    n1 + n2 + n3 + n4
}
