// One cursor: how many events of the second edge are reached from an event of the first, seen from an end of the second edge.
ghost use Rattle.std.specs.Prelude.{◌≡◌, ◌≤◌, ◌<◌, ◌-◌, length};
ghost use Rattle.sweep.specs.Moving.{reach, is_within_of, fallen_from, risen_from, moved_on, route_cursor, below_cursor, up_to_cursor};
ghost use Rattle.edge_pair.specs.Edges.{side_of};
ghost use Rattle.sweep.specs.Sweeping.{resting};

use edge_pair::way;

// A cursor of any kind. It counts the events whose gap to the first or the second end of the second edge, with minus, is at most plus:
// the offset on the first edge is added to the gap if the cursor is falling, else to plus.
#[derive(Clone, Copy)]
pub struct Cursor {
    pub falling: bool,
    pub plus: u32,
    pub minus: u64,
    pub first: bool,
}

// How far a cursor reaches on the second edge from an offset on the first.
fn reach(cursor: Cursor, x: u32) -> u64
    ensures { result ≡ reach cursor x }
{
    let plus = cursor.plus as u64 + 1;
    if cursor.falling {
        return plus.saturating_sub(cursor.minus).saturating_sub(x as u64);
    }
    (x as u64 + plus).saturating_sub(cursor.minus)
}

// The event at place k from an end of the second edge is within a reach.
fn is_within(ys: &[u32], long: u32, first: bool, reach: u64, k: usize) -> bool
    requires { k < length ys.now }
    ensures { result ≡ is_within_of long (side_of first) reach ys.now k }
{
    if first {
        return (ys[k] as u64) < reach;
    }
    (long as u64).saturating_sub(ys[ys.len() - 1 - k] as u64) < reach
}

// Where a cursor stands before the first event.
pub(crate) fn rest(cursor: Cursor, ys: &[u32]) -> usize
    ensures { result ≡ resting cursor ys.now }
{
    if cursor.falling {
        return ys.len();
    }
    0
}

// Down from a position while the outermost event is not within the reach.
fn fall(ys: &[u32], long: u32, first: bool, reach: u64, from: usize) -> usize
    requires { from ≤ length ys.now }
    ensures { result ≡ fallen_from (is_within_of long (side_of first) reach ys.now) from }
{
    for k in (0..from).rev() {
        if is_within(ys, long, first, reach, k) {
            return k + 1;
        }
    }
    0
}

// Up from a position while the next event is within the reach. It stays apart from `fall`, from which it differs in the direction, in the
// test and in where it ends.
fn rise(ys: &[u32], long: u32, first: bool, reach: u64, from: usize) -> usize
    ensures { result ≡ risen_from (is_within_of long (side_of first) reach ys.now) (length ys.now - from) from }
{
    // Not a `for`: it would have to end in `from.max(ys.len())`, and the whole program takes up to a tenth longer so.
    let mut k = from;
    while k < ys.len() && is_within(ys, long, first, reach, k) {
        k += 1;
    }
    k
}

// Moves a cursor on to an offset of the first edge: down if it is falling, else up. Over events in order, from rest or from where it
// stood at an earlier one, it comes to stand at the number of events within its reach.
pub fn advance(cursor: Cursor, ys: &[u32], long: u32, x: u32, position: usize) -> usize
    ensures { result ≡ moved_on cursor long ys.now x position }
{
    let metres = reach(cursor, x);
    if cursor.falling {
        // Two calls, and not one with `position.min(ys.len())`: so the whole program takes up to a sixth less time.
        if ys.len() < position {
            return fall(ys, long, cursor.first, metres, ys.len());
        }
        return fall(ys, long, cursor.first, metres, position);
    }
    rise(ys, long, cursor.first, metres, position)
}

// The cursor of a route: its gap on the first edge is the offset if it is falling, else the length less the offset. Where the code is
// that of no route it reaches nothing from any offset of the first edge.
pub fn route(threshold: u32, long: u32, falling: bool, code: u32, first: bool) -> Cursor
    ensures { result ≡ route_cursor threshold long falling code first }
{
    let metres = way(code);
    let minus = if falling {
        metres
    } else {
        long as u64 + metres
    };
    Cursor {
        falling,
        plus: threshold,
        minus,
        first,
    }
}

// The cursor of the offsets below own offset less threshold.
pub fn below(threshold: u32) -> Cursor
    ensures { result ≡ below_cursor threshold }
{
    Cursor {
        falling: false,
        plus: 0,
        minus: threshold as u64 + 1,
        first: true,
    }
}

// The cursor of the offsets not above own offset plus threshold.
pub fn up_to(threshold: u32) -> Cursor
    ensures { result ≡ up_to_cursor threshold }
{
    Cursor {
        falling: false,
        plus: threshold,
        minus: 0,
        first: true,
    }
}
