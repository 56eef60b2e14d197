// Distances as codes: 0 for none, else one more than the metres. Codes in place of Option<u64>: with it a perimeter count took 22 % more
// instructions at a radius of up to 2 metres, where the searches are short.
ghost use Rattle.std.specs.Prelude.{◌≡◌, ◌≤◌};
ghost use Rattle.model.specs.Distance.{code, plus, metres, exactly, decode};
ghost use Rattle.model.specs.Location.{along_edge_of};
ghost use Rattle.perimeter.specs.Reach.{by_ends_of, left_of, farthest};

use model::lesser_code;

// A distance after so many metres.
fn after(gap: u64, c: u64) -> u64
    requires { (gap ≤ farthest) × (c ≤ farthest) }
    ensures { result ≡ code (plus (metres gap) (decode c)) }
{
    if c == 0 {
        return 0;
    }
    gap + c
}

// By the first of two ends or by the second, whichever is nearer.
pub(crate) fn by_ends(gap1: u64, gap2: u64, end1: u64, end2: u64) -> u64
    requires gap1_le_farthest { (gap1 ≤ farthest) × (gap2 ≤ farthest) }
    requires end1_le_farthest { (end1 ≤ farthest) × (end2 ≤ farthest) }
    ensures { result ≡ code (by_ends_of gap1 gap2 (decode end1) (decode end2)) }
{
    lesser_code(after(gap1, end1), after(gap2, end2))
}

// Along one edge from one offset to another; none where they lie on different edges.
pub(crate) fn stretch(own: bool, x: u64, y: u64) -> u64
    requires { (x ≤ farthest) × (y ≤ farthest) }
    ensures { result ≡ code (along_edge_of own x y) }
{
    if !own {
        return 0;
    }
    x.abs_diff(y) + 1
}

// What a distance leaves of the radius, 0 if nothing or if there is none.
pub(crate) fn left(radius: u64, c: u64) -> u64
    ensures { result ≡ left_of radius (decode c) }
{
    if c == 0 {
        return 0;
    }
    radius.saturating_sub(c - 1)
}

// At exactly the radius.
pub(crate) fn is_at(c: u64, radius: u64) -> bool
    requires { radius ≤ farthest }
    ensures { result ≡ exactly (decode c) radius }
{
    c == radius + 1
}
