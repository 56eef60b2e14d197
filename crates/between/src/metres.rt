// Distances as their metres, none where there is no walk or it is beyond a bound.
ghost use Rattle.std.specs.Prelude.{◌≡◌, pred, ◌≤◌, length, get_or};
ghost use Rattle.model.specs.Distance.{decode, least};
ghost use Rattle.between.specs.Answers.{metres_of};
ghost use Rattle.between.specs.Metres.{distance_of};

// A bound that cuts nothing off.
pub const WIDEST: u32 = u32::MAX;

// The metres of node v: its entry in the row is 0 for none, else one more.
#[tactic(auto, unfolding(crate::specs::Answers::metres_of, model::specs::Distance::decode))]
pub(crate) fn metres_at(row: &[u32], v: u32) -> Option<u32>
    requires { (1 ≤ v) × (v ≤ length row.now) }
    ensures { result ≡ metres_of (decode (get_or row.now (pred v) 0)) }
{
    row[v as usize - 1].checked_sub(1)
}

// The lesser of two distances.
#[tactic(auto, unfolding(crate::specs::Answers::metres_of, crate::specs::Metres::distance_of, model::specs::Distance::least))]
pub(crate) fn lesser(a: Option<u32>, b: Option<u32>) -> Option<u32>
    ensures { result ≡ metres_of (least (distance_of a) (distance_of b)) }
{
    match (a, b) {
        (Some(m), Some(n)) => Some(m.min(n)),
        (Some(_), None) => a,
        (None, _) => b,
    }
}
