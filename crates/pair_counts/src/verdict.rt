// The checks of the claim: the lowest number decides, then the lowest place.
ghost use Rattle.std.specs.Prelude.{◌&&◌, ◌≡◌, eqb, length};
ghost use Rattle.model.specs.Counting.{one_if};
ghost use Rattle.model.specs.Network.{network_of};
ghost use Rattle.pair_counts.specs.Claim.{lowest, on_edge_of, cursor_room, asked_check};

use model::{EventSet, Fault, Network, Refusal};

// Of two checks the refusal with the lower number, then the lower place.
pub(crate) fn lowest(a: Result<(), Refusal>, b: Result<(), Refusal>) -> Result<(), Refusal>
    ensures { result ≡ lowest a b }
{
    match (a, b) {
        (Err(r), Err(s)) => {
            let n = r.fault.number();
            let m = s.fault.number();
            if n < m {
                return a;
            }
            if m < n {
                return b;
            }
            if r.place <= s.place { a } else { b }
        }
        (Err(_), Ok(_)) => a,
        (Ok(_), _) => b,
    }
}

// How many events of a set lie on an edge.
fn on_edge(sets: &[u32], edges: &[u32], s: u32, e: u32) -> usize
    requires { length sets.now ≡ length edges.now }
    ensures { result ≡ on_edge_of sets.now edges.now s e }
{
    let mut count = 0;
    for (k, edge) in edges.iter().enumerate() {
        count += usize::from(sets[k] == s && *edge == e);
    }
    count
}

// 2: room for the positions and the moves.
pub(crate) fn check_room(
    sets: &[u32],
    edges: &[u32],
    s: u32,
    e: u32,
    positions: &[u32],
    moves: &[u32],
) -> Result<(), Refusal>
    ensures { result ≡ cursor_room sets.now edges.now s e positions.now moves.now }
{
    if sets.len() != edges.len()
        || positions.len() / 6 < on_edge(sets, edges, s, e)
        || moves.len() < 6
    {
        return Err(Refusal {
            fault: Fault::ListsDiffer,
            place: 0,
        });
    }
    Ok(())
}

// 12 and 13 for the set and the two edges asked about.
pub(crate) fn check_asked(network: Network, s: u32, e: u32, f: u32) -> Result<(), Refusal>
    ensures { result ≡ asked_check (network_of network.entry) s e f }
{
    if !EventSet::is_set(s) {
        return Err(Refusal {
            fault: Fault::BadSet,
            place: 0,
        });
    }
    let edges = network.lengths.len() as u64;
    if !model::is_between(1, edges, e as u64) || !model::is_between(1, edges, f as u64) {
        return Err(Refusal {
            fault: Fault::NoEdge,
            place: 0,
        });
    }
    Ok(())
}
