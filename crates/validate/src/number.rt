// The tests that several checks share.
ghost use Rattle.std.specs.Prelude.{◌≡◌, leb, length, get_or, pred, ◌≤◌};
ghost use Rattle.model.specs.Refusal.{is_between_of};
ghost use Rattle.model.specs.Checks.{same_length_of, room_check};

use model::{Fault, Refusal};

// 2: two lists that belong together differ in length.
pub fn same_length(one: &[u32], other: &[u32]) -> Result<(), Refusal>
    ensures { result ≡ same_length_of one.now other.now }
{
    if one.len() == other.len() {
        return Ok(());
    }
    Err(Refusal {
        fault: Fault::ListsDiffer,
        place: 0,
    })
}

// 2: the answer list is too short for so many entries.
pub fn check_room(count: usize, answers: &[u32]) -> Result<(), Refusal>
    ensures { result ≡ room_check count answers.now }
{
    if answers.len() < count {
        return Err(Refusal {
            fault: Fault::ListsDiffer,
            place: 0,
        });
    }
    Ok(())
}

// Nodes and edges are numbered from 1: the number names one of so many.
pub(crate) fn names_one(count: u64, number: u32) -> bool
    ensures { result ≡ is_between_of 1 count number }
{
    model::is_between(1, count, number as u64)
}

// The offset is not beyond the edge, which is one of the network's.
pub(crate) fn is_on_edge(lengths: &[u32], edge: u32, offset: u32) -> bool
    requires { (1 ≤ edge) × (edge ≤ length lengths.now) }
    ensures { result ≡ leb offset (get_or lengths.now (pred edge) 0) }
{
    offset <= lengths[edge as usize - 1]
}
