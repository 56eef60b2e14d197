// An answer told as plain numbers: a refusal through number and place, 0 and 0 where there is none.
ghost use Rattle.exports.specs.Told.{Told, ToldWith, verdict_of, value_or, length_code, ToldNetwork};

use model::{NetworkSize, Refusal};

// The value of an answer, or another where it is refused.
#[tactic(auto, unfolding(crate::specs::Told::verdict_of, crate::specs::Told::value_or, model::specs::Refusal::number_of, model::specs::Refusal::place_of))]
pub fn tell<T: Drop>(
    answer: Result<T, Refusal>,
    otherwise: T,
    number: &mut u32,
    place: &mut usize,
) -> T
    ensures { ToldWith (verdict_of answer) (value_or otherwise answer) result number.new place.new }
{
    match answer {
        Ok(value) => {
            *number = 0;
            *place = 0;
            value
        }
        Err(refusal) => {
            *number = refusal.fault.number();
            *place = refusal.place;
            otherwise
        }
    }
}

// One more than the metres, which always fits 64 bits, and 0 for none.
pub fn tell_length(answer: Result<Option<u32>, Refusal>, number: &mut u32, place: &mut usize) -> u64
    ensures { ToldWith (verdict_of answer) (length_code answer) result number.new place.new }
{
    match tell(answer, None, number, place) {
        Some(metres) => metres as u64 + 1,
        None => 0,
    }
}

// The number of edges, with the number of nodes beside it.
pub fn tell_network(
    answer: Result<NetworkSize, Refusal>,
    nodes: &mut u32,
    number: &mut u32,
    place: &mut usize,
) -> usize
    ensures { ToldNetwork answer result nodes.new number.new place.new }
{
    let none = NetworkSize { nodes: 0, edges: 0 };
    let size = tell(answer, none, number, place);
    *nodes = size.nodes;
    size.edges
}
