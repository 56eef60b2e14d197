// Perimeter counts: how many locations lie at exactly a radius from a centre.
#![tactic(auto)]

mod around;
mod codes;
mod counts;
mod edges;

ghost use Rattle.std.specs.Prelude.{◌≡◌};
ghost use Rattle.model.specs.Network.{network_of};
ghost use Rattle.perimeter.specs.Answers.{perimeter_answer};

use model::{Network, Refusal};

// The centre is an edge number and an offset. A node is one location however many edges meet there. Refuses by 2, 6, 7, 9, 13, 14.
#[tactic(auto, unfolding(crate::specs::Answers::perimeter_answer, model::specs::Answer::answer))]
pub fn perimeter_count(
    network: Network,
    edge: u32,
    offset: u32,
    radius: u32,
) -> Result<u32, Refusal>
    ensures { result ≡ perimeter_answer (network_of network.entry) edge offset radius }
{
    validate::check_locations(network, edge, offset, edge, offset)?;
    Ok(around::count_around(network, edge as usize - 1, offset, radius))
}
