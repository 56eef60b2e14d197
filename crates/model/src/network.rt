// A network as it is lent, and its sizes, with the limits of its nodes, edges and lengths.
ghost use Rattle.std.specs.Prelude.{◌&&◌, ◌≡◌};
ghost use Rattle.model.specs.Limits.{max_length};
ghost use Rattle.model.specs.Refusal.{is_between_of};
ghost use Rattle.model.specs.Made.{network_size_of};

use crate::number::is_between;
use crate::refusal::{Fault, Refusal};

// The number of nodes, and for each edge its first node, second node and length. Nothing is checked: validate does that.
#[derive(Clone, Copy)]
pub struct Network<'a> {
    pub nodes: u32,
    pub firsts: &'a [u32],
    pub seconds: &'a [u32],
    pub lengths: &'a [u32],
}

// The numbers of nodes and edges of a network.
#[derive(Clone, Copy)]
pub struct NetworkSize {
    pub nodes: u32,
    pub edges: usize,
}

impl NetworkSize {
    // 6: nodes or edges outside their limits.
    #[tactic(auto, unfolding(crate::specs::Answer::answer, crate::specs::Checks::sizes_check, crate::specs::Made::network_size_of, crate::specs::Refusal::unless))]
    pub fn new(nodes: u32, edges: usize) -> Result<NetworkSize, Refusal>
        ensures { result ≡ network_size_of nodes edges }
    {
        if !is_between(1, Network::MAX_NODES as u64, nodes as u64) {
            return Err(Refusal {
                fault: Fault::BadSizes,
                place: 0,
            });
        }
        if !is_between(1, Network::MAX_EDGES as u64, edges as u64) {
            return Err(Refusal {
                fault: Fault::BadSizes,
                place: 0,
            });
        }
        Ok(NetworkSize { nodes, edges })
    }
}

impl Network<'_> {
    pub const MAX_NODES: u32 = 512;

    pub const MAX_EDGES: usize = 1024;
    // Metres.
    pub const MAX_LENGTH: u32 = 1_000_000;

    // 7: both numbers name nodes.
    pub fn are_nodes(nodes: u32, u: u32, v: u32) -> bool
        ensures { result ≡ (is_between_of 1 nodes u && is_between_of 1 nodes v) }
    {
        is_between(1, nodes as u64, u as u64) && is_between(1, nodes as u64, v as u64)
    }

    // 9: a length from 1 to the limit.
    pub fn is_length(length: u32) -> bool
        ensures { result ≡ is_between_of 1 max_length length }
    {
        is_between(1, Network::MAX_LENGTH as u64, length as u64)
    }
}
