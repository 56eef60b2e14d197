// The reader of network texts.
#![tactic(auto)]

mod arcs;
mod network;

ghost use Rattle.network_reader.specs.Answers.{NetworkRead};

use model::{Network, NetworkSize, Refusal};
use network::{answer_edges, take_text};
use reading::check_length;

// A network text: the numbers of nodes and edges. The edges are read into lists that have room for every text's, so that nothing is
// answered before all is read.
pub fn read_network(
    text: &[u8],
    firsts: &mut [u32],
    seconds: &mut [u32],
    lengths: &mut [u32],
) -> Result<NetworkSize, Refusal>
    ensures { NetworkRead text.now firsts.old seconds.old lengths.old result firsts.new seconds.new lengths.new }
{
    check_length(text)?;
    let mut xs = [0u32; Network::MAX_EDGES];
    let mut ys = [0u32; Network::MAX_EDGES];
    let mut zs = [0u32; Network::MAX_EDGES];
    let size = take_text(text, &mut xs, &mut ys, &mut zs)?;
    let edges = size.edges;
    let read = Network {
        nodes: size.nodes,
        firsts: &xs[..edges],
        seconds: &ys[..edges],
        lengths: &zs[..edges],
    };
    answer_edges(read, firsts, seconds, lengths)
}
