// The reader of report texts.
#![tactic(auto)]

mod events;

ghost use Rattle.model.specs.Network.{network_of};
ghost use Rattle.event_reader.specs.Answers.{EventsRead};

use events::{answer_rows, take_text};
use model::{EventSet, Network, Refusal, Reports};
use reading::check_length;
use validate::check_network;

// A report text over a lent network: the number of events. They are read into lists that have room for every text's, so that nothing is
// answered before all is read.
pub fn read_events(
    text: &[u8],
    network: Network,
    sets: &mut [u32],
    edges: &mut [u32],
    offsets: &mut [u32],
) -> Result<usize, Refusal>
    ensures { EventsRead (network_of network.entry) text.now sets.old edges.old offsets.old result sets.new edges.new offsets.new }
{
    check_length(text)?;
    check_network(network)?;
    let mut xs = [0u32; EventSet::MAX_EVENTS];
    let mut ys = [0u32; EventSet::MAX_EVENTS];
    let mut zs = [0u32; EventSet::MAX_EVENTS];
    let count = take_text(network.lengths, text, &mut xs, &mut ys, &mut zs)?;
    answer_rows(
        network,
        Reports {
            sets: &xs[..count],
            edges: &ys[..count],
            offsets: &zs[..count],
        },
        sets,
        edges,
        offsets,
    )
}
