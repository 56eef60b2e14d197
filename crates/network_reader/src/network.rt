// Reading a network text.
ghost use Rattle.std.specs.Prelude.{◌≡◌, length};
ghost use Rattle.model.specs.Limits.{max_edges};
ghost use Rattle.model.specs.Network.{network_of};
ghost use Rattle.text.specs.Parallel.{Level};
ghost use Rattle.network_reader.specs.Steps.{Sound, Ended, NetworkTaken, EdgesAnswered};

use crate::arcs::{Arcs, take_line};
use model::{Fault, Network, NetworkSize, Refusal};
use reading::answer_three;

// The end of the text: 5 where no `p` line came, 11 where arcs are missing.
fn end(seen: Option<Arcs>, place: usize) -> Result<NetworkSize, Refusal>
    requires { Sound seen }
    ensures { Ended seen place result }
{
    let read = seen.ok_or(Refusal {
        fault: Fault::Misplaced,
        place,
    })?;
    if read.count != read.arcs as usize {
        return Err(Refusal {
            fault: Fault::WrongArcs,
            place,
        });
    }
    Ok(NetworkSize {
        nodes: read.nodes,
        edges: read.count / 2,
    })
}

// A whole text into the lists.
pub(crate) fn take_text(
    text: &[u8],
    firsts: &mut [u32],
    seconds: &mut [u32],
    lengths: &mut [u32],
) -> Result<NetworkSize, Refusal>
    requires { Level max_edges firsts.old seconds.old lengths.old }
    ensures { NetworkTaken text.now result firsts.new seconds.new lengths.new }
{
    let mut at = 0;
    let mut place = 1;
    let mut seen = None;
    // Each turn goes on by as many bytes as the line has, so this is no `for`.
    while at < text.len() {
        let rest = &text[at..];
        let line = text::feed_line(rest);
        let end = line.end;
        seen = take_line(seen, &rest[..end], firsts, seconds, lengths).map_err(|fault| Refusal {
            fault,
            place,
        })?;
        at += line.next;
        place += 1;
    }
    end(seen, place)
}

// 2, or the answer lists filled with the edges that were read.
pub(crate) fn answer_edges(
    read: Network,
    firsts: &mut [u32],
    seconds: &mut [u32],
    lengths: &mut [u32],
) -> Result<NetworkSize, Refusal>
    requires { (length read.seconds.now ≡ length read.firsts.now) × (length read.lengths.now ≡ length read.firsts.now) }
    ensures { EdgesAnswered (network_of read.entry) firsts.old seconds.old lengths.old result firsts.new seconds.new lengths.new }
{
    answer_three(
        read.firsts,
        read.seconds,
        read.lengths,
        firsts,
        seconds,
        lengths,
    )?;
    Ok(NetworkSize {
        nodes: read.nodes,
        edges: read.lengths.len(),
    })
}
