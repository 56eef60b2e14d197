// The report text over a network that passes every check.
ghost use Rattle.model.specs.Network.{network_of};
ghost use Rattle.report.specs.Parts.{NetworkPasses};
ghost use Rattle.report.specs.Report.{BytesPrinted, bytes_over_network};

use crate::refused::print_refused;
use crate::thresholds::print_over_reports;
use event_reader::read_events;
use model::{EventSet, Network, Refusal, Reports};

// What follows the network. The reports are read into lists that have room for every text's.
pub(crate) fn print_over_network(
    network: Network,
    reports: &[u8],
    thresholds: &[u8],
    out: &mut [u8],
) -> Result<usize, Refusal>
    requires { NetworkPasses (network_of network) }
    ensures { BytesPrinted (bytes_over_network (network_of network.entry) reports.now thresholds.now) out.old result out.new }
{
    let mut sets = [0u32; EventSet::MAX_EVENTS];
    let mut edges = [0u32; EventSet::MAX_EVENTS];
    let mut offsets = [0u32; EventSet::MAX_EVENTS];
    match read_events(reports, network, &mut sets, &mut edges, &mut offsets) {
        Err(refusal) => print_refused(b"reports.csv", refusal, out),
        Ok(count) => print_over_reports(
            network,
            Reports {
                sets: &sets[..count],
                edges: &edges[..count],
                offsets: &offsets[..count],
            },
            thresholds,
            out,
        ),
    }
}
