// The printed report from three texts.
#![tactic(auto)]

mod columns;
mod refused;
mod reports;
mod thresholds;

ghost use Rattle.report.specs.Report.{ReportPrinted};

use model::{Network, Refusal, Thresholds};
use network_reader::read_network;
use refused::print_refused;
use reports::print_over_network;

// Room for whatever is printed: the line of names, and for each threshold that there may be the longest row.
pub const REPORT_ROOM: usize = 35 + Thresholds::MAX_THRESHOLDS * 85;

// Prints the line of the first refused text, otherwise the table. Refuses a list of bytes that is too short (2), which one with
// REPORT_ROOM entries never is. The edges are read into lists that have room for every text's.
pub fn report(
    network: &[u8],
    reports: &[u8],
    thresholds: &[u8],
    out: &mut [u8],
) -> Result<usize, Refusal>
    ensures { ReportPrinted network.now reports.now thresholds.now out.old result out.new }
{
    let mut firsts = [0u32; Network::MAX_EDGES];
    let mut seconds = [0u32; Network::MAX_EDGES];
    let mut lengths = [0u32; Network::MAX_EDGES];
    match read_network(network, &mut firsts, &mut seconds, &mut lengths) {
        Err(refusal) => print_refused(b"network.gr", refusal, out),
        Ok(size) => {
            let count = size.edges;
            let read = Network {
                nodes: size.nodes,
                firsts: &firsts[..count],
                seconds: &seconds[..count],
                lengths: &lengths[..count],
            };
            print_over_network(read, reports, thresholds, out)
        }
    }
}
