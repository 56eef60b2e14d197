// The threshold text over reports that pass every check.
ghost use Rattle.model.specs.Events.{events};
ghost use Rattle.model.specs.Network.{network_of};
ghost use Rattle.threshold_reader.specs.Answers.{text_thresholds, threshold_file_check};
ghost use Rattle.report.specs.Parts.{ReportsPass};
ghost use Rattle.report.specs.Report.{BytesPrinted, counts_table, line_or, thresholds_name};

use crate::columns::print_columns;
use crate::refused::print_refused;
use model::{Network, Refusal, Reports, Thresholds};
use threshold_reader::read_thresholds;

// What follows the reports. The thresholds are read into a list that has room for every text's.
pub(crate) fn print_over_reports(
    network: Network,
    reports: Reports,
    thresholds: &[u8],
    out: &mut [u8],
) -> Result<usize, Refusal>
    requires { ReportsPass (network_of network) reports.sets.now reports.edges.now reports.offsets.now }
    ensures { BytesPrinted (line_or (threshold_file_check thresholds.now) thresholds_name (counts_table (network_of network.entry) reports.entry.sets.now (events reports.entry.edges.now reports.entry.offsets.now) (text_thresholds thresholds.now))) out.old result out.new }
{
    let mut list = [0u32; Thresholds::MAX_THRESHOLDS];
    match read_thresholds(thresholds, &mut list) {
        Err(refusal) => print_refused(b"thresholds.csv", refusal, out),
        Ok(count) => print_columns(network, reports, &list[..count], out),
    }
}
