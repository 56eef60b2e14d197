// The table over lists that pass every check, printed.
ghost use Rattle.std.specs.Prelude.{◌≤◌, length, take};
ghost use Rattle.model.specs.Events.{events};
ghost use Rattle.model.specs.Limits.{max_thresholds};
ghost use Rattle.model.specs.Network.{network_of};
ghost use Rattle.printing.specs.Answers.{TablePrinted};
ghost use Rattle.text.specs.Parallel.{Level};
ghost use Rattle.report.specs.Parts.{AllPass};
ghost use Rattle.report.specs.Report.{BytesPrinted, counts_table};

use model::{Network, Refusal, Reports, Thresholds};
use printing::print_table;
use table::{Table, table};

// The table with as many entries of each column as there are thresholds.
fn print_fronts(
    comparisons: bool,
    thresholds: &[u32],
    observed: &[u32],
    lower: &[u32],
    upper: &[u32],
    out: &mut [u8],
) -> Result<usize, Refusal>
    requires { (length thresholds.now ≤ max_thresholds) × Level max_thresholds observed.now lower.now upper.now }
    ensures { TablePrinted comparisons thresholds.now (take (length thresholds.now) observed.now) (take (length thresholds.now) lower.now) (take (length thresholds.now) upper.now) out.old result out.new }
{
    let n = thresholds.len();
    print_table(
        comparisons,
        thresholds,
        &observed[..n],
        &lower[..n],
        &upper[..n],
        out,
    )
}

// Over lists that pass every check.
pub(crate) fn print_columns(
    network: Network,
    reports: Reports,
    thresholds: &[u32],
    out: &mut [u8],
) -> Result<usize, Refusal>
    requires { AllPass (network_of network) reports.sets.now reports.edges.now reports.offsets.now thresholds.now }
    ensures { BytesPrinted (counts_table (network_of network.entry) reports.entry.sets.now (events reports.entry.edges.now reports.entry.offsets.now) thresholds.now) out.old result out.new }
{
    let mut observed = [0u32; Thresholds::MAX_THRESHOLDS];
    let mut lower = [0u32; Thresholds::MAX_THRESHOLDS];
    let mut upper = [0u32; Thresholds::MAX_THRESHOLDS];
    // Lists that pass every check are not refused.
    let columns = table(
        network,
        reports,
        thresholds,
        &mut observed,
        &mut lower,
        &mut upper,
    )?;
    let comparisons = match columns {
        Table::Observed => false,
        Table::Compared => true,
    };
    print_fronts(comparisons, thresholds, &observed, &lower, &upper, out)
}
