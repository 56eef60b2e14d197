// The table from lent lists.
ghost use Rattle.model.specs.Network.{network_of};
ghost use Rattle.table.specs.Table.{TableAnswered};

use crate::answers::Table;
use crate::checks::check_table;
use crate::columns::fill_columns;
use counting::{Method, counts};
use model::{EventSet, Network, Refusal, Reports, Thresholds};

// A count of every set at every threshold.
const COUNTS: usize = (EventSet::MAX_SET as usize + 1) * Thresholds::MAX_THRESHOLDS;

// The table with room for the counts of every set at every threshold lent. What the checks accept, the counts are given for.
fn table_with(
    network: Network,
    reports: Reports,
    thresholds: &[u32],
    rows: &mut [u32; COUNTS],
    observed: &mut [u32],
    lower: &mut [u32],
    upper: &mut [u32],
) -> Result<Table, Refusal>
    ensures { TableAnswered (network_of network.entry) reports.entry.sets.now reports.entry.edges.now reports.entry.offsets.now thresholds.now observed.old lower.old upper.old result observed.new lower.new upper.new }
{
    check_table(network, reports, thresholds, observed, lower, upper)?;
    let _ = counts(Method::Cheapest, network, reports, thresholds, rows);
    let greatest = validate::greatest_set(reports.sets) as usize;
    Ok(fill_columns(rows, thresholds.len(), greatest, observed, lower, upper))
}

// Observed counts, least and greatest at every threshold. Without comparison sets the last two lists are left as they were.
pub fn table(
    network: Network,
    reports: Reports,
    thresholds: &[u32],
    observed: &mut [u32],
    lower: &mut [u32],
    upper: &mut [u32],
) -> Result<Table, Refusal>
    ensures { TableAnswered (network_of network.entry) reports.entry.sets.now reports.entry.edges.now reports.entry.offsets.now thresholds.now observed.old lower.old upper.old result observed.new lower.new upper.new }
{
    let mut rows = [0u32; COUNTS];
    table_with(
        network, reports, thresholds, &mut rows, observed, lower, upper,
    )
}
