// All sets laid out and cut into runs.
ghost use Rattle.prepare.specs.Laying.{Layable, RunsLaid};
ghost use Rattle.prepare.specs.Prepared.{LaidKept};

use crate::SET_RUNS;
use crate::runs::cut_sets;
use crate::sets::lay_sets;
use model::Reports;

pub(crate) fn lay_runs(
    reports: Reports,
    laid_edges: &mut [u32],
    laid_offsets: &mut [u32],
    bounds: &mut [u32],
    set_runs: &mut [u32],
)
    requires { Layable reports.sets.now reports.edges.now reports.offsets.now laid_edges.old laid_offsets.old bounds.old set_runs.old }
    ensures runs_laid { RunsLaid reports.entry.sets.now reports.entry.edges.now reports.entry.offsets.now laid_edges.new laid_offsets.new bounds.new set_runs.new }
    ensures laid_kept { LaidKept reports.entry.sets.now reports.entry.edges.now laid_edges.old laid_offsets.old bounds.old set_runs.old laid_edges.new laid_offsets.new bounds.new set_runs.new }
{
    let count = validate::greatest_set(reports.sets) as usize + 1;
    let mut starts = [0u32; SET_RUNS];
    lay_sets(reports, count, laid_edges, laid_offsets, &mut starts);
    cut_sets(&starts, count, laid_edges, bounds, set_runs);
}
