// The sets one after the other, each laid out.
ghost use Rattle.std.specs.Prelude.{◌≤◌, length, ◌≡◌};
ghost use Rattle.model.specs.Events.{set_size};
ghost use Rattle.prepare.specs.Laying.{Gathered, SetFits, SetLaid, SetsFit, SetsLaid};
ghost use Rattle.prepare.specs.Prepared.{start_of, KeptFrom};

use model::Reports;

// Copies what stands beside a set's number to the front of a list, in order, and gives how much that is.
fn gather(sets: &[u32], values: &[u32], set: u32, out: &mut [u32]) -> usize
    requires { (length sets.now ≡ length values.now) × (set_size sets.now set ≤ length out.old) }
    ensures gathered { Gathered sets.now values.now set result out.new }
    ensures kept_from { KeptFrom result out.old out.new }
{
    let mut n = 0;
    for (k, s) in sets.iter().enumerate() {
        if *s == set {
            out[n] = values[k];
            n += 1;
        }
    }
    n
}

// Lays a set out at the front of two lists, and gives how many events it has.
fn lay_set(reports: Reports, set: u32, laid_edges: &mut [u32], laid_offsets: &mut [u32]) -> usize
    requires { SetFits reports.sets.now reports.edges.now reports.offsets.now set laid_edges.old laid_offsets.old }
    ensures set_laid { SetLaid reports.entry.sets.now reports.entry.edges.now reports.entry.offsets.now set result laid_edges.new laid_offsets.new }
    ensures kept_from { KeptFrom result laid_edges.old laid_edges.new × KeptFrom result laid_offsets.old laid_offsets.new }
{
    gather(reports.sets, reports.edges, set, laid_edges);
    let n = gather(reports.sets, reports.offsets, set, laid_offsets);
    let _ = layout::lay_out(&mut laid_edges[..n], &mut laid_offsets[..n]);
    n
}

// Lays so many sets out, one after the other, and notes where each begins and the last ends.
pub(crate) fn lay_sets(
    reports: Reports,
    count: usize,
    laid_edges: &mut [u32],
    laid_offsets: &mut [u32],
    starts: &mut [u32],
)
    requires { SetsFit reports.sets.now reports.edges.now reports.offsets.now count laid_edges.old laid_offsets.old starts.old }
    ensures sets_laid { SetsLaid reports.entry.sets.now reports.entry.edges.now reports.entry.offsets.now count laid_edges.new laid_offsets.new starts.new }
    ensures kept_from { KeptFrom (start_of reports.entry.sets.now count) laid_edges.old laid_edges.new × KeptFrom (start_of reports.entry.sets.now count) laid_offsets.old laid_offsets.new }
{
    starts[0] = 0;
    let mut start = 0;
    for s in 0..count {
        start += lay_set(
            reports,
            s as u32,
            &mut laid_edges[start..],
            &mut laid_offsets[start..],
        );
        starts[s + 1] = start as u32;
    }
}
