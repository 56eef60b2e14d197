// What the loops over runs read.
ghost use Rattle.model.specs.Network.{network_of};
ghost use Rattle.counting.specs.Runs.{AllRuns};

use model::Network;

// A network with the table of its leg-end distances, the events laid out and where their runs begin, the stored numbers of so many runs,
// and the thresholds with their ladder. The fact stands inside ∥ .. ∥₁, because it holds a bound on the distances, which is not determined.
#[derive(Clone, Copy)]
pub struct Prepared<'a> {
    pub network: Network<'a>,
    pub table: &'a [u32],
    pub edges: &'a [u32],
    pub offsets: &'a [u32],
    pub bounds: &'a [u32],
    pub near_first: &'a [u32],
    pub near_second: &'a [u32],
    pub thresholds: &'a [u32],
    pub ladder: &'a [u32],
    pub runs: usize,
    pub ghost ready: { ∥ AllRuns (network_of network) table.now edges.now offsets.now bounds.now near_first.now near_second.now thresholds.now ladder.now runs ∥₁ },
}
