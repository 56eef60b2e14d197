// What the three kernels share: two edges by value, and the totals that they add to.
#![tactic(auto)]

mod edges;
mod totals;
mod ways;

pub use edges::{EdgePair, code_between};
pub use totals::change_from;
pub use ways::{FAR, greatest_distance, shortest_route, to_end, way};
