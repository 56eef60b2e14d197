// The pair counts of every set at every threshold, by a method that is asked for.
#![tactic(auto)]

mod choice;
mod kernels;
mod method;
mod prepared;
mod rows;
mod runs;
mod sets;
mod stored;
mod two_edges;

pub use method::Method;
pub use sets::counts;
