// Demand 3 as one promise: the three methods and the cursors together.
#![tactic(auto)]

mod claim;
mod verdict;

pub use claim::pair_counts;
