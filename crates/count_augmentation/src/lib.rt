// Count augmentation: pair counts from stored numbers, looked up by binary search.
#![tactic(auto)]

mod events;
mod look_up;
mod pairs;
mod reach;
mod storing;
mod thresholds;

pub use events::augment;
pub use pairs::add_pairs;
pub use storing::store;
