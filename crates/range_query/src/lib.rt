// The kernel of the range query: each pair is counted at the first threshold that admits its own distance, or its distance is compared
// with the one threshold that is asked for.
#![tactic(auto)]

mod lookup;
mod own;
mod pairs;
mod spreading;
mod within;

pub use lookup::{LADDER, WIDEST_AT, first_admitting};
pub use pairs::add_pairs;
pub use spreading::spread;
pub use within::count_within;
