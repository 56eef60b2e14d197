// Cursors: one that is moved on and never searched anew, and the sweep of the six of two edges.
#![tactic(auto)]

mod asked;
mod cursor;
mod sweeping;
mod two_edges;

pub use cursor::{Cursor, advance, below, route, up_to};
pub use two_edges::cursors;
