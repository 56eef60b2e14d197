// Distances of two nodes or two locations, read from rows of distances. A distance is given as its metres, or as none where there is no
// walk or it is beyond the bound.
#![tactic(auto)]

mod locations;
mod metres;
mod nodes;

pub use locations::location_distance;
pub use nodes::{bounded_node_distance, node_distance};
