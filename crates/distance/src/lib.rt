// Least distances: the one part that searches for them. Everything above cites its promises.
#![tactic(auto)]

mod arcs;
mod find;
mod front;
mod keys;
mod passes;
mod row;
mod search;
mod table;

pub use row::distances_from;
pub use table::end_distances;
