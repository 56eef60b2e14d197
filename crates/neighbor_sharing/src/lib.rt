// Neighbour sharing: pair counts by cursors that are moved and never searched anew.
#![tactic(auto)]

mod joining;
mod moving;
mod pairs;

pub use pairs::add_pairs;
