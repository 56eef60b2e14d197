// Laying out a set: its events sorted by edge and then by offset; and the events on one edge.
#![tactic(auto)]

mod keys;
mod laying_out;
mod stretch;

pub use laying_out::lay_out;
pub use stretch::events_on;
