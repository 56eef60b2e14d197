// The table of observed, least and greatest counts.
#![tactic(auto)]

mod answers;
mod checks;
mod columns;
mod sets;
mod spans;

pub use answers::Table;
pub use sets::table;
