// The printed bytes: the table, and the line of a refusal.
#![tactic(auto)]

mod refusal;
mod table;
mod writing;

pub use refusal::print_refusal;
pub use table::print_table;
