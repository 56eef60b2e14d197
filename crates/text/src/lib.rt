// Lines, numbers and fields of the texts.
#![tactic(auto)]

mod fields;
mod lines;
mod network_line;
mod number;
mod search;

pub use fields::{Numbers, begins_with, numbers_of, same_bytes};
pub use lines::{Line, csv_line, feed_line};
pub use network_line::{NetworkLine, network_line_of};
pub use number::{MAX_DIGITS, MAX_NUMBER, number_of};
