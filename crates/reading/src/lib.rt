// What the readers of the three texts share: a text's length and header, and the answer lists.
#![tactic(auto)]

mod answer_list;
mod header;
mod length;

pub use answer_list::{answer, answer_three};
pub use header::read_header;
pub use length::{MAX_BYTES, check_length};
