// The types that carry the limits, and the refusal. What a reader must believe stands in specs/.
#![tactic(auto)]

mod code;
mod event_set;
mod list;
mod network;
mod number;
mod refusal;
mod reports;
mod thresholds;

pub use code::lesser_code;
pub use event_set::EventSet;
pub use list::{equals_end, value_at};
pub use network::{Network, NetworkSize};
pub use number::{covered, is_between};
pub use refusal::{Fault, Refusal};
pub use reports::Reports;
pub use thresholds::Thresholds;
