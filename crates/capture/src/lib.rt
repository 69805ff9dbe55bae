//! What a sniffer reports of each line of a radio capture, and the tally of all lines.
#![tactic(auto)]

mod dissected;
mod report;
mod tally;

pub use dissected::Dissected;
pub use report::Report;
pub use tally::Tally;
