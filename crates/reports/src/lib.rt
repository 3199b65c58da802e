//! What a driver reports to its owner: why connections ended, and how the streams ended that were asked for.
#![tactic(auto)]

mod report;
mod reports;

pub use report::{ConnEnd, Report, StreamEnd};
pub use reports::{MOST_REPORTS, Reports};
