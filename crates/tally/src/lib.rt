//! Tallies: what was read in a round, with one place for each replica, whose first statement counts.
#![tactic(auto)]

mod masks;
mod phase_reports;
mod places;
mod report_counts;
mod reported_value;

pub use masks::without;
pub use phase_reports::PhaseReports;
pub use places::Tally;
pub use reported_value::{ReportedValue, ValueMasks};
