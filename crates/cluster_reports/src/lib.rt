//! What a running cluster reports to its operator.
//!
//! A cluster passes each replica's status after each turn, and its notices, to a [`ReportingGate`], which stores them in a
//! [`SharedStatus`]. [`start_reporter`] starts the thread that writes them to a [`Watcher`]: on a terminal one line that is written over and
//! over, else a line for each notice. What the watcher gets is tested, not proved.
#![tactic(auto)]

mod cluster_status;
mod notice;
mod reporter;
mod reporting;

pub use notice::Notice;
pub use reporter::{Watcher, start_reporter};
pub use reporting::{ReportingGate, SharedStatus};
