//! Scenarios as texts: line by line a cluster, its keys and its liars, and the commands of a run.
#![tactic(auto)]

mod batch;
mod command;
mod command_reading;
mod fault;
mod fields;
mod keyword;
mod line_count;
mod line_reading;
mod reading;
mod scenario;
mod setup_reading;

pub use command::{Command, Lie, Towards};
pub use fault::TextFault;
pub use line_count::LineCount;
pub use reading::read;
pub use scenario::{Scenario, Setup};
