//! Plays a scenario on a whole cluster, and prints what happens.
//!
//! A [`Simulation`] is a world whose liars tell the lies of a scenario's commands. [`Simulation::play`] takes one command and
//! returns its lines. Its contract says that what happens is what the command means, and that the lines describe what happened.
#![tactic(auto)]

mod playing;
mod proving;
mod report_index;
mod report_list;
mod rounds;
mod said;
mod serving_reports;
mod signing;
mod simulation;
mod stepping;
mod telling;

pub use simulation::Simulation;
