//! Agreement at one height, as one replica sees it: what it reads, what it makes as each round opens, and what it
//! decides (Dwork, Lynch and Stockmeyer 1988, Algorithm 2).
//!
//! The contracts speak of the log of the replica at the height. An [`Instance`] matches a log if its state is what the
//! log says. On every log that the instance matches, each call does what the definitions say, and afterwards the
//! instance matches the log with the notes of that call.
#![tactic(auto)]

mod allowing;
mod closing;
mod height;
mod making;
mod reading;
mod round_plan;
mod round_statement;

pub use height::Instance;
pub use round_plan::{RoundEffects, RoundPlan};
pub use round_statement::{OwnFrame, RoundStatement};
