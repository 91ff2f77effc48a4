//! What the owner of a phase locks, and when it decides (Dwork, Lynch and Stockmeyer 1988, Algorithm 2).
#![tactic(auto)]

mod choice;
mod decision;
pub mod laws;

pub use choice::{choose, chosen_value};
pub use decision::{decides, is_acknowledged};
