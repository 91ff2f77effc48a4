//! The proper values of a replica at one height: the values that it may report.
//!
//! A [`Proper`] starts with only the replica's own initial value, and absorbs the reports of one phase at a time
//! (Dwork, Lynch and Stockmeyer 1988, Algorithm 2).
#![tactic(auto)]

mod ascending;
pub mod laws;
mod proper;
mod reported;

pub use proper::Proper;
