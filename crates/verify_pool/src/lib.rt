//! Checks the signatures of many parts of frames in parallel, by threads that end before the call returns.
//!
//! Nearly all that a frame costs is the check of its signatures. A worker that has taken several frames from its inbox checks
//! them together by [`verify_all`], before it locks its replica.
#![tactic(auto)]

mod gate;
mod pool;

pub use gate::{Gate, NoGate};
pub use pool::verify_all;
