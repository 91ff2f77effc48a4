//! Runs blocks on an application, by ABCI's calls.
//!
//! [`run_block`] makes the calls of one block, and an [`Executor`] runs one block after another. Their contracts are in
//! terms of the blocks that led to the application's committed state.
#![tactic(auto)]

mod block;
mod executor;

pub use block::run_block;
pub use executor::Executor;
