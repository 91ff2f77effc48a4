//! The transactions that wait for a block.
//!
//! A [`Pool`] has them in order of arrival, each once and at most 1024, and finds one by its bytes. Contracts see the
//! list of the transactions.
#![tactic(auto)]

mod fault;
mod pool;

pub use fault::SubmitFault;
pub use pool::Pool;
