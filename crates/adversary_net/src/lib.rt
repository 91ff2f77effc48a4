//! A whole cluster with liars, which runs step by step on the same replicas as the running program.
//!
//! A [`World`] has the states of the correct replicas and the key pairs of the liars. [`World::run`] takes steps and
//! returns a reply to each. Its contract says that everything that happens is a run in the sense of `ledger_model`.
#![tactic(auto)]

mod correct;
mod creation;
mod fault;
mod lying;
mod party;
mod sent_index;
mod stepping;
mod world;

pub use creation::count_correct;
pub use fault::WorldFault;
pub use party::Party;
pub use world::World;
