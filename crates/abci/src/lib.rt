//! Applications of the ledger: the calls of ABCI 0.17.0 that an engine makes, with a meaning for each.
//!
//! An [`Application`] is a state machine. Between blocks it has a committed state and a height; within a block it also
//! has a working state. Code that runs blocks or checks transactions is generic over the application. If the kind is
//! chosen at run time, the type parameter is an enum of applications, which forwards each call.
#![tactic(auto)]

mod application;
mod info;

pub use application::Application;
pub use info::{CheckKind, Info, QueryFault};
