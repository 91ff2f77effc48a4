//! What a user writes for an application of his own, and what a program needs of its application.
//!
//! An application is a [`StateMachine`] behind ABCI's calls, over an [`AppState`]: a state whose bytes determine what it
//! answers, with five calls and a hash. A program runs any application that is [`Opening`]: it can be made in its opening
//! state, and says which words the program has for it.
#![tactic(auto)]

mod app_state;
mod opening;
mod state_machine;

pub use app_state::AppState;
pub use opening::{Opening, OwnApp, new_apps};
pub use state_machine::StateMachine;
