//! The core of a replica, and the one step that changes it: one event, one lawful reply.
//!
//! A [`Replay`] is what a replica derives from its history: its floor and the open heights, the pool, the application and the blocks
//! committed to it, and the open round. It stores no history. `specs/Replays` defines when it matches a history. [`Replay::follow`] takes
//! an entry of a history, and returns whether its reply is lawful after the entries before it.
//!
//! A [`Core`] is a replay with the replica's keys: [`Core::step`] takes an event and makes the reply. It ensures that the replay then
//! matches the history with one more entry. A caller that keeps the frames of a round end ends it by two calls in place of one:
//! [`Core::prepare_end`] builds the reply, and [`Core::finish_end`] takes no memory.
#![tactic(auto)]

mod closings;
mod comparing;
mod delivering;
mod ending;
mod executing;
mod facts;
mod following;
mod judging;
mod prepared;
mod proposing;
mod querying;
mod replay;
mod replica;
mod retiring;
mod sending;
mod shown_frames;
mod signing;
mod submitting;
mod verifying;

pub use prepared::Prepared;
pub use replay::Replay;
pub use replica::Core;
