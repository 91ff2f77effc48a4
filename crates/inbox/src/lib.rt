//! An inbox: frames from several sending threads to one receiving thread, through a queue of 1024 places without a lock.
//!
//! [`Inbox::new`] returns the inbox, its one taking pass and its putting passes. Each thread that puts has a pass of
//! its own. [`Inbox::put`] appends an item to what that pass put, and [`Inbox::take`] appends the item that it returns
//! to what was taken. [`Inbox::hand_back`] hands a putting pass back to the taking pass.
//!
//! Proved for every schedule of the threads: the items that a pass put, in order, are those that were taken followed by
//! those in the inbox, and the inbox has at most 1024 items (`IsInbox`). So each item is taken at most once, in the
//! order of its pass. `take` returns `None` only if everything was taken of each pass that was handed back.
//!
//! Only tested: `put` returns the item only if the inbox is full, and `take` returns `None` only if it is empty. No clause can
//! say so: see [`full_or_empty`].
//!
//! Not promised: an order between passes, fairness, and progress of a call. `put` and `take` may wait for a thread that
//! is within such a call, and after 2^62 puts they wait forever.
#![tactic(auto)]

pub mod full_or_empty;
mod item;
mod log;
mod passes;
mod queue;

pub use item::Item;
pub use passes::{PuttingPass, TakingPass};
pub use queue::Inbox;
