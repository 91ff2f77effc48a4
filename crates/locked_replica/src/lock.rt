//! A replica behind a lock, which threads share.
use crate::state::State;
use std::sync::Mutex;

/// A replica that threads share. Locking it waits until no other thread has it locked.
pub type LockedReplica<A> = Mutex<State<A>>;
