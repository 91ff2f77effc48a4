//! Replicas that threads share, the turns in which they change, and what a turn consists of.
//!
//! A `LockedReplica` is a replica's state behind a lock. The thread that has locked it changes it by a [`turn`]: a
//! list of events, taken in order, after which the replica's committed height is published on the board. What the lock
//! protects always satisfies the type's invariant: the history is a replay, whatever other threads did. A turn itself
//! neither waits nor takes a lock.
//!
//! The decisions of a replica's worker are here too: what the replica does by itself next, and which heights it gives up
//! ([`own_of`]); which frames arrive one round early ([`early_of`]); which of their signatures are worth a check before
//! they are delivered ([`keep_checked`], [`unknown_parts`], [`unknown_reports`], [`deliveries_of`]); and which frames an
//! entry of the history sent ([`sent_at`]). [`new_replica`] makes the replicas of a cluster.
#![tactic(auto)]

mod arrivals;
mod client_turns;
mod deliveries;
mod early;
mod own_events;
mod replica;
mod sent;
mod status;
mod turns;
mod waiting;

pub use arrivals::{arrived_frames, keep_checked, unknown_parts, unknown_reports};
pub use client_turns::{ClientEntries, query, submit};
pub use deliveries::deliveries_of;
pub use early::early_of;
pub use own_events::{OwnEvents, own_of};
pub use replica::new_replica;
pub use sent::sent_at;
pub use status::ReplicaStatus;
pub use turns::turn;
pub use waiting::WaitingFrames;
