//! The workers of a running cluster: a thread for each replica, which delivers the replica's frames and ends its rounds.
//!
//! A [`Worker`] takes frames from its replica's inbox, opens the height after the committed one once all replicas
//! committed that, or after a while, runs the decided blocks, gives up the heights that all replicas committed, as it reads on the commit board, and ends the rounds that
//! are due. It changes the replica only by turns, each under the replica's lock, so the invariant behind the lock holds
//! whatever the threads do: each history is a replay. The frames that a round end sends go into the inboxes of their
//! addressees; a full inbox loses the frame, which is counted ([`RunningCluster::lost`]).
//!
//! [`RunningCluster::new`] makes a worker for each replica, and what the workers share. [`run_all`] runs each in a
//! thread of its own until its rounds are over, or a [`Stop`] asks it to end. The workers are generic over a
//! [`RoundClock`], which decides when rounds end, and over a [`TurnGate`], which is called before and after each turn
//! and gets the replica's status. A worker with nothing to do sleeps until a frame arrives or its round is due.
//!
//! A worker whose replica's history is full drops the waiting frames, takes no more, and only counts its rounds.
//!
//! Proved: each turn, and each decision that a worker asks for (`replica_turns`, `TurnTaker`). Only tested: that a
//! worker's loop follows those decisions, that the workers run concurrently, that the cluster commits, and the count of
//! lost frames. Not promised: progress and time.
#![tactic(auto)]

mod bell;
mod gate;
mod inboxes;
mod losses;
mod round_clock;
mod running;
mod running_cluster;
mod same_cluster;
mod sending;
mod stop;
mod turn_taker;
mod work_plan;
mod worker;

pub use bell::Bell;
pub use gate::{NoGate, TurnGate};
pub use round_clock::{MachineClock, Pace, Progress, RoundClock};
pub use running::{EndedRun, run_all};
pub use running_cluster::RunningCluster;
pub use stop::Stop;
pub use work_plan::WorkPlan;
pub use worker::Worker;
