//! Histories that are followed entry by entry, without their replicas' secret keys.
//!
//! A [`Follower`] is a replay (`replica_core::Replay`) of another replica's history. It takes the entries one by one, and returns for each
//! whether it continues the replay. Followers of several histories share one verifier ([`shared_verifier`]), so a signature that several
//! histories contain is hashed once.
#![tactic(auto)]

mod follower;
mod sharing;

pub use follower::Follower;
pub use sharing::shared_verifier;
