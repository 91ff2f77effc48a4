//! The frames of locks, the check whether a lock is valid, and the table of the locks that a replica holds.
//!
//! A lock is valid if the owner of its phase made it and it has a proof: signed reports of its height and phase from a
//! quorum (N-t replicas), each of which finds its value (Dwork, Lynch and Stockmeyer 1988, Algorithm 2).
#![tactic(auto)]

mod checks;
mod fault;
pub mod laws;
mod lock_frame;
mod signatures;
mod table;

pub use checks::{is_quorate, is_supporting};
pub use fault::{LockFault, TableFull};
pub use lock_frame::{LockFrame, check_lock, check_lock_with};
pub use signatures::is_signed;
pub use table::LockTable;
