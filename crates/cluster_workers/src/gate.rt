//! What a worker calls before and after each turn, and where memory ran out.
use ledger_model::ReplicaId;
use replica_turns::ReplicaStatus;

/// Called before and after each turn of a replica, and where memory ran out, while the replica isn't locked.
pub trait TurnGate {
    /// A turn of this replica is about to start.
    fn before(&self, replica: ReplicaId);

    /// The turn has ended, and the replica has this status.
    fn after(&self, replica: ReplicaId, status: ReplicaStatus);

    /// Memory ran out in a pass of this replica's worker, which lost an event or frames. The worker goes on.
    fn lack(&self, replica: ReplicaId);
}

/// A gate that does nothing.
#[derive(Drop)]
pub struct NoGate;

impl TurnGate for NoGate {
    fn before(&self, _replica: ReplicaId) {}

    fn after(&self, _replica: ReplicaId, _status: ReplicaStatus) {}

    fn lack(&self, _replica: ReplicaId) {}
}
