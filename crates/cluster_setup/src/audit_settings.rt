//! The settings of `abft audit`.
use crate::known_cluster::KnownCluster;
use ledger_model::{ReplicaId, Tx};

/// What a client holds for a transaction that a replica took: the replica, the index of the entry in that replica's history,
/// and the transaction.
#[derive(Drop)]
pub struct Receipt {
    pub replica: ReplicaId,
    pub index: u32,
    pub tx: Tx,
}

/// The settings of `abft audit`: the cluster whose histories are read, and the receipt to look for, if there is one.
#[derive(Drop)]
pub struct AuditSettings {
    pub cluster: KnownCluster,
    pub receipt: Option<Receipt>,
}
