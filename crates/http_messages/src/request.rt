//! What a request asks, and of which replica.
use ledger_model::{Height, ReplicaId};

/// A question. A height is as it was written: whether the replica has committed it, the replica answers.
#[derive(Debug, Drop)]
pub enum Question {
    /// `/`: the page for people.
    Page,
    /// `/health`: whether anybody answers.
    Health,
    /// `/status`: how far the replica is.
    Status,
    /// `/abci_info`: what the application says of itself.
    AbciInfo,
    /// `/abci_query`: what the application has under a key, at this height, or as of its last block.
    AbciQuery {
        key: Vec<u8>,
        height: Option<Height>,
    },
    /// `/block`: the block at this height, or the last one.
    Block {
        height: Option<Height>,
    },
    /// `/num_unconfirmed_txs`: how many transactions wait for a block.
    UnconfirmedTxs,
    /// `/broadcast_tx_sync`: a transaction for the pool.
    BroadcastSync {
        tx: Vec<u8>,
    },
    /// `/broadcast_tx_commit`: a transaction for the pool, to be answered when a block has it.
    BroadcastCommit {
        tx: Vec<u8>,
    },
    /// `/metrics`: numbers for Prometheus.
    Metrics,
}

/// A question, and the replica that the request names.
#[derive(Debug, Drop)]
pub struct Request {
    pub question: Question,
    pub replica: Option<ReplicaId>,
}
