//! What is answered to a question.
use crate::RequestFault;
use crate::metrics::ReplicaMetrics;
use ledger_model::{AppKind, Batch, Height, ReplicaId, SubmitRefusal};

/// Where a transaction is kept: a replica, and the index of the submit's entry in its history.
#[derive(Clone, Copy, Debug)]
pub struct Receipt {
    pub replica: ReplicaId,
    pub index: u32,
}

/// What the pool did with a transaction.
#[derive(Clone, Copy, Debug)]
pub enum Submission {
    Pooled(Receipt),
    Refused(SubmitRefusal),
}

/// What became of a transaction that was to be in a block.
#[derive(Clone, Copy, Debug)]
pub enum Commitment {
    /// The block at this height has the transaction, and the application returned this code for it.
    Committed {
        receipt: Receipt,
        height: Height,
        code: u32,
    },
    Refused(SubmitRefusal),
}

/// Why a question that was understood has no answer.
#[derive(Clone, Copy, Debug)]
pub enum ServiceFault {
    /// The cluster has no replica of the number that the request names.
    NoReplica,
    /// The replica has not committed the height that the request names.
    NotCommitted,
    /// The application answers as of its last block, and the request names another height.
    NotLastHeight,
    /// The replica's history has no entries left for clients.
    HistoryFull,
    /// No block had the transaction in time. It may still be in a later one.
    TimedOut,
    /// The cluster was asked to stop.
    Stopping,
    /// The state that the replica's lock guards is another replica's.
    Stranger,
}

/// What is answered. Byte strings are written in base64 or as a hash, so they may have any bytes.
#[derive(Clone, Copy)]
pub enum Answer<'a> {
    /// The page for people.
    Page,
    /// Somebody answers.
    Health,
    /// How far a replica is: its open round and its last committed height.
    Status {
        replica: ReplicaId,
        round: u32,
        height: Height,
    },
    /// What an application says of itself: its kind, its last height, and the hash of its state then.
    AbciInfo {
        kind: AppKind,
        height: Height,
        hash: &'a [u8],
    },
    /// What an application has under a key after the block at a height.
    AbciQuery {
        key: &'a [u8],
        value: Option<&'a [u8]>,
        height: Height,
    },
    /// The block at a height.
    Block {
        height: Height,
        batch: &'a Batch,
    },
    /// How many transactions wait for a block, and how many bytes they have together.
    UnconfirmedTxs {
        count: u64,
        bytes: u64,
    },
    /// What the pool did with a transaction.
    BroadcastSync {
        tx: &'a [u8],
        submission: Submission,
    },
    /// What became of a transaction.
    BroadcastCommit {
        tx: &'a [u8],
        commitment: Commitment,
    },
    /// The metrics of replicas, in this order.
    Metrics(&'a [ReplicaMetrics]),
    /// The head asks nothing that is answered.
    Fault(RequestFault),
    /// The question has no answer.
    Unanswered(ServiceFault),
}
