//! A session's answer to a request.
use ledger_model::{ApplyFault, Batch, Height, QueryAnswer, ReplicaId, SubmitRefusal};

/// The answer to a request, with the data for its reply.
#[derive(Drop)]
pub(crate) enum Answer {
    /// The session talks to the replica that the request names.
    Switched,
    /// The receipt of a transaction that is in the replica's pool: the replica, and the index of the submit's entry in its history.
    Receipt(ReplicaId, u32),
    /// The application's answer to a query.
    Value(QueryAnswer),
    /// The application has a value, but it has more than 65,529 bytes, so it fits into no reply.
    TooLong,
    /// The committed height.
    Height(Height),
    /// The batch of the block at this height.
    Block(Height, Batch),
    /// The body encodes no request.
    Malformed,
    /// The height that the replica returned is below one that this client has seen or asked for.
    Behind,
    /// The replica has not committed this block.
    NotHeld,
    /// The replica that the request names doesn't exist.
    NoReplica,
    /// The pool refused the transaction.
    Refused(SubmitRefusal),
    /// The replica took no event.
    Faulted(ApplyFault),
}
