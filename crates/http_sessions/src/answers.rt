//! Answers by what a replica answered.
ghost use Rattle.std.specs.Prelude.{◌≡◌, Ok, Err, IfOk};
ghost use Rattle.http_messages.specs.Answers.{answer_view};
ghost use Rattle.http_messages.specs.Replies.{http_reply_bytes};
ghost use Rattle.http_sessions.specs.Answering.{status_answer, info_answer, pool_answer, fault_answer, sync_answer, unpooled_answer, delivery_answer, query_answer, query_answer_at, block_answer};

use crate::targets::{AppInfo, Delivery, PoolSize, Progress};
use http_messages::{
    Answer, Commitment, Receipt, RequestFault, ServiceFault, Submission, put_reply,
};
use ledger_model::{ApplyFault, Batch, Height, QueryAnswer, ReplicaId, SubmitRefusal};
use std::alloc::{AllocError, Global};

/// The whole reply to an answer.
pub(crate) fn reply_to(alloc: Global, answer: &Answer<'_>) -> Result<Vec<u8>, AllocError>
    ensures { IfOk result (λ reply. reply.items ≡ http_reply_bytes (answer_view answer.now)) }
{
    let mut reply = Vec::new(alloc);
    put_reply(&mut reply, answer)?;
    Ok(reply)
}

/// How far a replica is.
pub(crate) fn status_answer(replica: ReplicaId, progress: Option<Progress>) -> Answer<'static>
    ensures { answer_view result ≡ status_answer replica progress }
{
    match progress {
        Some(progress) => Answer::Status {
            replica,
            round: progress.rounds,
            height: progress.height,
        },
        None => Answer::Unanswered(ServiceFault::Stranger),
    }
}

/// What a replica's application says of itself.
pub(crate) fn info_answer<'a>(info: &'a Option<AppInfo>) -> Answer<'a>
    ensures { answer_view result ≡ info_answer info.now }
{
    match info {
        Some(info) => Answer::AbciInfo {
            kind: info.kind,
            height: info.height,
            hash: &info.hash,
        },
        None => Answer::Unanswered(ServiceFault::Stranger),
    }
}

/// How many transactions wait in a replica's pool.
pub(crate) fn pool_answer(size: Option<PoolSize>) -> Answer<'static>
    ensures { answer_view result ≡ pool_answer size }
{
    match size {
        Some(size) => Answer::UnconfirmedTxs {
            count: size.transactions,
            bytes: size.bytes,
        },
        None => Answer::Unanswered(ServiceFault::Stranger),
    }
}

/// That a replica took no event.
pub(crate) fn fault_answer(fault: ApplyFault) -> Answer<'static>
    ensures { answer_view result ≡ fault_answer fault }
{
    match fault {
        ApplyFault::HistoryFull => Answer::Unanswered(ServiceFault::HistoryFull),
        ApplyFault::NoMemory => Answer::Fault(RequestFault::NoMemory),
    }
}

/// What the pool did with a transaction.
pub(crate) fn sync_answer<'a>(
    replica: ReplicaId,
    tx: &'a [u8],
    submitted: Result<Result<u32, SubmitRefusal>, ApplyFault>,
) -> Answer<'a>
    ensures { answer_view result ≡ sync_answer replica tx.now submitted }
{
    match submitted {
        Ok(Ok(index)) => Answer::BroadcastSync {
            tx,
            submission: Submission::Pooled(Receipt { replica, index }),
        },
        Ok(Err(refusal)) => Answer::BroadcastSync {
            tx,
            submission: Submission::Refused(refusal),
        },
        Err(fault) => fault_answer(fault),
    }
}

/// What became of a transaction that the pool took as the entry with this index.
pub(crate) fn delivery_answer<'a>(
    replica: ReplicaId,
    tx: &'a [u8],
    index: u32,
    delivery: Option<Delivery>,
) -> Answer<'a>
    ensures { answer_view result ≡ delivery_answer replica tx.now index delivery }
{
    let Some(delivery) = delivery else {
        return Answer::Unanswered(ServiceFault::Stranger);
    };
    match delivery {
        Delivery::Committed { height, code } => Answer::BroadcastCommit {
            tx,
            commitment: Commitment::Committed {
                receipt: Receipt { replica, index },
                height,
                code,
            },
        },
        Delivery::TimedOut => Answer::Unanswered(ServiceFault::TimedOut),
        Delivery::Stopping => Answer::Unanswered(ServiceFault::Stopping),
    }
}

/// What the application has under a key.
fn found_answer<'a>(key: &'a [u8], found: &'a QueryAnswer) -> Answer<'a>
    ensures { answer_view result ≡ query_answer key.now (Ok found.now) }
{
    match &found.value {
        Some(value) => Answer::AbciQuery {
            key,
            value: Some(value.as_slice()),
            height: found.height,
        },
        None => Answer::AbciQuery {
            key,
            value: None,
            height: found.height,
        },
    }
}

/// What the application has under a key, as of its last block.
pub(crate) fn query_answer<'a>(
    key: &'a [u8],
    found: &'a Result<QueryAnswer, ApplyFault>,
) -> Answer<'a>
    ensures { answer_view result ≡ query_answer key.now found.now }
{
    match found {
        Ok(found) => found_answer(key, found),
        Err(fault) => fault_answer(*fault),
    }
}

/// The same, if its last block is at this height.
pub(crate) fn query_answer_at<'a>(
    height: Height,
    key: &'a [u8],
    found: &'a Result<QueryAnswer, ApplyFault>,
) -> Answer<'a>
    ensures { answer_view result ≡ query_answer_at height key.now found.now }
{
    match found {
        Ok(found) if found.height.number() == height.number() => found_answer(key, found),
        Ok(_) => Answer::Unanswered(ServiceFault::NotLastHeight),
        Err(fault) => fault_answer(*fault),
    }
}

/// The block at a height.
pub(crate) fn block_answer<'a>(
    height: Height,
    found: &'a Result<Option<Batch>, ApplyFault>,
) -> Answer<'a>
    ensures { answer_view result ≡ block_answer height found.now }
{
    match found {
        Ok(Some(batch)) => Answer::Block { height, batch },
        Ok(None) => Answer::Unanswered(ServiceFault::NotCommitted),
        Err(fault) => fault_answer(*fault),
    }
}
