//! Changes replies in one place.
use crate::ending_changes::changed_end;
use bytes::Bytes;
use ledger_model::{
    Batch, BlockResult, Codes, Height, Ignored, LastRound, NotHeld, NothingDecided, ProposeRefusal,
    QueryAnswer, Reply, RetireRefusal, RoundEnded, SubmitRefusal,
};
use std::alloc::{AllocError, Global};

/// Where a reply is changed.
#[derive(Clone, Copy)]
pub(crate) enum Change {
    /// Whether it is a refusal: a refusal replaces a result, or a result replaces a refusal.
    Outcome,
    /// The cause, or the code of the first transaction.
    Cause,
    /// The height, or the addressee of the first frame.
    Number,
    /// The byte at this index of the first frame; or the hash, the value or the batch.
    Byte(usize),
    /// One frame or one code fewer.
    Fewer,
    /// One frame or one code more.
    More,
}

/// A batch without transactions.
fn no_transactions(alloc: Global) -> Batch {
    match Batch::new(Vec::new(alloc)) {
        Ok(batch) => batch,
        Err(_) => unreachable!(),
    }
}

fn changed_submit(told: Result<(), SubmitRefusal>, change: Change) -> Option<Reply> {
    let other = match (change, told) {
        (Change::Outcome, Ok(())) => Err(SubmitRefusal::Duplicate),
        (Change::Outcome, Err(_)) => Ok(()),
        (Change::Cause, Err(SubmitRefusal::Rejected(code))) => {
            Err(SubmitRefusal::Rejected(code ^ 1))
        }
        (Change::Cause, Err(SubmitRefusal::Full)) => Err(SubmitRefusal::Empty),
        (Change::Cause, Err(_)) => Err(SubmitRefusal::Full),
        _ => return None,
    };
    Some(Reply::Submitted(other))
}

fn changed_deliver(told: Result<(), Ignored>, change: Change) -> Option<Reply> {
    let other = match (change, told) {
        (Change::Outcome, Ok(())) => Err(Ignored::Repeated),
        (Change::Outcome, Err(_)) => Ok(()),
        (Change::Cause, Err(Ignored::NotMine)) => Err(Ignored::Repeated),
        (Change::Cause, Err(_)) => Err(Ignored::NotMine),
        _ => return None,
    };
    Some(Reply::Delivered(other))
}

fn changed_propose(
    alloc: Global,
    told: &Result<Batch, ProposeRefusal>,
    change: Change,
) -> Option<Reply> {
    let other = match (change, told) {
        (Change::Outcome, Ok(_)) => Err(ProposeRefusal::AlreadyOpen),
        (Change::Outcome, Err(_)) => Ok(no_transactions(alloc)),
        (Change::Cause, Err(ProposeRefusal::Closed)) => Err(ProposeRefusal::TooFar),
        (Change::Cause, Err(_)) => Err(ProposeRefusal::Closed),
        // The batch without transactions replaces one that has some.
        (Change::Byte(0), Ok(batch)) if !batch.transactions().is_empty() => {
            Ok(no_transactions(alloc))
        }
        _ => return None,
    };
    Some(Reply::Proposed(other))
}

/// Other codes: one more, one fewer, or the first changed.
fn changed_codes(
    alloc: Global,
    codes: &[u32],
    change: Change,
) -> Result<Option<Codes>, AllocError> {
    let mut others = match (change, codes) {
        (Change::More, _) | (Change::Cause, [_, ..]) => codes.to_vec(alloc)?,
        (Change::Fewer, [others @ .., _]) => others.to_vec(alloc)?,
        _ => return Ok(None),
    };
    match change {
        Change::More => others.push(0)?,
        Change::Cause => others[0] ^= 1,
        _ => {}
    }
    Ok(Some(Codes::new(others)))
}

/// The hash with the byte at this index changed.
fn changed_hash(hash: &[u8; 32], at: usize) -> [u8; 32] {
    let mut other = *hash;
    other[at % 32] ^= 1;
    other
}

/// The block with its codes changed.
fn with_changed_codes(
    alloc: Global,
    block: &BlockResult,
    change: Change,
) -> Result<Option<Reply>, AllocError> {
    match changed_codes(alloc, block.codes.as_slice(), change)? {
        Some(codes) => Ok(Some(Reply::Executed(Ok(BlockResult {
            height: block.height,
            codes,
            hash: block.hash,
        })))),
        None => Ok(None),
    }
}

fn changed_block(
    alloc: Global,
    block: &BlockResult,
    change: Change,
) -> Result<Option<Reply>, AllocError> {
    let height = block.height.number();
    let (height, hash) = match change {
        Change::Number => (height ^ 1, block.hash),
        Change::Byte(at) => (height, changed_hash(&block.hash, at)),
        _ => return with_changed_codes(alloc, block, change),
    };
    let mut other = block.copy()?;
    other.height = Height::new(height);
    other.hash = hash;
    Ok(Some(Reply::Executed(Ok(other))))
}

fn changed_execute(
    alloc: Global,
    told: &Result<BlockResult, NothingDecided>,
    change: Change,
) -> Result<Option<Reply>, AllocError> {
    match (change, told) {
        (Change::Outcome, Ok(_)) => Ok(Some(Reply::Executed(Err(NothingDecided)))),
        (Change::Outcome, Err(_)) => Ok(Some(Reply::Executed(Ok(BlockResult {
            height: Height::new(1),
            codes: Codes::new(Vec::new(alloc)),
            hash: [0; 32],
        })))),
        (_, Ok(block)) => changed_block(alloc, block, change),
        _ => Ok(None),
    }
}

/// The value with another first byte; no value instead of an empty one, and an empty value instead of none.
fn changed_value(alloc: Global, value: &Option<Bytes>) -> Result<Option<Bytes>, AllocError> {
    let Some(bytes) = value else {
        return Ok(Some(Bytes::from_static(b"")));
    };
    let mut other = bytes.to_vec(alloc)?;
    let Some(first) = other.first_mut() else {
        return Ok(None);
    };
    *first ^= 1;
    Ok(Some(Bytes::from_vec(other)?))
}

fn changed_answer(
    alloc: Global,
    answer: &QueryAnswer,
    change: Change,
) -> Result<Option<Reply>, AllocError> {
    let other = match change {
        Change::Number => {
            let mut other = answer.copy()?;
            other.height = Height::new(answer.height.number() ^ 1);
            other
        }
        Change::Byte(0) => QueryAnswer {
            height: answer.height,
            value: changed_value(alloc, &answer.value)?,
        },
        _ => return Ok(None),
    };
    Ok(Some(Reply::Queried(Ok(other))))
}

fn changed_query(
    alloc: Global,
    told: &Result<QueryAnswer, NotHeld>,
    change: Change,
) -> Result<Option<Reply>, AllocError> {
    match (change, told) {
        (Change::Outcome, Ok(_)) => Ok(Some(Reply::Queried(Err(NotHeld)))),
        (Change::Outcome, Err(_)) => Ok(Some(Reply::Queried(Ok(QueryAnswer {
            height: Height::new(0),
            value: None,
        })))),
        (_, Ok(answer)) => changed_answer(alloc, answer, change),
        _ => Ok(None),
    }
}

fn changed_retire(told: Result<Height, RetireRefusal>, change: Change) -> Option<Reply> {
    match (change, told) {
        (Change::Outcome, Ok(_)) => Some(Reply::Retired(Err(RetireRefusal::NotAbove))),
        (Change::Outcome, Err(_)) => Some(Reply::Retired(Ok(Height::new(2)))),
        (Change::Number, Ok(floor)) => { Some(Reply::Retired(Ok(Height::new(floor.number() ^ 1)))) }
        (Change::Cause, Err(RetireRefusal::NotAbove)) => {
            Some(Reply::Retired(Err(RetireRefusal::NotCommitted)))
        }
        (Change::Cause, Err(RetireRefusal::NotCommitted)) => {
            Some(Reply::Retired(Err(RetireRefusal::NotAbove)))
        }
        _ => None,
    }
}

fn changed_round_end(
    alloc: Global,
    told: &Result<RoundEnded, LastRound>,
    change: Change,
) -> Result<Option<Reply>, AllocError> {
    match (change, told) {
        (Change::Outcome, Ok(_)) => Ok(Some(Reply::RoundEnded(Err(LastRound)))),
        (_, Ok(end)) => changed_end(alloc, end, change),
        _ => Ok(None),
    }
}

/// The changed reply; `None` if the reply has nothing of the kind.
pub(crate) fn changed(
    alloc: Global,
    reply: &Reply,
    change: Change,
) -> Result<Option<Reply>, AllocError> {
    match reply {
        Reply::Submitted(told) => Ok(changed_submit(*told, change)),
        Reply::Proposed(told) => Ok(changed_propose(alloc, told, change)),
        Reply::Delivered(told) => Ok(changed_deliver(*told, change)),
        Reply::RoundEnded(told) => changed_round_end(alloc, told, change),
        Reply::Executed(told) => changed_execute(alloc, told, change),
        Reply::Queried(told) => changed_query(alloc, told, change),
        Reply::Retired(told) => Ok(changed_retire(*told, change)),
    }
}
