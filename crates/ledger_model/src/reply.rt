//! What a replica answers to each event.
ghost use Rattle.std.specs.Prelude.{◌≡◌, IfOk};

use crate::{Batch, Height, ReplicaId};
use bytes::Bytes;
use std::alloc::{AllocError, Global};
use std::error::Error;
use std::fmt;
use std::marker::Model;

/// Why the pool refuses a transaction.
#[derive(Clone, Copy, Debug, PartialEq, Eq)]
pub enum SubmitRefusal {
    Empty,
    TooLong,
    Duplicate,
    Full,
    /// The application's CheckTx returned this code, which isn't 0.
    Rejected(u32),
}

/// Why a replica doesn't open a height.
#[derive(Clone, Copy, Debug, PartialEq, Eq)]
pub enum ProposeRefusal {
    /// More than four heights lie between the last that is committed and this one.
    TooFar,
    AlreadyOpen,
    /// No ledger has such a height: it is 0, or above the last.
    Closed,
    /// The height is below the replica's floor.
    Retired,
}

/// Why a replica doesn't raise its floor.
#[derive(Clone, Copy, Debug, PartialEq, Eq)]
pub enum RetireRefusal {
    /// A height below the new floor isn't committed.
    NotCommitted,
    /// The new floor isn't above the floor.
    NotAbove,
}

impl SubmitRefusal {
    ghost use Rattle.std.specs.Prelude.{◌≡◌};
    ghost use Rattle.ledger_model.specs.Causes.{submit_refusal_number};

    /// The number of the refusal, from 1 on, in the order in which refusals are looked for.
    pub fn number(self) -> u8
        ensures { result ≡ submit_refusal_number self }
    {
        match self {
            SubmitRefusal::Empty => 1,
            SubmitRefusal::TooLong => 2,
            SubmitRefusal::Duplicate => 3,
            SubmitRefusal::Full => 4,
            SubmitRefusal::Rejected(_) => 5,
        }
    }
}

impl ProposeRefusal {
    ghost use Rattle.std.specs.Prelude.{◌≡◌};
    ghost use Rattle.ledger_model.specs.Causes.{propose_refusal_number};

    /// The number of the refusal, from 1 on.
    pub fn number(self) -> u8
        ensures { result ≡ propose_refusal_number self }
    {
        match self {
            ProposeRefusal::TooFar => 1,
            ProposeRefusal::AlreadyOpen => 2,
            ProposeRefusal::Closed => 3,
            ProposeRefusal::Retired => 4,
        }
    }
}

impl RetireRefusal {
    ghost use Rattle.std.specs.Prelude.{◌≡◌};
    ghost use Rattle.ledger_model.specs.Causes.{retire_refusal_number};

    /// The number of the refusal, from 1 on, in the order in which refusals are looked for.
    pub fn number(self) -> u8
        ensures { result ≡ retire_refusal_number self }
    {
        match self {
            RetireRefusal::NotCommitted => 1,
            RetireRefusal::NotAbove => 2,
        }
    }
}

/// Why a replica ignores a delivered frame, which then changes nothing: the first cause that fits. `Display` shows its
/// number and its name.
#[derive(Clone, Copy, Debug, PartialEq, Eq)]
pub enum Ignored {
    /// The bytes are not exactly one frame.
    Malformed,
    /// The signer is no replica of the cluster.
    Signer,
    /// The height isn't open at this replica: it has not opened it, or has retired it.
    NoRow,
    /// Statements of this kind are not read in the open round.
    WrongRound,
    /// The statement is of another phase than the open round; in a lock-release round, a lock of a later phase.
    WrongPhase,
    /// The lock's signer does not own its phase.
    NotOwner,
    /// This round already read such a statement: a report or an acknowledgement of the same signer, or in a lock round any lock.
    Repeated,
    /// The signature does not verify.
    BadSignature,
    /// The lock's reports do not support it.
    BadProof,
    /// The replica holds locks on four other values.
    TableFull,
    /// The acknowledgement is of a lock that this replica did not make.
    NotMine,
}

impl Ignored {
    ghost use Rattle.std.specs.Prelude.{◌≡◌};
    ghost use Rattle.ledger_model.specs.Causes.{cause_number, cause_text};

    /// The number of the cause, from 1 on, in the order in which causes are looked for.
    pub fn number(self) -> u8
        ensures { result ≡ cause_number self }
    {
        match self {
            Ignored::Malformed => 1,
            Ignored::Signer => 2,
            Ignored::NoRow => 3,
            Ignored::WrongRound => 4,
            Ignored::WrongPhase => 5,
            Ignored::NotOwner => 6,
            Ignored::Repeated => 7,
            Ignored::BadSignature => 8,
            Ignored::BadProof => 9,
            Ignored::TableFull => 10,
            Ignored::NotMine => 11,
        }
    }

    /// The number and the name of the cause, as `7 Repeated`.
    pub fn text(self) -> &'static str
        ensures { result.now ≡ cause_text self }
    {
        match self {
            Ignored::Malformed => "1 Malformed",
            Ignored::Signer => "2 Signer",
            Ignored::NoRow => "3 NoRow",
            Ignored::WrongRound => "4 WrongRound",
            Ignored::WrongPhase => "5 WrongPhase",
            Ignored::NotOwner => "6 NotOwner",
            Ignored::Repeated => "7 Repeated",
            Ignored::BadSignature => "8 BadSignature",
            Ignored::BadProof => "9 BadProof",
            Ignored::TableFull => "10 TableFull",
            Ignored::NotMine => "11 NotMine",
        }
    }
}

impl fmt::Display for Ignored {
    fn fmt<W: fmt::Write>(&self, f: &mut fmt::Formatter<W>) -> fmt::Result {
        f.write_str(self.text())
    }
}

impl Error for Ignored {}

/// The last round is open, and no other follows.
#[derive(Clone, Copy, Debug, PartialEq, Eq)]
pub struct LastRound;

impl LastRound {
    /// The number of the last round.
    pub const NUMBER: u32 = 4_000_000_000;
}

/// The next height is not decided.
#[derive(Clone, Copy, Debug, PartialEq, Eq)]
pub struct NothingDecided;

/// The application doesn't hold the state of the requested height.
#[derive(Clone, Copy, Debug, PartialEq, Eq)]
pub struct NotHeld;

/// To whom a frame goes.
#[derive(Clone, Copy, Debug, PartialEq, Eq)]
pub enum Addressee {
    /// All other replicas.
    All,
    One(ReplicaId),
}

/// A frame and its addressee.
#[derive(Drop)]
pub struct Sent {
    pub addressee: Addressee,
    pub frame: Bytes,
}

/// The frames that a round end sends, in order.
#[derive(Drop)]
pub struct SentFrames {
    frames: Vec<Sent>,
}

impl Model for SentFrames {
    ghost use Rattle.std.specs.Prelude.{List};
    ghost use Rattle.ledger_model.specs.declared.reply.Sent.{Sent};

    ghost Value = { List Sent };

    ghost view = { λ s. s.frames.items };
}

impl Sent {
    ghost use Rattle.std.specs.Prelude.{◌≡◌, IfOk};

    /// A copy that shares the frame's bytes. The only error is allocation failure.
    pub fn copy(&self) -> Result<Self, AllocError>
        ensures { IfOk result (λ sent. sent ≡ self.now) }
    {
        Ok(Sent {
            addressee: self.addressee,
            frame: self.frame.clone()?,
        })
    }
}

fn copy_frames(alloc: Global, frames: &[Sent]) -> Result<Vec<Sent>, AllocError>
    ensures { IfOk result (λ v. v.items ≡ frames.now) }
{
    let mut copied = Vec::with_capacity(alloc, frames.len())?;
    for sent in frames {
        copied.push(sent.copy()?)?;
    }
    Ok(copied)
}

impl SentFrames {
    ghost use Rattle.std.specs.Prelude.{◌≡◌, IfOk};

    /// A list of these frames, in order.
    pub fn new(frames: Vec<Sent>) -> Self
        ensures { result ≡ frames.items }
    {
        SentFrames { frames }
    }

    /// The frames, in order.
    pub fn as_slice(&self) -> &[Sent]
        ensures { result.now ≡ self.now }
    {
        self.frames.as_slice()
    }

    /// A copy that shares the bytes of the frames. The only error is allocation failure.
    pub fn copy(&self) -> Result<Self, AllocError>
        ensures { IfOk result (λ frames. frames ≡ self.now) }
    {
        let alloc = *self.frames.allocator();
        let frames = copy_frames(alloc, self.frames.as_slice())?;
        Ok(SentFrames { frames })
    }
}

/// The reply to a round end that opened the next round.
#[derive(Drop)]
pub struct RoundEnded {
    /// Whether the replica is mute: it makes no further statement.
    pub mute: bool,
    pub frames: SentFrames,
}

/// The codes of a block's transactions, in order.
#[derive(Debug, Drop)]
pub struct Codes {
    codes: Vec<u32>,
}

impl Model for Codes {
    ghost use Rattle.std.specs.Prelude.{ℕ, List};

    ghost Value = { List ℕ };

    ghost view = { λ c. c.codes.items };
}

impl Codes {
    ghost use Rattle.std.specs.Prelude.{◌≡◌, IfOk};

    /// A list of these codes, in order.
    pub fn new(codes: Vec<u32>) -> Self
        ensures { result ≡ codes.items }
    {
        Codes { codes }
    }

    /// The codes, in order.
    pub fn as_slice(&self) -> &[u32]
        ensures { result.now ≡ self.now }
    {
        self.codes.as_slice()
    }

    /// A copy of the codes. The only error is allocation failure.
    pub fn copy(&self) -> Result<Self, AllocError>
        ensures { IfOk result (λ codes. codes ≡ self.now) }
    {
        Ok(Codes {
            codes: self.codes.clone()?,
        })
    }
}

/// The result of running a block.
#[derive(Debug, Drop)]
pub struct BlockResult {
    pub height: Height,
    pub codes: Codes,
    pub hash: [u8; 32],
}

/// An application's answer to a query.
#[derive(Drop)]
pub struct QueryAnswer {
    pub height: Height,
    pub value: Option<Bytes>,
}

impl BlockResult {
    ghost use Rattle.std.specs.Prelude.{◌≡◌, IfOk};

    /// A copy of the result. The only error is allocation failure.
    pub fn copy(&self) -> Result<Self, AllocError>
        ensures { IfOk result (λ block. block ≡ self.now) }
    {
        Ok(BlockResult {
            height: self.height,
            codes: self.codes.copy()?,
            hash: self.hash,
        })
    }
}

impl QueryAnswer {
    ghost use Rattle.std.specs.Prelude.{◌≡◌, IfOk};

    /// A copy of the answer, which shares the value's bytes. The only error is allocation failure.
    pub fn copy(&self) -> Result<Self, AllocError>
        ensures { IfOk result (λ answer. answer ≡ self.now) }
    {
        let value = match &self.value {
            Some(value) => Some(value.clone()?),
            None => None,
        };
        Ok(QueryAnswer {
            height: self.height,
            value,
        })
    }
}

/// A replica's reply to an event.
#[derive(Drop)]
pub enum Reply {
    Submitted(Result<(), SubmitRefusal>),
    Proposed(Result<Batch, ProposeRefusal>),
    Delivered(Result<(), Ignored>),
    RoundEnded(Result<RoundEnded, LastRound>),
    Executed(Result<BlockResult, NothingDecided>),
    Queried(Result<QueryAnswer, NotHeld>),
    /// The new floor, or why it stays.
    Retired(Result<Height, RetireRefusal>),
}

impl Reply {
    ghost use Rattle.std.specs.Prelude.{◌≡◌, IfOk};

    /// A copy of the reply, which shares the bytes of frames and values. The only error is allocation failure.
    pub fn copy(&self) -> Result<Self, AllocError>
        ensures { IfOk result (λ reply. reply ≡ self.now) }
    {
        Ok(match self {
            Reply::Submitted(answer) => Reply::Submitted(*answer),
            Reply::Proposed(Ok(batch)) => Reply::Proposed(Ok(batch.copy()?)),
            Reply::Proposed(Err(refusal)) => Reply::Proposed(Err(*refusal)),
            Reply::Delivered(answer) => Reply::Delivered(*answer),
            Reply::RoundEnded(Ok(ended)) => Reply::RoundEnded(Ok(RoundEnded {
                mute: ended.mute,
                frames: ended.frames.copy()?,
            })),
            Reply::RoundEnded(Err(last)) => Reply::RoundEnded(Err(*last)),
            Reply::Executed(Ok(block)) => Reply::Executed(Ok(block.copy()?)),
            Reply::Executed(Err(nothing)) => Reply::Executed(Err(*nothing)),
            Reply::Queried(Ok(answer)) => Reply::Queried(Ok(answer.copy()?)),
            Reply::Queried(Err(refusal)) => Reply::Queried(Err(*refusal)),
            Reply::Retired(answer) => Reply::Retired(*answer),
        })
    }
}
