//! The statement of its own that a replica makes at one height as a round opens.
ghost use Rattle.std.specs.Prelude.{◌≡◌, IfOk};

use ledger_model::{Batch, Signature, Statement};
use signed_frames::Frame;
use std::alloc::{AllocError, Global};
use std::marker::Model;

/// The statement of its own that a replica makes at one height as a round opens.
#[derive(Debug, Drop)]
pub enum RoundStatement {
    /// None: the replica is mute.
    Mute,
    /// None that is sent; an owner may acknowledge its own lock without sending the acknowledgement.
    Unsent,
    /// A statement that is signed and sent.
    Sent(OwnFrame),
}

/// A signed statement of the replica's own, with the memory to store it. Contracts see the signed statement.
#[derive(Debug)]
pub struct OwnFrame {
    frame: Frame,
    kept: Reserved,
}

// An own `Drop` keeps proofs short: an owner drops it by one call. See docs/WORKING.md.
impl Drop for OwnFrame {
    fn drop(self) {
        let OwnFrame {
            frame: _frame,
            kept: _kept,
        } = self;
    }
}

/// The memory that storing a statement of the replica's own needs besides its frame.
#[derive(Debug, Drop)]
pub(crate) enum Reserved {
    /// A report's signature.
    Report(Signature),
    /// The value of a lock, twice: for the lock that was made, and for the lock that was taken.
    Lock(Batch, Batch),
    /// An acknowledgement needs nothing.
    Ack,
}

impl Model for OwnFrame {
    ghost use Rattle.ledger_model.specs.declared.statement.SignedStatement.{SignedStatement};
    ghost use Rattle.ledger_model.specs.Spelling.{IsFrame};
    ghost use Rattle.instance.specs.Reserved.{IsReservedFor};

    ghost Value = { SignedStatement };

    ghost view = { λ o. o.frame };

    ghost invariant = { λ o. IsFrame o.frame × IsReservedFor o.frame o.kept };
}

impl Reserved {
    ghost use Rattle.ledger_model.specs.Spelling.{IsFrame};
    ghost use Rattle.instance.specs.Reserved.{IsReservedFor};

    /// The memory for a lock on the value.
    fn of_value(value: &Batch) -> Result<Self, AllocError>
        ensures { IfOk result (λ kept. kept ≡ Reserved.Lock value.now value.now) }
    {
        Ok(Reserved::Lock(value.copy()?, value.copy()?))
    }

    /// The memory for the frame's statement.
    fn of_frame(alloc: Global, frame: &Frame) -> Result<Self, AllocError>
        ensures kept { IfOk result (λ kept. IsReservedFor frame.now kept) }
        ensures frame { IsFrame frame.now }
    {
        match frame.statement() {
            Statement::Report(_) => {
                let signature = Vec::from_slice(alloc, frame.signature())?;
                Ok(Reserved::Report(Signature::new(signature)))
            }
            Statement::Lock(lock) => Reserved::of_value(&lock.value),
            Statement::Ack(_) => Ok(Reserved::Ack),
        }
    }
}

impl OwnFrame {
    ghost use Rattle.ledger_model.specs.Spelling.{IsFrame};
    ghost use Rattle.instance.specs.Reserved.{IsReservedFor};

    /// The frame of a statement of the replica's own. Allocates the memory that storing it needs.
    pub fn new(alloc: Global, frame: Frame) -> Result<Self, AllocError>
        ensures { IfOk result (λ own. own ≡ frame) }
    {
        let kept = Reserved::of_frame(alloc, &frame)?;
        Ok(OwnFrame { frame, kept })
    }

    /// The frame, as it is sent.
    pub fn frame(&self) -> &Frame
        ensures { result.now ≡ self.now }
    {
        &self.frame
    }

    /// The frame, and the memory to store its statement.
    pub(crate) fn into_parts(self) -> (Frame, Reserved)
        ensures frame { result.0 ≡ self }
        ensures readable { IsFrame result.0 }
        ensures kept { IsReservedFor result.0 result.1 }
    {
        let OwnFrame { frame, kept } = self;
        (frame, kept)
    }
}
