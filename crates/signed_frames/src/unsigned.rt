//! A statement that is to be signed: its bytes, in a buffer that has room for the whole frame.
ghost use Rattle.std.specs.Prelude.{◌≡◌, ◌≤◌, ◌++◌, length, drop, IfOk};
ghost use Rattle.std.specs.Int.{w32, to_be_bytes};
ghost use Rattle.ledger_model.specs.declared.statement.Statement.{Statement};
ghost use Rattle.ledger_model.specs.Limits.{max_signature_len};
ghost use Rattle.ledger_model.specs.Spelling.{IsStatement, SpellsFrame};
ghost use Rattle.ledger_model.specs.declared.version.Version.TheVariants.{Two};
ghost use Rattle.signed_frames.specs.Parts.{HoldsStatement};

use crate::parsing::LENGTH_LEN;
use crate::{Frame, HEADER_LEN};
use bytes::Bytes;
use ledger_model::{Signature, Statement};
use octets::{put_bytes, put_u16, put_u32};
use statements::{encoded_len, put_statement};
use std::alloc::{AllocError, Global};
use std::marker::Model;

/// A statement and the bytes to be signed, with room for the whole frame. Contracts see the statement.
#[derive(Debug)]
pub struct UnsignedFrame {
    statement: Statement,
    /// Room for the length, followed by the statement's bytes.
    bytes: Vec<u8>,
}

// An own `Drop` keeps proofs short: an owner drops it by one call. See docs/WORKING.md.
impl Drop for UnsignedFrame {
    fn drop(self) {
        let UnsignedFrame {
            statement: _statement,
            bytes: _bytes,
        } = self;
    }
}

impl Model for UnsignedFrame {
    ghost Value = { Statement };

    ghost view = { λ u. u.statement };

    ghost invariant = { λ u. HoldsStatement u.bytes.items u.statement };
}

impl UnsignedFrame {
    ghost use Rattle.ledger_model.specs.Spelling.{statement_bytes};

    /// The encoded statement, with room for a length and for a signature of at most [`Signature::MAX_LEN`] bytes. The
    /// only error is allocation failure.
    pub fn new(alloc: Global, statement: Statement) -> Result<Self, AllocError>
        requires { IsStatement statement }
        ensures { IfOk result (λ unsigned. unsigned ≡ statement) }
    {
        let bytes = spelled(alloc, &statement)?;
        Ok(UnsignedFrame { statement, bytes })
    }

    /// The bytes of the statement, over which the signature is to be made.
    pub fn statement_bytes(&self) -> &[u8]
        ensures { result.now ≡ statement_bytes self.now }
    {
        &self.bytes[HEADER_LEN..]
    }

    /// The frame of the statement and this signature, which has at most [`Signature::MAX_LEN`] bytes. Such a frame is
    /// never too long. The statement is not encoded again, and the room for all bytes is already there.
    pub fn with_signature(self, signature: &[u8]) -> Result<Frame, AllocError>
        requires { length signature.now ≤ max_signature_len }
        ensures { IfOk result (λ frame. frame ≡ record { statement = self; signature = signature.now }) }
    {
        let UnsignedFrame { statement, bytes } = self;
        let bytes = signed(bytes, signature)?;
        Ok(Frame::holding(bytes, statement, signature.len()))
    }
}

/// Room for a length, followed by the bytes of a statement, in a buffer that has room for the frame.
fn spelled(alloc: Global, statement: &Statement) -> Result<Vec<u8>, AllocError>
    requires { IsStatement statement.now }
    ensures { IfOk result (λ bytes. HoldsStatement bytes.items statement.now) }
{
    let room = HEADER_LEN + encoded_len(statement) + LENGTH_LEN + Signature::MAX_LEN;
    let mut bytes = Vec::with_capacity(alloc, room)?;
    put_u32(&mut bytes, 0)?;
    put_statement(&mut bytes, statement)?;
    Ok(bytes)
}

/// The bytes of a frame: the length of the body, the statement, and the signature.
fn signed(mut bytes: Vec<u8>, signature: &[u8]) -> Result<Bytes, AllocError>
    requires short { length signature.now ≤ max_signature_len }
    requires stands { (statement : Statement) × HoldsStatement bytes.items statement }
    ensures { IfOk result (λ frame. (statement : Statement) → HoldsStatement bytes.items statement
        → SpellsFrame Two frame (record { statement = statement; signature = signature.now })) }
{
    let body_len = bytes.len() - HEADER_LEN + LENGTH_LEN + signature.len();
    put_length(&mut bytes, body_len as u32);
    put_u16(&mut bytes, signature.len() as u16)?;
    put_bytes(&mut bytes, signature)?;
    Ok(Bytes::from_vec(bytes)?)
}

/// Writes the length of a body into the bytes that precede it.
fn put_length(bytes: &mut Vec<u8>, len: u32)
    requires { 4 ≤ length bytes.old.items }
    ensures { bytes.new.items ≡ to_be_bytes w32 len ++ drop 4 bytes.old.items }
{
    let (header, _) = bytes.as_mut_slice().split_at_mut(HEADER_LEN);
    header.copy_from_slice(&len.to_be_bytes());
}
