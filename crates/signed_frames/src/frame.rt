//! A frame: the bytes of a signed statement, and borrowed parts of them.
use crate::HEADER_LEN;
use crate::lending::{LentReports, reports_in};
use crate::parsing::{LENGTH_LEN, message_in, parts_of};
use crate::signed_part::SignedPart;
use bytes::Bytes;
use ledger_model::{Statement, Version};
use statements::DecodeFault;
use std::alloc::{AllocError, Global};
use std::marker::Model;

/// Bytes that are exactly one frame, and the statement that they encode. Contracts see the signed statement.
#[derive(Debug)]
pub struct Frame {
    bytes: Bytes,
    statement: Statement,
    /// The number of the last bytes that are the signature.
    signature_len: usize,
}

// An own `Drop` keeps proofs short: an owner drops it by one call. See docs/WORKING.md.
impl Drop for Frame {
    fn drop(self) {
        let Frame {
            bytes: _bytes,
            statement: _statement,
            signature_len: _signature_len,
        } = self;
    }
}

impl Model for Frame {
    ghost use Rattle.ledger_model.specs.declared.statement.SignedStatement.{SignedStatement};
    ghost use Rattle.signed_frames.specs.Parts.{signed_by_last, HoldsFrame};

    ghost Value = { SignedStatement };

    ghost view = { λ f. signed_by_last f.bytes f.statement f.signature_len };

    ghost invariant = { λ f. HoldsFrame f.bytes f.statement f.signature_len };
}

impl Frame {
    ghost use Rattle.std.specs.Prelude.{◌≡◌, IfOk, map};
    ghost use Rattle.ledger_model.specs.declared.statement.SignedStatement.{SignedStatement};
    ghost use Rattle.ledger_model.specs.Spelling.{statement_bytes, frame_bytes, IsFrame, SpellsFrame};
    ghost use Rattle.ledger_model.specs.Reading.{reading_in};
    ghost use Rattle.ledger_model.specs.declared.version.Version.TheVariants.{One, Two};
    ghost use Rattle.statements.specs.Reads.{IsReadingOr};
    ghost use Rattle.signed_frames.specs.Lending.{lent_of, own_part, proof_of};
    ghost use Rattle.signed_frames.specs.Parts.{signed_by_last, HoldsFrame};

    /// The frame of version 1 that all of the bytes are: [`Frame::parse_in`] with version 1.
    pub fn parse(alloc: Global, bytes: Bytes) -> Result<Self, DecodeFault>
        ensures found { IfOk result (λ frame. SpellsFrame One bytes frame) }
        ensures only { (frame : SignedStatement) → SpellsFrame One bytes frame → IsReadingOr result (Some frame) }
        ensures exact { IsReadingOr result (reading_in One bytes) }
    {
        Frame::parse_in(Version::One, alloc, bytes)
    }

    /// The frame of this version that all of the bytes are. Frames of version 2 carry statements of both versions.
    /// `Malformed` comes if the bytes are no such frame, `NoMemory` if memory ran out.
    pub fn parse_in(version: Version, alloc: Global, bytes: Bytes) -> Result<Self, DecodeFault>
        // The bytes encode the frame that is returned.
        ensures found { IfOk result (λ frame. SpellsFrame version bytes frame) }
        // If the bytes encode a frame, it is returned, unless memory runs out.
        ensures only { (frame : SignedStatement) → SpellsFrame version bytes frame → IsReadingOr result (Some frame) }
        // The result is the reading of the definitions, and Malformed comes exactly if there is none.
        ensures exact { IsReadingOr result (reading_in version bytes) }
    {
        let (statement, signature) = parts_of(version, alloc, bytes.as_slice())?;
        let signature_len = signature.len();
        Ok(Frame {
            bytes,
            statement,
            signature_len,
        })
    }

    /// The frame with these bytes, which encode it.
    pub(crate) fn holding(bytes: Bytes, statement: Statement, signature_len: usize) -> Self
        requires { HoldsFrame bytes statement signature_len }
        ensures { result ≡ signed_by_last bytes statement signature_len }
    {
        Frame {
            bytes,
            statement,
            signature_len,
        }
    }

    /// The statement in the frame.
    pub fn statement(&self) -> &Statement
        ensures statement { result.now ≡ self.now.statement }
        ensures frame { IsFrame self.now }
    {
        &self.statement
    }

    /// The bytes of the whole frame.
    pub fn as_bytes(&self) -> &[u8]
        ensures { result.now ≡ frame_bytes self.now }
    {
        self.bytes.as_slice()
    }

    /// The bytes of the statement, over which the signature is made.
    pub fn statement_bytes(&self) -> &[u8]
        ensures { result.now ≡ statement_bytes self.now.statement }
    {
        message_in(self.bytes.as_slice(), self.signature_len)
    }

    /// The bytes of the signature.
    pub fn signature(&self) -> &[u8]
        ensures { result.now ≡ self.now.signature }
    {
        let start = self.bytes.len() - self.signature_len;
        &self.bytes.as_slice()[start..]
    }

    /// The statement's bytes and the signature over them, with the signer.
    pub fn signed_part(&self) -> SignedPart<'_>
        ensures { result ≡ own_part self.now }
    {
        let signature_start = self.bytes.len() - self.signature_len;
        SignedPart {
            signer: self.statement.signer(),
            frame: &self.bytes,
            start: HEADER_LEN,
            end: signature_start - LENGTH_LEN,
            signature_start,
            signature_end: self.bytes.len(),
        }
    }

    /// The signed reports of the lock's proof, in order; none if the statement is no lock. Nothing is copied: the
    /// iterator finds the reports in one pass over the frame.
    pub fn lent_reports(&self) -> LentReports<'_>
        ensures { result ≡ map lent_of (proof_of self.now.statement) }
    {
        reports_in(&self.bytes, &self.statement, self.signature_len)
    }

    /// The bytes of the whole frame, which are shared and not copied.
    pub fn share(&self) -> Result<Bytes, AllocError>
        ensures { IfOk result (λ bytes. bytes ≡ frame_bytes self.now) }
    {
        self.bytes.clone()
    }

    /// A copy of the frame, which shares its bytes. The only error is allocation failure.
    pub fn copy(&self) -> Result<Self, AllocError>
        ensures { IfOk result (λ frame. frame ≡ self.now) }
    {
        Ok(Frame {
            bytes: self.share()?,
            statement: self.statement.copy()?,
            signature_len: self.signature_len,
        })
    }

    /// The bytes of the whole frame.
    pub fn into_bytes(self) -> Bytes
        ensures { SpellsFrame Two result self }
    {
        let Frame {
            bytes,
            statement: _statement,
            signature_len: _signature_len,
        } = self;
        bytes
    }

    /// The statement in the frame.
    pub fn into_statement(self) -> Statement
        ensures { result ≡ self.statement }
    {
        let Frame {
            bytes: _bytes,
            statement,
            signature_len: _signature_len,
        } = self;
        statement
    }
}
