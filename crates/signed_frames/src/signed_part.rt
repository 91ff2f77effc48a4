//! A part of a frame with the signature over it.

use bytes::Bytes;
use ledger_model::ReplicaId;
use std::alloc::AllocError;
use std::marker::Model;

/// What one replica signed in a frame, borrowed from the frame: the frame's own statement, or a report of a lock's
/// proof. Contracts see the signer and the two byte strings.
#[derive(Debug, Drop)]
pub struct SignedPart<'a> {
    pub(crate) signer: ReplicaId,
    pub(crate) frame: &'a Bytes,
    /// Where the signed bytes begin in the frame, and where they end.
    pub(crate) start: usize,
    pub(crate) end: usize,
    /// Where the signature begins, and where it ends.
    pub(crate) signature_start: usize,
    pub(crate) signature_end: usize,
}

impl<'a> Model for SignedPart<'a> {
    ghost use Rattle.std.specs.Prelude.{◌≤◌, length, slice_range};
    ghost use Rattle.signed_frames.specs.Lending.{SignedPartView};

    ghost Value = { SignedPartView };

    ghost view = { λ p. record {
      signer = p.signer;
      message = slice_range p.frame.now p.start p.end;
      signature = slice_range p.frame.now p.signature_start p.signature_end;
    } };

    ghost invariant = { λ p. (p.start ≤ p.end) × (p.end ≤ length p.frame.now)
        × (p.signature_start ≤ p.signature_end) × (p.signature_end ≤ length p.frame.now) };
}

impl<'a> SignedPart<'a> {
    ghost use Rattle.std.specs.Prelude.{◌≡◌, IfOk};

    /// The replica that signed it, if the signature is valid.
    pub fn signer(&self) -> ReplicaId
        ensures { result ≡ self.now.signer }
    {
        self.signer
    }

    /// The bytes over which the signature is made.
    pub fn message(&self) -> &'a [u8]
        ensures { result.now ≡ self.now.message }
    {
        &self.frame.as_slice()[self.start..self.end]
    }

    /// The bytes of the signature.
    pub fn signature(&self) -> &'a [u8]
        ensures { result.now ≡ self.now.signature }
    {
        &self.frame.as_slice()[self.signature_start..self.signature_end]
    }

    /// The bytes over which the signature is made, which share those of the frame. The only error is allocation failure.
    pub fn share_message(&self) -> Result<Bytes, AllocError>
        ensures { IfOk result (λ bytes. bytes ≡ self.now.message) }
    {
        self.frame.slice(self.start..self.end)
    }

    /// The bytes of the signature, which share those of the frame. The only error is allocation failure.
    pub fn share_signature(&self) -> Result<Bytes, AllocError>
        ensures { IfOk result (λ bytes. bytes ≡ self.now.signature) }
    {
        self.frame.slice(self.signature_start..self.signature_end)
    }
}
