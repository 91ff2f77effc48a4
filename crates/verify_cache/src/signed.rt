//! What a check is of: the signer, the message and the signature.
use bytes::Bytes;
use ledger_model::ReplicaId;
use signed_frames::SignedPart;
use std::alloc::AllocError;
use std::hash::{Hash, Hasher};

/// A signature, the message that it is of, and who is said to have signed.
#[derive(PartialEq, Eq)]
pub struct SignedMessage {
    /// The replica that is said to have signed.
    pub signer: ReplicaId,
    /// The bytes that it is said to have signed.
    pub message: Bytes,
    /// The signature's bytes, right or wrong.
    pub signature: Bytes,
}

// An own `Drop` keeps proofs short: an owner drops it by one call. See docs/WORKING.md.
impl Drop for SignedMessage {
    fn drop(self) {
        let SignedMessage {
            signer: _signer,
            message: _message,
            signature: _signature,
        } = self;
    }
}

/// The hash is of the signature and the message in whole. A liar can put one signature under many messages, and many under
/// one: under random keys their hashes differ, so a lookup compares with one key that is known, and rarely with another.
impl Hash for SignedMessage {
    ghost use Rattle.std.specs.Prelude.{◌∷◌, []};
    ghost use Rattle.std.proofs.Common.{rules};
    ghost use Rattle.std.specs.Cmp.Rules.{hashing};

    ghost hash_input = { λ m. m.signature ∷ m.message ∷ [] };

    ghost respects_eq = { Prim.search (hashing, rules) };

    fn hash<H: Hasher>(&self, state: &mut H) {
        state.write(self.signature.as_slice());
        state.write(self.message.as_slice());
    }
}

impl SignedMessage {
    ghost use Rattle.std.specs.Prelude.{◌≡◌, IfOk};
    ghost use Rattle.verify_cache.specs.Same.{same, signed_of};

    /// The signer, with the message and the signature that share the bytes of these. The only error is allocation
    /// failure.
    pub fn sharing(
        signer: ReplicaId,
        message: &Bytes,
        signature: &Bytes,
    ) -> Result<Self, AllocError>
        ensures { IfOk result (λ signed. signed ≡ signed_of signer message.now signature.now) }
    {
        Ok(SignedMessage {
            signer,
            message: message.clone()?,
            signature: signature.clone()?,
        })
    }

    /// What is signed in a part of a frame: it shares the frame's bytes. The only error is allocation failure.
    pub fn of_part(part: &SignedPart<'_>) -> Result<Self, AllocError>
        ensures { IfOk result (λ signed. signed ≡ signed_of part.now.signer part.now.message part.now.signature) }
    {
        Ok(SignedMessage {
            signer: part.signer(),
            message: part.share_message()?,
            signature: part.share_signature()?,
        })
    }

    /// Whether it is this message, by this signer, with this signature.
    pub fn is(&self, signer: ReplicaId, message: &[u8], signature: &[u8]) -> bool
        ensures { result ≡ same (signed_of signer message.now signature.now) self.now }
    {
        signer == self.signer
            && message == self.message.as_slice()
            && signature == self.signature.as_slice()
    }
}
