//! The result of asking a liar to sign.
ghost use Rattle.std.specs.Prelude.{◌≡◌, ◌≤◌, ℕ, length, None, IfNone, IfOk, IfSome};
ghost use Rattle.ledger_model.specs.Limits.{max_signature_len};
ghost use Rattle.ledger_model.specs.Spelling.{statement_bytes};
ghost use Rattle.adversary_net.specs.WorldViews.{WorldView, SignsFor, liar_at};
ghost use Rattle.simulation.specs.Playing.{IsSigning};

use key_ring::SignFault;
use signed_frames::{Frame, UnsignedFrame};
use std::alloc::AllocError;

/// The result of asking a liar to sign.
#[derive(Drop)]
pub(crate) enum Signing {
    Signed(Frame),
    /// No leaf is left.
    Exhausted,
    /// The replica is not a liar.
    NoLiar,
}

/// The result of asking a liar to sign the statement, given the signer's answer; no answer means that the replica is not a liar.
pub(crate) fn signing_of(
    unsigned: UnsignedFrame,
    answer: Option<Result<Vec<u8>, SignFault>>,
) -> Result<Signing, AllocError>
    requires { IfSome answer (λ given. IfOk given (λ signature. length signature.items ≤ max_signature_len)) }
    ensures { (liar : ℕ) (c d : WorldView)
        → IfSome answer (λ given. SignsFor (λ signature. signature.items) c liar (statement_bytes unsigned) given d)
        → IfNone answer (liar_at c liar ≡ None) → IfNone answer (d ≡ c)
        → IfOk result (λ signing. IsSigning c liar unsigned signing d) }
{
    match answer {
        Some(Ok(signature)) => Ok(Signing::Signed(unsigned.with_signature(&signature)?)),
        Some(Err(SignFault::Exhausted)) => Ok(Signing::Exhausted),
        Some(Err(SignFault::NoMemory)) => Err(AllocError),
        None => Ok(Signing::NoLiar),
    }
}
