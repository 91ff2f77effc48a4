//! The frame of a statement, signed with the first leaf of a replica's key pair.
ghost use Rattle.std.specs.Prelude.{◌≡◌, ◌≤◌, true, length, IfOk};
ghost use Rattle.ledger_model.specs.Limits.{max_signature_len};
ghost use Rattle.ledger_model.specs.Signatures.{verifies};
ghost use Rattle.ledger_model.specs.Spelling.{statement_bytes};
ghost use Rattle.key_ring.specs.Signers.{public_key_of, signed_with};
ghost use Rattle.cluster_setup.specs.Keys.{secret_of};
ghost use Rattle.program.specs.Statements.{signed};

use crate::statement::statement;
use cluster_setup::{SignSettings, key_pair};
use key_ring::{SignFault, Signer};
use signed_frames::{Frame, UnsignedFrame};
use std::alloc::{AllocError, Global};

/// The signature of a message with the first leaf of a key pair.
fn sign_first(alloc: Global, mut signer: Signer, message: &[u8]) -> Result<Vec<u8>, AllocError>
    requires { signer.used ≡ 0 }
    ensures signature { IfOk result (λ signature. signature.items ≡ signed_with signer.secret 0 message.now) }
    ensures verifies { IfOk result (λ signature.
        verifies (public_key_of signer.secret) message.now signature.items ≡ true) }
    ensures short { IfOk result (λ signature. length signature.items ≤ max_signature_len) }
{
    match signer.sign(alloc, message) {
        Ok(signature) => Ok(signature),
        Err(SignFault::NoMemory) => Err(AllocError),
        Err(SignFault::Exhausted) => unreachable!(),
    }
}

/// The signature of a message by the first leaf of the replica's key pair.
fn first_signature(
    alloc: Global,
    settings: &SignSettings,
    message: &[u8],
) -> Result<Vec<u8>, AllocError>
    ensures signature { IfOk result (λ signature. signature.items ≡ signed_with (secret_of settings.now.cluster settings.now.replica) 0 message.now) }
    ensures verifies { IfOk result (λ signature.
        verifies (public_key_of (secret_of settings.now.cluster settings.now.replica)) message.now signature.items ≡ true) }
    ensures short { IfOk result (λ signature. length signature.items ≤ max_signature_len) }
{
    let signer = key_pair(alloc, &settings.cluster, settings.replica)?;
    sign_first(alloc, signer, message)
}

/// The frame of the statement, signed with the first leaf of the replica's key pair.
pub fn signed_frame(alloc: Global, settings: &SignSettings) -> Result<Frame, AllocError>
    ensures signed { IfOk result (λ frame. frame ≡ signed settings.now) }
    ensures verifies { IfOk result (λ frame. verifies (public_key_of (secret_of settings.now.cluster settings.now.replica))
        (statement_bytes frame.statement) frame.signature ≡ true) }
{
    let unsigned = UnsignedFrame::new(alloc, statement(alloc, settings)?)?;
    let signature = first_signature(alloc, settings, unsigned.statement_bytes())?;
    unsigned.with_signature(&signature)
}
