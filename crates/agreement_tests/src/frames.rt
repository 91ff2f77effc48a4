//! Builds frames of given bytes. These functions ensure little about their results, because a test that knew more would
//! be slow to prove.

ghost use Rattle.std.specs.Prelude.{IfSome, IsTrue};
ghost use Rattle.ledger_model.specs.Notes.{version_of};
ghost use Rattle.ledger_model.specs.Values.{IsValueIn};
ghost use Rattle.ledger_model.specs.Versions.{reads};
ghost use Rattle.ledger_model.specs.declared.version.Version.TheVariants.{One};
ghost use Rattle.lock_proofs.specs.LockFrames.{IsLockFrame};

use bytes::Bytes;
use key_ring::KeyRing;
use ledger_model::{Batch, Config, Statement};
use lock_proofs::{LockFault, LockFrame, check_lock};
use signed_frames::Frame;
use std::alloc::Global;
use test_support::value;

/// The batch of one transaction.
pub(crate) fn small_value(alloc: Global, tx: &[u8]) -> Option<Batch>
    ensures { IfSome result (λ batch. IsValueIn One batch) }
{
    let batch = value(alloc, tx).ok()?;
    if batch.transactions().len() > 16 {
        return None;
    }
    Some(batch)
}

/// The frame of version 1 with these bytes.
pub(crate) fn parsed(alloc: Global, bytes: &[u8]) -> Option<Frame>
    ensures { IfSome result (λ frame. IsTrue (reads One (version_of frame.statement))) }
{
    let copied = Bytes::copy_from_slice(alloc, bytes).ok()?;
    Frame::parse(alloc, copied).ok()
}

/// The frame of a lock.
pub(crate) fn parsed_lock(alloc: Global, bytes: &[u8]) -> Option<Frame>
    ensures { IfSome result (λ frame. IsLockFrame frame) }
{
    let frame = parsed(alloc, bytes)?;
    match frame.statement() {
        Statement::Lock(_) => Some(frame),
        Statement::Report(_) | Statement::Ack(_) => None,
    }
}

fn checked(config: &Config, ring: &KeyRing, frame: Frame) -> Result<LockFrame, LockFault>
    requires { IsLockFrame frame }
{
    check_lock(config, ring, frame)
}

/// The lock of these bytes, or what is wrong with it.
pub(crate) fn check(
    alloc: Global,
    config: &Config,
    ring: &KeyRing,
    bytes: &[u8],
) -> Option<Result<LockFrame, LockFault>> {
    Some(checked(config, ring, parsed_lock(alloc, bytes)?))
}
