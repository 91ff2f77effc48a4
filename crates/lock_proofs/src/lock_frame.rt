//! The frame of a lock, and its check: the owner's signature, and the proof, a certificate of N-t signed reports.
ghost use Rattle.std.specs.Prelude.{◌≡◌, IfOk};
ghost use Rattle.ledger_model.specs.Rules.{first_of};
ghost use Rattle.lock_proofs.specs.LockTables.{as_statement};
ghost use Rattle.lock_proofs.specs.LockFrames.{IsLockFrame, lock_in};
ghost use Rattle.lock_proofs.specs.Faults.{faults};
ghost use Rattle.lock_proofs.specs.Checks.{ReturnsFirstFault, ReturnsValid, TakesValid};

use crate::LockFault;
use crate::checks::{is_of_owner, is_quorate, is_supporting};
use crate::signatures::are_signed;
use key_ring::KeyRing;
use ledger_model::{Batch, Config, Lock, Phase, Statement};
use signed_frames::Frame;
use std::marker::Model;
use verify_cache::CheckSignatures;

/// The frame of a lock, with the parts that were read from it. Contracts see the lock and its signature. The type
/// doesn't say whether the lock is valid: [`check_lock`] ensures it of the locks that it returns.
#[derive(Debug)]
pub struct LockFrame {
    frame: Frame,
}

// An own `Drop` keeps proofs short: an owner drops it by one call. See docs/WORKING.md.
impl Drop for LockFrame {
    fn drop(self) {
        let LockFrame { frame: _frame } = self;
    }
}

impl Model for LockFrame {
    ghost use Rattle.lock_proofs.specs.LockTables.{SignedLock};
    ghost use Rattle.lock_proofs.specs.LockFrames.{IsLockFrame, lock_in};

    ghost Value = { SignedLock };

    ghost view = { λ v. lock_in v.frame };

    ghost invariant = { λ v. IsLockFrame v.frame };
}

impl LockFrame {
    ghost use Rattle.std.specs.Prelude.{◌≡◌};
    ghost use Rattle.lock_proofs.specs.LockTables.{as_statement};
    ghost use Rattle.lock_proofs.specs.LockFrames.{IsLockFrame};

    /// The frame of a lock that this replica made itself. Nothing is checked: the caller answers for the lock.
    pub fn of_own(frame: Frame) -> Self
        requires { IsLockFrame frame }
        ensures { as_statement result ≡ frame }
    {
        LockFrame { frame }
    }

    /// The lock.
    pub fn lock(&self) -> &Lock
        ensures { result.now ≡ self.now.lock }
    {
        match self.frame.statement() {
            Statement::Lock(lock) => lock,
            Statement::Report(_) | Statement::Ack(_) => unreachable!(),
        }
    }

    /// The value that is locked.
    pub fn value(&self) -> &Batch
        ensures { result.now ≡ self.now.lock.value }
    {
        &self.lock().value
    }

    /// The phase of the lock.
    pub fn phase(&self) -> Phase
        ensures { result ≡ self.now.lock.phase }
    {
        self.lock().phase
    }

    /// The frame itself.
    pub fn frame(&self) -> &Frame
        ensures { result.now ≡ as_statement self.now }
    {
        &self.frame
    }
}

/// Returns the first fault of the lock in the frame, if it has one.
fn examine<C: CheckSignatures>(
    config: &Config,
    checks: &mut C,
    frame: &Frame,
) -> Result<(), LockFault>
    requires { IsLockFrame frame.now }
    ensures fault { result ≡ first_of (faults config.now (C.ring checks.old) (lock_in frame.now)) }
    ensures same { C.ring checks.new ≡ C.ring checks.old }
{
    let Statement::Lock(lock) = frame.statement() else {
        unreachable!()
    };
    if !is_of_owner(config, lock) {
        return Err(LockFault::NotOwner);
    }
    if !checks.is_signed(&frame.signed_part()) {
        return Err(LockFault::BadSignature);
    }
    if !is_quorate(config, lock) || !are_signed(checks, frame) {
        return Err(LockFault::BadProof);
    }
    if !is_supporting(lock) {
        return Err(LockFault::NotSupporting);
    }
    Ok(())
}

/// Checks the lock in a frame, and returns it with its frame. Allocates nothing.
///
/// The faults are tested in the order of [`LockFault`]. The signature of each report in the proof is checked against
/// the report's bytes in the frame.
pub fn check_lock(config: &Config, ring: &KeyRing, frame: Frame) -> Result<LockFrame, LockFault>
    requires { IsLockFrame frame }
    // Returns the first fault that applies and, if none does, the lock of the frame.
    ensures fault { ReturnsFirstFault ring.now config.now frame result }
    ensures lock { IfOk result (λ lock. as_statement lock ≡ frame) }

    // A lock that is returned is valid.
    ensures valid { ReturnsValid ring.now config.now result }

    // A valid lock whose own signatures verify is returned.
    ensures only { TakesValid ring.now config.now frame result }
{
    let mut checks = ring;
    check_lock_with(config, &mut checks, frame)
}

/// Does what [`check_lock`] does, under the keys of the caller that checks signatures.
pub fn check_lock_with<C: CheckSignatures>(
    config: &Config,
    checks: &mut C,
    frame: Frame,
) -> Result<LockFrame, LockFault>
    requires { IsLockFrame frame }
    // Returns the first fault that applies and, if none does, the lock of the frame.
    ensures fault { ReturnsFirstFault (C.ring checks.old) config.now frame result }
    ensures lock { IfOk result (λ lock. as_statement lock ≡ frame) }

    // A lock that is returned is valid.
    ensures valid { ReturnsValid (C.ring checks.old) config.now result }

    // A valid lock whose own signatures verify is returned.
    ensures only { TakesValid (C.ring checks.old) config.now frame result }
    // The keys are the same.
    ensures same { C.ring checks.new ≡ C.ring checks.old }
{
    let lock = LockFrame { frame };
    examine(config, checks, &lock.frame)?;
    Ok(lock)
}
