//! The statements of liars.
ghost use Rattle.std.specs.Prelude.{◌≡◌, ◌≤◌, length, IfOk, IsTrue};
ghost use Rattle.std.specs.List.{AllByRecursion};
ghost use Rattle.ledger_model.specs.Spelling.{IsAck, IsLock, IsPlace, IsReport, IsSignedReport};
ghost use Rattle.ledger_model.specs.Values.{IsValueIn};
ghost use Rattle.ledger_model.specs.Validity.{ascends_within, signers_of};
ghost use Rattle.simulation.specs.Lies.{lying_ack, lying_lock, lying_report};

use ledger_model::{Ack, Batches, Lock, LockProof, Report, SignedReport};
use scenario_texts::Lie;
use std::alloc::{AllocError, Global};

/// Shows the proof that the height, the phase and the liar can be encoded, which their types guarantee. At run time it
/// only reads them.
fn show_place(lie: &Lie)
    ensures { IsPlace lie.now.height lie.now.phase lie.now.liar }
{
    let _ = (lie.height.number(), lie.phase.number(), lie.liar.number());
}

/// Shows the proof that statements of the lie's version can contain its batch, which their types guarantee. At run time it only
/// looks at the batch.
fn show_batch(lie: &Lie)
    ensures { IsValueIn lie.now.version lie.now.batch }
{
    let _ = lie.batch.transactions();
}

/// The report of a lie: the batch is its initial value and its only proper value, and it lists no lock.
pub(crate) fn report_of(alloc: Global, lie: &Lie) -> Result<Report, AllocError>
    ensures report { IfOk result (λ report. report ≡ lying_report lie.now) }
    ensures spelled { IfOk result (λ report. IsReport report) }
{
    show_place(lie);
    show_batch(lie);
    let proper = lie.batch.copy()?;
    Ok(Report {
        version: lie.version,
        height: lie.height,
        phase: lie.phase,
        signer: lie.liar,
        all: false,
        initial: lie.batch.copy()?,
        proper: Batches::new(vec![in alloc; proper]?),
        locked: Batches::new(Vec::new(alloc)),
    })
}

/// The acknowledgement of a lie.
pub(crate) fn ack_of(lie: &Lie) -> Result<Ack, AllocError>
    ensures ack { IfOk result (λ ack. ack ≡ lying_ack lie.now) }
    ensures spelled { IfOk result (λ ack. IsAck ack) }
{
    show_place(lie);
    show_batch(lie);
    Ok(Ack {
        version: lie.version,
        height: lie.height,
        phase: lie.phase,
        signer: lie.liar,
        value: lie.batch.copy()?,
    })
}

/// The lock of a lie, with this proof: from 3 to 12 reports of ascending signers.
pub(crate) fn lock_of(lie: &Lie, proof: Vec<SignedReport>) -> Result<Lock, AllocError>
    requires count { (3 ≤ length proof.items) × (length proof.items ≤ 12) }
    requires each { AllByRecursion (IsSignedReport lie.now.version) proof.items }
    requires signers { IsTrue (ascends_within 0 256 (signers_of proof.items)) }
    ensures lock { IfOk result (λ lock. lock ≡ lying_lock lie.now proof.items) }
    ensures spelled { IfOk result (λ lock. IsLock lock) }
{
    show_place(lie);
    show_batch(lie);
    Ok(Lock {
        version: lie.version,
        height: lie.height,
        phase: lie.phase,
        signer: lie.liar,
        value: lie.batch.copy()?,
        proof: LockProof::new(proof),
    })
}
