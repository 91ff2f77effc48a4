//! The locks that replicas hold, as the frames show that they send.
ghost use Rattle.std.specs.Prelude.{◌≡◌, ◌∷◌, ◌++◌, [], map, OnOk, IfOk};
ghost use Rattle.ledger_model.specs.Logs.{height_of};
ghost use Rattle.run_picture.specs.declared.entry_facts.Fact.TheVariants.{Holds};
ghost use Rattle.run_picture.specs.Facts.{mark_of, locks_shown, locks_in_frame, locks_held};

use crate::entry_facts::{Fact, Mark};
use crate::part::Moment;
use crate::sent_frames::SentFrame;
use ledger_model::{Batch, Height, Place, Statement, place_of};
use std::alloc::{AllocError, Global};

/// Appends a lock on the value.
fn add_lock(
    out: &mut Vec<Mark>,
    at: &Moment,
    height: Height,
    value: &Batch,
) -> Result<(), AllocError>
    ensures { OnOk result (out.new.items ≡ out.old.items ++ mark_of at.now height (Holds value.now) ∷ []) }
{
    let fact = Fact::Holds(value.copy()?);
    out.push(Mark {
        at: *at,
        height,
        fact,
    })?;
    Ok(())
}

/// Appends a lock on each of the values.
fn add_locks(
    out: &mut Vec<Mark>,
    at: &Moment,
    height: Height,
    values: &[Batch],
) -> Result<(), AllocError>
    ensures { OnOk result (out.new.items ≡ out.old.items ++ map (λ v. mark_of at.now height (Holds v)) values.now) }
{
    for value in values {
        add_lock(out, at, height, value)?;
    }
    Ok(())
}

/// Appends the locks that a statement shows its sender to hold: those that a report lists, and the lock that is sent on in a
/// lock-release round.
fn add_shown(out: &mut Vec<Mark>, at: &Moment, statement: &Statement) -> Result<(), AllocError>
    ensures { OnOk result (out.new.items ≡ out.old.items ++ locks_shown at.now statement.now) }
{
    match statement {
        Statement::Report(report) => add_locks(out, at, report.height, report.locked.as_slice()),
        Statement::Lock(lock) => match place_of(u64::from(at.round)) {
            Place::Release => add_lock(out, at, lock.height, &lock.value),
            _ => Ok(()),
        },
        Statement::Ack(_) => Ok(()),
    }
}

/// Appends the locks that a frame shows its sender to hold.
fn add_frame(out: &mut Vec<Mark>, sent: &SentFrame) -> Result<(), AllocError>
    ensures { OnOk result (out.new.items ≡ out.old.items ++ locks_in_frame sent.now.at sent.now.statement) }
{
    match &sent.statement {
        Some(statement) => add_shown(out, &sent.at, statement),
        None => Ok(()),
    }
}

/// The locks that these frames show their senders to hold, in the order of the frames. The only error is allocation failure.
pub(crate) fn locks_held(alloc: Global, sent: &[SentFrame]) -> Result<Vec<Mark>, AllocError>
    ensures { IfOk result (λ marks. marks.items ≡ locks_held sent.now) }
{
    let mut marks = Vec::new(alloc);
    for frame in sent {
        add_frame(&mut marks, frame)?;
    }
    Ok(marks)
}
