//! The words of titles.
ghost use Rattle.std.specs.Prelude.{◌≡◌, ◌++◌, OnOk};
ghost use Rattle.std.specs.Option.{option_copied};
ghost use Rattle.run_picture.specs.Words.{head_words, proper_words, report_words, lock_words, ack_words, statement_words, place_words, addressee_words, answer_words, source_words};

use crate::xml::{add, add_value, add_values};
use crate::{Moment, SentFrame};
use ledger_model::{Ack, Addressee, Height, Ignored, Lock, Phase, ReplicaId, Report, Statement};
use std::alloc::AllocError;

/// Appends `report of height 1 and phase 2 by replica 0`.
fn add_numbered(
    out: &mut Vec<u8>,
    kind: &str,
    height: u32,
    phase: u32,
    signer: u8,
) -> Result<(), AllocError>
    ensures { OnOk result (out.new.items ≡ out.old.items ++ head_words kind.now height phase signer) }
{
    let alloc = *out.allocator();
    let text = format!(in alloc;
        "{kind} of height {height} and phase {phase} by replica {signer}"
    )?;
    add(out, &text)
}

/// Appends the kind of a statement, its height, phase and signer.
fn add_head(
    out: &mut Vec<u8>,
    kind: &str,
    height: Height,
    phase: Phase,
    signer: ReplicaId,
) -> Result<(), AllocError>
    ensures { OnOk result (out.new.items ≡ out.old.items ++ head_words kind.now height phase signer) }
{
    add_numbered(out, kind, height.number(), phase.number(), signer.number())
}

/// Appends the proper values of a report.
fn add_proper(out: &mut Vec<u8>, report: &Report) -> Result<(), AllocError>
    ensures { OnOk result (out.new.items ≡ out.old.items ++ proper_words report.now.all report.now.proper) }
{
    if report.all {
        add(out, " every value")
    } else {
        add_values(out, report.proper.as_slice())
    }
}

/// Appends a report.
fn add_report(out: &mut Vec<u8>, report: &Report) -> Result<(), AllocError>
    ensures { OnOk result (out.new.items ≡ out.old.items ++ report_words report.now) }
{
    add_head(out, "report", report.height, report.phase, report.signer)?;
    add(out, "; initial ")?;
    add_value(out, &report.initial)?;
    add(out, "; proper")?;
    add_proper(out, report)?;
    add(out, "; locked")?;
    add_values(out, report.locked.as_slice())
}

/// Appends a lock.
fn add_lock(out: &mut Vec<u8>, lock: &Lock) -> Result<(), AllocError>
    ensures { OnOk result (out.new.items ≡ out.old.items ++ lock_words lock.now) }
{
    add_head(out, "lock", lock.height, lock.phase, lock.signer)?;
    add(out, " on ")?;
    add_value(out, &lock.value)
}

/// Appends an acknowledgement.
fn add_ack(out: &mut Vec<u8>, ack: &Ack) -> Result<(), AllocError>
    ensures { OnOk result (out.new.items ≡ out.old.items ++ ack_words ack.now) }
{
    add_head(out, "acknowledgement", ack.height, ack.phase, ack.signer)?;
    add(out, " of ")?;
    add_value(out, &ack.value)
}

/// Appends what a frame is: its statement, or that it is no frame.
pub(crate) fn add_statement(
    out: &mut Vec<u8>,
    statement: Option<&Statement>,
) -> Result<(), AllocError>
    ensures { OnOk result (out.new.items ≡ out.old.items ++ statement_words (option_copied statement.entry)) }
{
    match statement {
        None => add(out, "bytes that are no frame"),
        Some(Statement::Report(report)) => add_report(out, report),
        Some(Statement::Lock(lock)) => add_lock(out, lock),
        Some(Statement::Ack(ack)) => add_ack(out, ack),
    }
}

/// Appends `by replica 1 in round 3 (entry 17)`.
fn add_numbers(out: &mut Vec<u8>, replica: u8, round: u32, entry: usize) -> Result<(), AllocError>
    ensures { OnOk result (out.new.items ≡ out.old.items ++ place_words replica round entry) }
{
    let alloc = *out.allocator();
    let text = format!(in alloc; " by replica {replica} in round {round} (entry {entry})")?;
    add(out, &text)
}

/// Appends where in the run something is.
pub(crate) fn add_place(out: &mut Vec<u8>, at: &Moment) -> Result<(), AllocError>
    ensures { OnOk result (out.new.items ≡ out.old.items ++ place_words at.now.replica at.now.round at.now.entry) }
{
    add_numbers(out, at.replica.number(), at.round, at.entry)
}

/// Appends to whom a frame is sent.
pub(crate) fn add_addressee(out: &mut Vec<u8>, addressee: Addressee) -> Result<(), AllocError>
    ensures { OnOk result (out.new.items ≡ out.old.items ++ addressee_words addressee) }
{
    match addressee {
        Addressee::All => add(out, " to all others"),
        Addressee::One(replica) => {
            let number = replica.number();
            let alloc = *out.allocator();
            let text = format!(in alloc; " to replica {number}")?;
            add(out, &text)
        }
    }
}

/// Appends the answer to a delivered frame, up to who gave it.
pub(crate) fn add_answer(out: &mut Vec<u8>, answer: Result<(), Ignored>) -> Result<(), AllocError>
    ensures { OnOk result (out.new.items ≡ out.old.items ++ answer_words answer) }
{
    match answer {
        Ok(()) => add(out, "; accepted"),
        Err(cause) => {
            add(out, "; ignored for cause ")?;
            add(out, cause.text())
        }
    }
}

/// Appends where a delivered frame comes from.
pub(crate) fn add_source(out: &mut Vec<u8>, source: Option<&SentFrame>) -> Result<(), AllocError>
    ensures { OnOk result (out.new.items ≡ out.old.items ++ source_words (option_copied source.entry)) }
{
    match source {
        Some(sent) => {
            add(out, "; sent")?;
            add_place(out, &sent.at)
        }
        None => add(out, "; sent from outside the picture"),
    }
}
