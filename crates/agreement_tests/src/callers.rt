//! What callers can derive from the public clauses alone: a reader knows the cluster, a sender frames what is planned,
//! what is sent on is signed, and a follower closes a round with what another replica chose.

ghost use Rattle.std.specs.Prelude.{◌≡◌, ◌<◌, ◌≤◌, ◌+◌, List, Some, is_some, true, false, IfOk, IfSome, IsTrue};
ghost use Rattle.ledger_model.specs.Limits.{last_round};
ghost use Rattle.ledger_model.specs.Notes.{Note, clock_of, signer_of, version_of};
ghost use Rattle.ledger_model.specs.Versions.{reads};
ghost use Rattle.ledger_model.specs.Logs.{height_of};
ghost use Rattle.ledger_model.specs.Rules.{answer_to, is_signed};
ghost use Rattle.ledger_model.specs.Reading.{reading};
ghost use Rattle.ledger_model.specs.Spelling.{IsStatement};
ghost use Rattle.ledger_model.specs.declared.statement.SignedStatement.{SignedStatement};
ghost use Rattle.instance.specs.Instances.{InstanceView};
ghost use Rattle.instance.specs.Matching.{MatchesLog};
ghost use Rattle.instance.specs.Laws.{opened_by};
ghost use Rattle.instance.specs.declared.round_statement.RoundStatement.TheVariants as made;
ghost use Rattle.height_row.specs.Heights.{row_at};

use bytes::Bytes;
use height_row::HeightRow;
use instance::{Instance, OwnFrame, RoundPlan, RoundStatement};
use key_ring::{KeyRing, Signer};
use ledger_model::{Ignored, Statement, Version};
use lock_proofs::is_signed;
use signed_frames::{Frame, UnsignedFrame};
use statements::DecodeFault;
use std::alloc::{AllocError, Global};

/// Reads a frame of an open height. The answer is that of the definitions for the cluster of the row, whatever the height.
pub(crate) fn reads_in_the_cluster(
    alloc: Global,
    row: &mut HeightRow,
    ring: &KeyRing,
    frame: Frame,
    clock: u32,
) -> Result<Result<(), Ignored>, AllocError>
    requires signer { signer_of frame.statement < row.old.config.replicas }
    requires open { is_some (row_at row.old.rows (height_of frame.statement)) ≡ true }
    requires version { IsTrue (reads row.old.config.frames (version_of frame.statement)) }
    requires clock { clock ≤ last_round }
    ensures { IfOk result (λ r. (kept : InstanceView) → row_at row.old.rows (height_of frame.statement) ≡ Some kept → (log : List Note)
        → MatchesLog ring.now kept log → clock_of log ≡ clock → r ≡ answer_to row.old.config ring.now log frame) }
{
    let _ = row.get(frame.statement().height());
    row.read(alloc, ring, frame, clock)
}

// The statement that is planned, if any is.
fn planned(alloc: Global, instance: &Instance, clock: u32) -> Option<Statement>
    requires clock { clock < last_round }
    ensures spelled { IfSome result IsStatement }
    ensures own { IfSome result (λ s. signer_of s ≡ instance.now.id) }
{
    match instance.plan_end(alloc, clock) {
        Ok(RoundPlan { statement, .. }) => statement,
        Err(_) => None,
    }
}

/// Signs and frames the planned statement, if there is one. No log is needed.
pub(crate) fn frame_of_plan(
    alloc: Global,
    instance: &Instance,
    signer: &mut Signer,
    clock: u32,
) -> Option<Frame>
    requires clock { clock < last_round }
    ensures { IfSome result (λ frame. signer_of frame.statement ≡ instance.now.id) }
{
    let statement = planned(alloc, instance, clock)?;
    let Ok(unsigned) = UnsignedFrame::new(alloc, statement) else {
        return None;
    };
    let Ok(signature) = signer.sign(alloc, unsigned.statement_bytes()) else {
        return None;
    };
    unsigned.with_signature(&signature).ok()
}

// Whether the frame with these bytes is signed. It always is, if they encode a signed statement.
fn is_signed_frame(alloc: Global, ring: &KeyRing, bytes: &Bytes) -> Result<bool, AllocError>
    requires signed { (s : SignedStatement) × ((reading bytes.now ≡ Some s) × (is_signed ring.now s ≡ true)) }
    ensures { IfOk result (λ yes. yes ≡ true) }
{
    match Frame::parse_in(Version::Two, alloc, bytes.clone()?) {
        Ok(frame) => Ok(is_signed(ring, &frame)),
        Err(DecodeFault::Malformed) => Ok(false),
        Err(DecodeFault::NoMemory) => Err(AllocError),
    }
}

/// Whether the first frame that is sent on, if there is one, is a signed lock. It always is, if the height matches some log.
pub(crate) fn sends_on_signed_locks(
    alloc: Global,
    instance: &Instance,
    ring: &KeyRing,
    clock: u32,
) -> Result<bool, AllocError>
    requires clock { clock < last_round }
    requires matched { (log : List Note) × MatchesLog ring.now instance.now log }
    ensures { IfOk result (λ yes. yes ≡ true) }
{
    let ending = instance.prepare_end(alloc, clock)?;
    match ending.sends_on().first() {
        Some(bytes) => is_signed_frame(alloc, ring, bytes),
        None => Ok(true),
    }
}

/// Closes the round with what the replica with this number chose, if it may, and returns whether it did.
pub(crate) fn closes_with(
    alloc: Global,
    instance: &mut Instance,
    ring: &KeyRing,
    frame: Frame,
    clock: u32,
) -> Result<bool, AllocError>
    requires clock { clock < last_round }
    // If it did, the height then matches every log that it matched before, continued with that statement.
    ensures follows { IfOk result (λ yes. yes ≡ true → (log : List Note) → MatchesLog ring.now instance.old log → clock_of log ≡ clock
        → MatchesLog ring.now instance.new (opened_by instance.old log (clock + 1) (made.Sent frame))) }
    // If it did not, nothing changed.
    ensures refuses { IfOk result (λ yes. yes ≡ false → instance.new ≡ instance.old) }
{
    if !instance.may_make(clock, Some(frame.statement())) || !is_signed(ring, &frame) {
        return Ok(false);
    }
    let made = RoundStatement::Sent(OwnFrame::new(alloc, frame)?);
    let ending = instance.prepare_end(alloc, clock)?;
    instance.close(ending, made, clock);
    Ok(true)
}
