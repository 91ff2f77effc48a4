//! Which parts of the frames that arrived are worth a check before the replica's turn.
ghost use Rattle.std.specs.Prelude.{◌≡◌, [], filter, map, IfOk, OnOk};
ghost use Rattle.std.specs.List.{filter_map, flat_map, list_any};
ghost use Rattle.ledger_model.specs.Reading.{reading_in};
ghost use Rattle.signed_frames.specs.Lending.{own_part};
ghost use Rattle.verify_cache.specs.Same.{same};
ghost use Rattle.verify_cache.specs.Verifiers.{check_of};
ghost use Rattle.replica_turns.specs.Arrivals.{distinct, with_bytes, with_part, with_unknown, is_checked, is_unknown, has_quorum, reports_of_signed};

use abci::Application;
use bytes::Bytes;
use ledger_model::{Config, Statement, Version};
use lock_proofs::is_quorate;
use locked_replica::State;
use signed_frames::{Frame, LentReports, SignedPart};
use statements::DecodeFault;
use std::alloc::{AllocError, Global};
use verify_cache::Verifier;

/// Puts the bytes at the end of the list, unless it has them.
fn put(once: &mut Vec<Bytes>, bytes: &Bytes) -> Result<(), AllocError>
    ensures { OnOk result (once.new.items ≡ with_bytes bytes.now once.old.items) }
{
    if !once.contains(bytes) {
        once.push(bytes.clone()?)?;
    }
    Ok(())
}

/// The different byte strings among these, in the order of their first occurrence. Many replicas send one lock on.
fn each_once(alloc: Global, arrived: &[Bytes]) -> Result<Vec<Bytes>, AllocError>
    ensures { IfOk result (λ once. once.items ≡ distinct arrived.now) }
{
    let mut once: Vec<Bytes> = Vec::new(alloc);
    for bytes in arrived {
        put(&mut once, bytes)?;
    }
    Ok(once)
}

/// The frames of this version among these bytes, in order, each once. Bytes that are no such frame are left out: a replica
/// ignores them as malformed. The only error is allocation failure.
pub fn arrived_frames(
    version: Version,
    alloc: Global,
    arrived: &[Bytes],
) -> Result<Vec<Frame>, AllocError>
    ensures { IfOk result (λ frames. frames.items ≡ filter_map (reading_in version) (distinct arrived.now)) }
{
    let once = each_once(alloc, arrived)?;
    let mut frames = Vec::with_capacity(alloc, once.len())?;
    for bytes in once {
        match Frame::parse_in(version, alloc, bytes) {
            Ok(frame) => frames.push(frame)?,
            Err(DecodeFault::Malformed) => (),
            Err(DecodeFault::NoMemory) => return Err(AllocError),
        }
    }
    Ok(frames)
}

/// Keeps the frames whose signature the replica would check if they were delivered to it now. It would ignore the others unchecked.
pub fn keep_checked<A: Application>(state: &State<A>, frames: &mut Vec<Frame>)
    ensures { frames.new.items ≡ filter (λ frame. is_checked state.now frame.statement) frames.old.items }
{
    frames.retain(|frame| state.cause_before_signature(frame).is_ok());
}

/// The frames' own parts of which the verifier doesn't know whether they are signed, in order. The only error is allocation
/// failure.
pub fn unknown_parts<'a>(
    alloc: Global,
    verifier: &Verifier,
    frames: &'a [Frame],
) -> Result<Vec<SignedPart<'a>>, AllocError>
    ensures { IfOk result (λ parts. parts.items ≡ filter (is_unknown verifier.now) (map own_part frames.now)) }
{
    let mut parts = Vec::new(alloc);
    for frame in frames {
        let part = frame.signed_part();
        if !verifier.knows(&part) {
            parts.push(part)?;
        }
    }
    Ok(parts)
}

/// Whether the two are by one signer, over the same bytes, with the same signature.
fn are_same(one: &SignedPart<'_>, other: &SignedPart<'_>) -> bool
    ensures { result ≡ same (check_of one.now) (check_of other.now) }
{
    one.signer() == other.signer()
        && one.message() == other.message()
        && one.signature() == other.signature()
}

/// Whether the part is among these.
fn is_there(once: &[SignedPart<'_>], part: &SignedPart<'_>) -> bool
    ensures { result ≡ list_any (λ q. same (check_of part.now) (check_of q)) once.now }
{
    once.iter().any(|other| are_same(part, other))
}

/// Puts the part at the end of the list, unless it is there.
fn put_part<'a>(once: &mut Vec<SignedPart<'a>>, part: SignedPart<'a>) -> Result<(), AllocError>
    ensures { OnOk result (once.new.items ≡ with_part part.entry once.old.items) }
{
    if !is_there(once, &part) {
        once.push(part)?;
    }
    Ok(())
}

/// Puts in each of the reports of which the verifier doesn't know whether it is signed.
fn put_unknown<'a>(
    once: &mut Vec<SignedPart<'a>>,
    verifier: &Verifier,
    reports: LentReports<'a>,
) -> Result<(), AllocError>
    ensures { OnOk result (once.new.items ≡ with_unknown verifier.now reports.entry once.old.items) }
{
    for report in reports {
        if !verifier.knows(&report) {
            put_part(once, report)?;
        }
    }
    Ok(())
}

/// Whether the statement is a lock whose proof is a quorum's.
fn has_quorum(config: &Config, statement: &Statement) -> bool
    ensures { result ≡ has_quorum config.now statement.now }
{
    match statement {
        Statement::Lock(lock) => is_quorate(config, lock),
        Statement::Report(_) | Statement::Ack(_) => false,
    }
}

/// The same for the reports in the proof of the frame, if the verifier knows that the frame is signed, and the proof is a
/// quorum's.
fn put_reports<'a>(
    once: &mut Vec<SignedPart<'a>>,
    config: &Config,
    verifier: &Verifier,
    frame: &'a Frame,
) -> Result<(), AllocError>
    ensures { OnOk result (once.new.items
        ≡ with_unknown verifier.now (reports_of_signed config.now verifier.now frame.now) once.old.items) }
{
    if verifier.answer(&frame.signed_part()) != Some(true) {
        return Ok(());
    }
    if !has_quorum(config, frame.statement()) {
        return Ok(());
    }
    put_unknown(once, verifier, frame.lent_reports())
}

/// The reports that the verifier doesn't know, each once, in the proofs of these locks: those that it knows to be signed, and whose
/// proofs are a quorum's. A replica that checks another lock looks at none of its reports' signatures. The only error is allocation
/// failure.
pub fn unknown_reports<'a>(
    alloc: Global,
    config: &Config,
    verifier: &Verifier,
    frames: &'a [Frame],
) -> Result<Vec<SignedPart<'a>>, AllocError>
    ensures { IfOk result (λ parts. parts.items
        ≡ with_unknown verifier.now (flat_map (reports_of_signed config.now verifier.now) frames.now) []) }
{
    let mut parts = Vec::new(alloc);
    for frame in frames {
        put_reports(&mut parts, config, verifier, frame)?;
    }
    Ok(parts)
}
