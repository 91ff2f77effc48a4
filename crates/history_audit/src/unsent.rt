//! Finds the first accepted statement that its signer's history doesn't send.
ghost use Rattle.std.specs.Prelude.{◌≡◌, ◌∷◌, None, Some, true, map, IfOk, if◌then◌else◌};
ghost use Rattle.ledger_model.specs.declared.history.History.{History as HistoryValue};
ghost use Rattle.ledger_model.specs.Audits.{all_differ, are_of_a_quorum, lacks, unsent_in};
ghost use Rattle.ledger_model.specs.Groups.{history_of};
ghost use Rattle.signed_frames.specs.Lending.{lent_of, own_part, proof_of};
ghost use Rattle.history_audit.specs.Tables.{IsTableOf, lacks_part};
ghost use Rattle.history_audit.specs.Searches.{IsLeast, AnswersSearch, AnswersReader, FindsUnsent, with_signer, least_unsent, accepted_frame};

use crate::fault::AuditFault;
use crate::sent_table::SentTable;
use bytes::Bytes;
use ledger_model::{
    Config, Entry, Event, History, ReplicaId, Reply, Version, has_history, history_of,
};
use signed_frames::{Frame, SignedPart};
use statements::DecodeFault;
use std::alloc::{AllocError, Global};

/// Where a history first accepts a statement that its signer's history doesn't send: the index of the entry, and the signer.
#[derive(Clone, Copy)]
struct UnsentAt {
    index: usize,
    signer: ReplicaId,
}

/// Whether the replica's history was handed in and doesn't send the statement.
fn is_lacked(
    histories: &[History],
    table: &SentTable,
    replica: ReplicaId,
    statement: &Bytes,
) -> Result<bool, AllocError>
    requires table { IsTableOf histories.now table.now }
    requires different { all_differ (map (λ (m : HistoryValue). m.replica) histories.now) ≡ true }
    ensures { IfOk result (λ lacked. lacked ≡ lacks (history_of histories.now replica) statement.now) }
{
    if !has_history(histories, replica) {
        return Ok(false);
    }
    Ok(!table.has(replica, statement)?)
}

/// The lesser of the two.
fn lesser(least: Option<ReplicaId>, signer: ReplicaId) -> ReplicaId
    ensures { Some result ≡ with_signer least signer }
{
    match least {
        Some(other) if other.number() <= signer.number() => other,
        _ => signer,
    }
}

/// The lesser of the least signer so far and the signer of this part, if the signer's history lacks the part.
fn with_part(
    histories: &[History],
    table: &SentTable,
    least: Option<ReplicaId>,
    part: &SignedPart<'_>,
) -> Result<Option<ReplicaId>, AllocError>
    requires table { IsTableOf histories.now table.now }
    requires different { all_differ (map (λ (m : HistoryValue). m.replica) histories.now) ≡ true }
    ensures { IfOk result (λ new. new ≡ (if lacks_part histories.now part.now then with_signer least part.now.signer else least)) }
{
    let signer = part.signer();
    if is_lacked(histories, table, signer, &part.share_message()?)? {
        return Ok(Some(lesser(least, signer)));
    }
    Ok(least)
}

/// The least signer of a part of the frame whose history was handed in and doesn't send that part.
fn least_in_frame(
    histories: &[History],
    table: &SentTable,
    frame: &Frame,
) -> Result<Option<ReplicaId>, AllocError>
    requires table { IsTableOf histories.now table.now }
    requires different { all_differ (map (λ (m : HistoryValue). m.replica) histories.now) ≡ true }
    ensures { IfOk result (λ least. least ≡ least_unsent histories.now None (own_part frame.now ∷ map lent_of (proof_of frame.now.statement))) }
{
    let mut least = with_part(histories, table, None, &frame.signed_part())?;
    for part in frame.lent_reports() {
        least = with_part(histories, table, least, &part)?;
    }
    Ok(least)
}

/// The frame that the entry accepts, if it accepts one. The only error is allocation failure.
fn accepted(alloc: Global, entry: &Entry) -> Result<Option<Frame>, AllocError>
    ensures { IfOk result (λ frame. frame ≡ accepted_frame entry.now.event entry.now.reply) }
{
    let (Event::Deliver(bytes), Reply::Delivered(Ok(()))) = (&entry.event, &entry.reply) else {
        return Ok(None);
    };
    match Frame::parse_in(Version::Two, alloc, bytes.clone()?) {
        Ok(frame) => Ok(Some(frame)),
        Err(DecodeFault::Malformed) => Ok(None),
        Err(DecodeFault::NoMemory) => Err(AllocError),
    }
}

/// The least signer whose statement the entry accepts though the signer's history, which was handed in, doesn't send it.
fn least_at(
    alloc: Global,
    histories: &[History],
    table: &SentTable,
    entry: &Entry,
) -> Result<Option<ReplicaId>, AllocError>
    requires table { IsTableOf histories.now table.now }
    requires different { all_differ (map (λ (m : HistoryValue). m.replica) histories.now) ≡ true }
    ensures { IfOk result (λ least. IsLeast (unsent_in histories.now entry.now) least) }
{
    match accepted(alloc, entry)? {
        Some(frame) => least_in_frame(histories, table, &frame),
        None => Ok(None),
    }
}

/// The first of these entries that accepts such a statement, with the least signer there.
fn first_of(
    alloc: Global,
    histories: &[History],
    table: &SentTable,
    entries: &[Entry],
) -> Result<Option<UnsentAt>, AllocError>
    requires table { IsTableOf histories.now table.now }
    requires different { all_differ (map (λ (m : HistoryValue). m.replica) histories.now) ≡ true }
    ensures { IfOk result (AnswersSearch histories.now entries.now) }
{
    for (index, entry) in entries.iter().enumerate() {
        if let Some(signer) = least_at(alloc, histories, table, entry)? {
            return Ok(Some(UnsentAt { index, signer }));
        }
    }
    Ok(None)
}

/// The same of the reader's history, if it was handed in.
fn first_of_reader(
    alloc: Global,
    histories: &[History],
    table: &SentTable,
    reader: ReplicaId,
) -> Result<Option<UnsentAt>, AllocError>
    requires table { IsTableOf histories.now table.now }
    requires different { all_differ (map (λ (m : HistoryValue). m.replica) histories.now) ≡ true }
    ensures { IfOk result (AnswersReader histories.now reader) }
{
    match history_of(histories, reader) {
        Some(history) => first_of(alloc, histories, table, history.entries.as_slice()),
        None => Ok(None),
    }
}

/// Searches the histories in the order of replicas. `Unsent` names the first such entry.
pub(crate) fn look_for_unsent(
    alloc: Global,
    config: &Config,
    histories: &[History],
    table: &SentTable,
) -> Result<(), AuditFault>
    requires table { IsTableOf histories.now table.now }
    requires count { are_of_a_quorum config.now histories.now ≡ true }
    ensures { FindsUnsent histories.now result }
{
    for number in 0..config.replicas {
        let reader = ReplicaId::new(number);
        if let Some(at) = first_of_reader(alloc, histories, table, reader)? {
            return Err(AuditFault::Unsent {
                reader,
                index: at.index,
                signer: at.signer,
            });
        }
    }
    Ok(())
}
