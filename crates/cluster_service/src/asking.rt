//! One question of a client to a replica, with its answer for the session.
ghost use Rattle.std.specs.Prelude.{◌≡◌, ◌⊎◌, ◌≤◌, ◌<◌, ◌+◌, ◌↔◌, true, None, Ok, length, IfOk, IfSome, IfNone, OnOk, OnErr, IsErrOf};
ghost use Rattle.ledger_model.specs.Commits.{commits_of, submit_reply};
ghost use Rattle.ledger_model.specs.Replies.{query_reply};
ghost use Rattle.ledger_model.specs.declared.event.Event.TheVariants as events;
ghost use Rattle.replica_core.specs.Facts.{block_at};
ghost use Rattle.replica_turns.specs.Clients.{IsReceipt, is_tx_len, submit_events, with_index};
ghost use Rattle.locked_replica.specs.Applying.{AppliesEach, AppliesEvent};
ghost use Rattle.cluster_service.specs.Targets.{AnswersBlock, AnswersQuery, AnswersSubmit};
ghost use Rattle.ledger_model.specs.Limits.{max_history_len};

use abci::Application;
use ledger_model::{ApplyFault, Batch, Height, Key, QueryAnswer, SubmitRefusal};
use locked_replica::State;
use replica_turns::ClientEntries;
use std::alloc::{AllocError, Global};

/// Submits a transaction. If the pool takes it, returns the index of its entry in the history. The inner `Err` is the pool's refusal.
pub(crate) fn submit<A: Application>(
    alloc: Global,
    state: &mut State<A>,
    entries: &mut ClientEntries,
    tx: &[u8],
) -> Result<Result<u32, SubmitRefusal>, ApplyFault>
    ensures answer { IfOk result (λ answer. answer ≡ with_index (length state.old.entries)
        (submit_reply A.meaning state.old.config state.old.id state.old.entries tx.now)) }
    // The entry with the index is the Submit of these bytes that the pool took.
    ensures receipt { IfOk result (λ answer. IsReceipt state.new.entries tx.now answer) }
    ensures applied { OnOk result (AppliesEach A.meaning state.old (submit_events tx.now) state.new) }
    ensures used { length state.new.entries + entries.new ≡ length state.old.entries + entries.old }
    ensures full { IsErrOf result ApplyFault.HistoryFull
        ↔ ((is_tx_len tx.now ≡ true) × ((entries.old ≡ 0) ⊎ (max_history_len ≤ length state.old.entries))) }
    ensures same { OnErr result (state.new ≡ state.old) }
    // The result as a session sees it.
    ensures outcome { AnswersSubmit A.meaning tx.now result }
{
    replica_turns::submit(alloc, state, entries, tx)
}

/// The key of these bytes; `None` if there are too many for a key.
fn key_of(alloc: Global, bytes: &[u8]) -> Result<Option<Key>, AllocError>
    ensures some { IfOk result (λ key. IfSome key (λ k. k ≡ bytes.now)) }
    ensures none { IfOk result (λ key. IfNone key (64 < length bytes.now)) }
{
    Ok(Key::new(bytes.to_vec(alloc)?).ok())
}

/// Queries the application for a key, as of its last block. A key of more than 64 bytes has no value, and asking for it
/// adds no event.
///
/// After `HistoryFull` nothing has changed. After `NoMemory` the query may be in the history, although its answer could
/// not be returned.
pub(crate) fn query<A: Application>(
    alloc: Global,
    state: &mut State<A>,
    entries: &mut ClientEntries,
    key: &[u8],
) -> Result<QueryAnswer, ApplyFault>
    ensures answer { length key.now ≤ 64 → IfOk result (λ answer. Ok answer ≡ query_reply A.meaning state.old.config.kind
        (commits_of state.old.config state.old.id state.old.entries) key.now 0) }
    ensures applied { length key.now ≤ 64 → OnOk result (AppliesEvent A.meaning state.old (events.Query key.now 0) state.new) }
    ensures fault { OnErr result ((state.new ≡ state.old) ⊎ AppliesEvent A.meaning state.old (events.Query key.now 0) state.new) }
    ensures full { IsErrOf result ApplyFault.HistoryFull → (length key.now ≤ 64) × ((entries.old ≡ 0) ⊎ (max_history_len ≤ length state.old.entries)) }
    ensures same { IsErrOf result ApplyFault.HistoryFull → state.new ≡ state.old }
    ensures long { 64 < length key.now → IfOk result (λ answer. answer
        ≡ record { height = length (commits_of state.old.config state.old.id state.old.entries); value = None }) }
    ensures long_same { 64 < length key.now → state.new ≡ state.old }
    ensures used { length state.new.entries + entries.new ≡ length state.old.entries + entries.old }
    // The result as a session sees it.
    ensures outcome { AnswersQuery A.meaning key.now result }
{
    let Ok(key) = key_of(alloc, key) else {
        return Err(ApplyFault::NoMemory);
    };
    // The history is a replay: its length is read for the proof.
    let _ = state.len();
    let Some(key) = key else {
        return Ok(QueryAnswer {
            height: Height::new(state.height()),
            value: None,
        });
    };
    replica_turns::query(state, entries, key)
}

/// The batch that the replica committed at a height, copied. The only fault is allocation failure.
pub(crate) fn block<A: Application>(
    state: &State<A>,
    height: Height,
) -> Result<Option<Batch>, ApplyFault>
    ensures block { IfOk result (λ b. b ≡ block_at (commits_of state.now.config state.now.id state.now.entries) height) }
    // The result as a session sees it.
    ensures outcome { AnswersBlock A.meaning height result }
{
    // The history is a replay: its length is read for the proof.
    let _ = state.len();
    match state.block(height) {
        Some(batch) => match batch.copy() {
            Ok(batch) => Ok(Some(batch)),
            Err(_) => Err(ApplyFault::NoMemory),
        },
        None => Ok(None),
    }
}
