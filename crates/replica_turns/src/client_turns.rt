//! What a client asks of a running replica, and how much of the replica's history clients may use.
ghost use Rattle.std.specs.Prelude.{◌≡◌, ◌⊎◌, ◌≤◌, ◌+◌, ◌↔◌, ◌∷◌, [], Ok, Some, true, length, slice_get, ◌<◌, IfOk, OnOk, OnErr, IsErrOf};
ghost use Rattle.ledger_model.specs.Commits.{commits_of, submit_reply};
ghost use Rattle.ledger_model.specs.Replies.{query_reply};
ghost use Rattle.ledger_model.specs.declared.event.Event.TheVariants as events;
ghost use Rattle.locked_replica.specs.Applying.{AppliesEvent, AppliesEach, IsSound};
ghost use Rattle.replica_turns.specs.Clients.{IsAnsweredQuery, IsReceipt, is_tx_len, query_reply_at, submit_events, with_index};
ghost use Rattle.ledger_model.specs.Limits.{max_history_len};

use abci::Application;
use bytes::Bytes;
use ledger_model::{ApplyFault, Event, Height, Key, QueryAnswer, SubmitRefusal, Tx};
use locked_replica::{MAX_ENTRIES, ReplyView, State};
use std::alloc::{AllocError, Global};
use std::marker::Model;

/// The number of entries of a replica's history that its clients may still use. Each transaction that they submit uses
/// one, and so does each query.
#[derive(Drop)]
pub struct ClientEntries {
    left: u32,
}

impl Model for ClientEntries {
    ghost use Rattle.std.specs.Prelude.{ℕ};

    ghost Value = { ℕ };

    ghost view = { λ e. e.left };
}

impl ClientEntries {
    ghost use Rattle.std.specs.Prelude.{◌≡◌, ◌≤◌, ◌<◌, ◌-◌};

    /// `count` entries, all unused.
    pub fn new(count: u32) -> Self
        ensures { result ≡ count }
    {
        ClientEntries { left: count }
    }

    /// The number of entries that are left.
    pub fn left(&self) -> u32
        ensures { result ≡ self.now }
    {
        self.left
    }

    /// Uses one entry.
    fn use_one(&mut self)
        requires { 1 ≤ self.old }
        ensures { self.new ≡ self.old - 1 }
    {
        self.left -= 1;
    }
}

/// Submits a client's transaction as an event of the replica, and returns the answer of its pool. The only error is
/// allocation failure.
fn submit_event<A: Application>(
    alloc: Global,
    state: &mut State<A>,
    tx: &[u8],
) -> Result<Result<u32, SubmitRefusal>, ApplyFault>
    requires { length state.old.entries < max_history_len }
    ensures answer { IfOk result (λ answer. answer ≡ with_index (length state.old.entries)
        (submit_reply A.meaning state.old.config state.old.id state.old.entries tx.now)) }
    ensures receipt { IfOk result (λ answer. IsReceipt state.new.entries tx.now answer) }
    ensures applied { OnOk result (AppliesEvent A.meaning state.old (events.Submit tx.now) state.new) }
    ensures sound { OnOk result (IsSound A.meaning state.new) }
    ensures memory { OnErr result (IsErrOf result ApplyFault.NoMemory) }
    ensures same { OnErr result (state.new ≡ state.old) }
{
    let bytes = Bytes::copy_from_slice(alloc, tx)?;
    let index = state.apply(Event::Submit(bytes))?;
    match state.entry(index) {
        Some(entry) => match entry.reply() {
            ReplyView::Submitted(Ok(())) => Ok(Ok(index as u32)),
            ReplyView::Submitted(Err(refusal)) => Ok(Err(refusal)),
            _ => unreachable!(),
        },
        None => unreachable!(),
    }
}

/// Submits a client's transaction to the replica. If the pool takes it, returns the index of its entry in the history. The
/// inner `Err` is the pool's refusal.
///
/// Bytes that no pool takes (none, or more than 64) are refused without an event. `HistoryFull` comes if an event is needed
/// and there is no entry for it: clients have used theirs up, or the history is full. After a fault nothing has changed.
pub fn submit<A: Application>(
    alloc: Global,
    state: &mut State<A>,
    entries: &mut ClientEntries,
    tx: &[u8],
) -> Result<Result<u32, SubmitRefusal>, ApplyFault>
    ensures answer { IfOk result (λ answer. answer ≡ with_index (length state.old.entries)
        (submit_reply A.meaning state.old.config state.old.id state.old.entries tx.now)) }
    // The entry with the index is the Submit of these bytes that the pool took.
    ensures receipt { IfOk result (λ answer. IsReceipt state.new.entries tx.now answer) }
    ensures applied { OnOk result (AppliesEach A.meaning state.old (submit_events tx.now) state.new) }
    // Each new entry of the history is one that clients may use.
    ensures used { length state.new.entries + entries.new ≡ length state.old.entries + entries.old }
    ensures full { IsErrOf result ApplyFault.HistoryFull
        ↔ ((is_tx_len tx.now ≡ true) × ((entries.old ≡ 0) ⊎ (max_history_len ≤ length state.old.entries))) }
    ensures same_state { OnErr result (state.new ≡ state.old) }
    ensures same_entries { OnErr result (entries.new ≡ entries.old) }
    // Bytes that no pool takes always get an answer.
    ensures needed { OnErr result (is_tx_len tx.now ≡ true) }
    ensures sound { IsSound A.meaning state.new }
    // A client's transaction uses no signature.
    ensures leaves { state.new.used ≡ state.old.used }
{
    let len = state.len();
    if tx.is_empty() {
        return Ok(Err(SubmitRefusal::Empty));
    }
    if tx.len() > Tx::MAX_LEN {
        return Ok(Err(SubmitRefusal::TooLong));
    }
    if entries.left() == 0 || len >= MAX_ENTRIES {
        return Err(ApplyFault::HistoryFull);
    }
    let answer = submit_event(alloc, state, tx)?;
    entries.use_one();
    Ok(answer)
}

/// The answer to the query at this index of the history. The only error is allocation failure.
fn answer_at<A: Application>(state: &State<A>, index: usize) -> Result<QueryAnswer, AllocError>
    requires { IsAnsweredQuery (slice_get state.now.entries index) }
    ensures { IfOk result (λ answer. query_reply_at (slice_get state.now.entries index) ≡ Some (Ok answer)) }
{
    match state.entry(index) {
        Some(entry) => match entry.reply() {
            ReplyView::Queried(Ok(answer)) => answer.copy(),
            _ => unreachable!(),
        },
        None => unreachable!(),
    }
}

/// Queries the replica's application for a client, as of its last block.
///
/// `HistoryFull` comes if there is no entry for the query: clients have used theirs up, or the history is full. Then
/// nothing has changed. After `NoMemory` the query may be in the history, although its answer could not be returned.
pub fn query<A: Application>(
    state: &mut State<A>,
    entries: &mut ClientEntries,
    key: Key,
) -> Result<QueryAnswer, ApplyFault>
    ensures answer { IfOk result (λ answer. Ok answer ≡ query_reply A.meaning state.old.config.kind
        (commits_of state.old.config state.old.id state.old.entries) key 0) }
    ensures applied { OnOk result (AppliesEvent A.meaning state.old (events.Query key 0) state.new) }
    ensures fault { OnErr result ((state.new ≡ state.old) ⊎ AppliesEvent A.meaning state.old (events.Query key 0) state.new) }
    // Each new entry of the history is one that clients may use.
    ensures used { length state.new.entries + entries.new ≡ length state.old.entries + entries.old }
    ensures full { IsErrOf result ApplyFault.HistoryFull ↔ ((entries.old ≡ 0) ⊎ (max_history_len ≤ length state.old.entries)) }
    ensures same { IsErrOf result ApplyFault.HistoryFull → state.new ≡ state.old }
    ensures sound { IsSound A.meaning state.new }
    // A client's query uses no signature.
    ensures leaves { state.new.used ≡ state.old.used }
{
    let len = state.len();
    if entries.left() == 0 || len >= MAX_ENTRIES {
        return Err(ApplyFault::HistoryFull);
    }
    let index = state.apply(Event::Query(key, Height::new(0)))?;
    entries.use_one();
    Ok(answer_at(state, index)?)
}
