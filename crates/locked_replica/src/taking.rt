//! A replica takes one event: the core steps, and the entry and its strings are stored.
ghost use Rattle.std.specs.Prelude.{◌≡◌, ℕ, List, IfOk, OnErr};
ghost use Rattle.ledger_model.specs.declared.event.Event.TheVariants as event;
ghost use Rattle.ledger_model.specs.declared.reply.Reply.TheVariants.{Delivered};
ghost use Rattle.ledger_model.specs.declared.history.Entry.{Entry as EntryValue};
ghost use Rattle.replica_core.specs.Replays.{MatchesHistory};
ghost use Rattle.locked_replica.specs.Strings.{Extends};
ghost use Rattle.locked_replica.specs.StoredEntries.{IsTakenAs, LeavesCore, IsDelivered, BringsNone};

use crate::stored_entry::{StoredEntry, store_round_end};
use crate::string_table::StringTable;
use abci::Application;
use bytes::Bytes;
use ledger_model::{Entry, Event, Ignored, Reply};
use replica_core::Core;
use std::alloc::{AllocError, Global};

/// The answer in the reply to a delivery.
fn answer_in(reply: &Reply) -> Result<(), Ignored>
    requires { IsDelivered reply.now }
    ensures { reply.now ≡ Delivered result }
{
    match reply {
        Reply::Delivered(answer) => *answer,
        _ => unreachable!(),
    }
}

/// Takes bytes from the network: they go into the table first, and the core gets the table's own, so that what it keeps of a frame
/// shares them.
fn deliver<A: Application>(
    alloc: Global,
    core: &mut Core<A>,
    strings: &mut StringTable,
    bytes: Bytes,
) -> Result<StoredEntry, AllocError>
    requires { (entries : List EntryValue) × MatchesHistory A.meaning core.old.replay entries }
    ensures taken { IfOk result (IsTakenAs A.meaning core.old core.new strings.old strings.new (event.Deliver bytes)) }
    ensures err { OnErr result (core.new ≡ record core.old { keys = core.new.keys }) }
    ensures left { LeavesCore core.old core.new (event.Deliver bytes) }
    ensures kept { Extends strings.old strings.new }
{
    let position = strings.put(bytes)?;
    let shared = strings.string(position).clone()?;
    let reply = core.step(alloc, &Event::Deliver(shared))?;
    Ok(StoredEntry::Delivered(position, answer_in(&reply)))
}

/// Ends a round: its end is prepared, then its frames go into the table, and then it is finished, which takes no memory.
fn end_round<A: Application>(
    alloc: Global,
    core: &mut Core<A>,
    strings: &mut StringTable,
) -> Result<StoredEntry, AllocError>
    ensures taken { IfOk result (IsTakenAs A.meaning core.old core.new strings.old strings.new event.RoundEnd) }
    ensures err { OnErr result (core.new ≡ record core.old { keys = core.new.keys }) }
    ensures left { LeavesCore core.old core.new event.RoundEnd }
    ensures kept { Extends strings.old strings.new }
{
    match core.prepare_end(alloc)? {
        Ok(prepared) => {
            let ended = Box::new(alloc, store_round_end(alloc, strings, prepared.ended())?)?;
            let _ = core.finish_end(prepared);
            Ok(StoredEntry::RoundEnded(Ok(ended)))
        }
        Err(last) => Ok(StoredEntry::RoundEnded(Err(last))),
    }
}

/// Takes an event that brings no string. The block of its entry is allocated before the core steps.
fn take_other<A: Application>(
    alloc: Global,
    core: &mut Core<A>,
    event: Event,
) -> Result<StoredEntry, AllocError>
    requires none { BringsNone event }
    requires matches { (entries : List EntryValue) × MatchesHistory A.meaning core.old.replay entries }
    ensures taken { IfOk result (λ stored. (strings : List (List ℕ)) → IsTakenAs A.meaning core.old core.new strings strings event stored) }
    ensures err { OnErr result (core.new ≡ record core.old { keys = core.new.keys }) }
    ensures left { LeavesCore core.old core.new event }
{
    // The step's reply takes the place of this one.
    let reply = Reply::Delivered(Ok(()));
    let mut entry = Box::new(alloc, Entry { event, reply })?;
    entry.reply = core.step(alloc, &entry.event)?;
    Ok(StoredEntry::Other(entry))
}

/// Takes one event. If memory runs out, the table may have more strings than before.
fn take<A: Application>(
    alloc: Global,
    core: &mut Core<A>,
    strings: &mut StringTable,
    event: Event,
) -> Result<StoredEntry, AllocError>
    requires { (entries : List EntryValue) × MatchesHistory A.meaning core.old.replay entries }
    ensures taken { IfOk result (IsTakenAs A.meaning core.old core.new strings.old strings.new event) }
    ensures err { OnErr result (core.new ≡ record core.old { keys = core.new.keys }) }
    ensures left { LeavesCore core.old core.new event }
    ensures kept { Extends strings.old strings.new }
{
    match event {
        Event::Deliver(bytes) => deliver(alloc, core, strings, bytes),
        Event::RoundEnd => end_round(alloc, core, strings),
        other => take_other(alloc, core, other),
    }
}

/// Takes one event, and returns its entry. The only error is allocation failure; then nothing changed but the leaves that a round
/// end used.
pub(crate) fn take_event<A: Application>(
    alloc: Global,
    core: &mut Core<A>,
    strings: &mut StringTable,
    event: Event,
) -> Result<StoredEntry, AllocError>
    requires { (entries : List EntryValue) × MatchesHistory A.meaning core.old.replay entries }
    ensures taken { IfOk result (IsTakenAs A.meaning core.old core.new strings.old strings.new event) }
    ensures err { OnErr result (core.new ≡ record core.old { keys = core.new.keys }) }
    ensures strings_err { OnErr result (strings.new ≡ strings.old) }
    ensures left { LeavesCore core.old core.new event }
    ensures kept { Extends strings.old strings.new }
{
    let len = strings.len();
    match take(alloc, core, strings, event) {
        Ok(entry) => Ok(entry),
        Err(error) => {
            strings.truncate(len);
            Err(error)
        }
    }
}
