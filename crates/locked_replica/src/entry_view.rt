//! A borrowed view of an entry of a history.
ghost use Rattle.std.specs.Prelude.{◌≡◌};
ghost use Rattle.locked_replica.specs.StoredEntries.{EndsNone};
ghost use Rattle.locked_replica.specs.Views.{event_lent, reply_lent};

use crate::event_view::EventView;
use crate::reply_view::{ReplyView, RoundEndView};
use crate::stored_entry::StoredEntry;
use crate::string_table::StringTable;
use ledger_model::{Event, Reply};
use std::marker::Model;

/// A borrowed entry: an event and the reply to it. Contracts see an `Entry`.
#[derive(Drop)]
pub struct EntryView<'a> {
    entry: &'a StoredEntry,
    strings: &'a StringTable,
}

/// The event, borrowed.
fn lend_event(event: &Event) -> EventView<'_>
    ensures { event_lent result ≡ event.now }
{
    match event {
        Event::Submit(bytes) => EventView::Submit(bytes),
        Event::Propose(height) => EventView::Propose(*height),
        Event::Deliver(bytes) => EventView::Deliver(bytes),
        Event::RoundEnd => EventView::RoundEnd,
        Event::Execute => EventView::Execute,
        Event::Query(key, height) => EventView::Query(key.as_bytes(), *height),
        Event::Retire(floor) => EventView::Retire(*floor),
    }
}

/// The reply, borrowed.
fn lend_reply(reply: &Reply) -> ReplyView<'_>
    requires { EndsNone reply.now }
    ensures { reply_lent result ≡ reply.now }
{
    match reply {
        Reply::Submitted(answer) => ReplyView::Submitted(*answer),
        Reply::Proposed(Ok(batch)) => ReplyView::Proposed(Ok(batch)),
        Reply::Proposed(Err(refusal)) => ReplyView::Proposed(Err(*refusal)),
        Reply::Delivered(answer) => ReplyView::Delivered(*answer),
        Reply::RoundEnded(Ok(_)) => unreachable!(),
        Reply::RoundEnded(Err(last)) => ReplyView::RoundEnded(Err(*last)),
        Reply::Executed(Ok(block)) => ReplyView::Executed(Ok(block)),
        Reply::Executed(Err(nothing)) => ReplyView::Executed(Err(*nothing)),
        Reply::Queried(Ok(answer)) => ReplyView::Queried(Ok(answer)),
        Reply::Queried(Err(refusal)) => ReplyView::Queried(Err(*refusal)),
        Reply::Retired(answer) => ReplyView::Retired(*answer),
    }
}

impl<'a> Model for EntryView<'a> {
    ghost use Rattle.ledger_model.specs.declared.history.Entry.{Entry};

    ghost Value = { Entry };

    ghost use Rattle.std.specs.Prelude.{length};
    ghost use Rattle.locked_replica.specs.StoredEntries.{IsWithin, entry_of};

    ghost view = { λ v. entry_of v.strings.now v.entry.now };

    ghost invariant = { λ v. IsWithin (length v.strings.now) v.entry.now };
}

impl<'a> EntryView<'a> {
    ghost use Rattle.std.specs.Prelude.{◌≡◌, length};
    ghost use Rattle.locked_replica.specs.StoredEntries.{IsWithin, entry_of};
    ghost use Rattle.locked_replica.specs.Views.{event_lent, reply_lent};

    pub(crate) fn new(entry: &'a StoredEntry, strings: &'a StringTable) -> Self
        requires { IsWithin (length strings.now) entry.now }
        ensures { result ≡ entry_of strings.now entry.now }
    {
        EntryView { entry, strings }
    }

    /// The event.
    pub fn event(&self) -> EventView<'a>
        ensures { event_lent result ≡ self.now.event }
    {
        match self.entry {
            StoredEntry::Delivered(position, _) => EventView::Deliver(
                self.strings.string(*position),
            ),
            StoredEntry::RoundEnded(_) => EventView::RoundEnd,
            StoredEntry::Other(entry) => lend_event(&entry.event),
        }
    }

    /// The reply to the event.
    pub fn reply(&self) -> ReplyView<'a>
        ensures { reply_lent result ≡ self.now.reply }
    {
        match self.entry {
            StoredEntry::Delivered(_, answer) => ReplyView::Delivered(*answer),
            StoredEntry::RoundEnded(Ok(ended)) => {
                ReplyView::RoundEnded(Ok(RoundEndView::new(ended, self.strings)))
            }
            StoredEntry::RoundEnded(Err(last)) => ReplyView::RoundEnded(Err(*last)),
            StoredEntry::Other(entry) => lend_reply(&entry.reply),
        }
    }
}
