//! Turns of one replica: what they return, and what is in its history and on the board afterwards.
use crate::seated::{Seated, last_of_four};
use bytes::Bytes;
use ledger_model::{ApplyFault, Event, Height, Tx};
use locked_replica::{EventView, ReplyView};
use std::alloc::{AllocError, Global};
use std::random::RandomSource;
use std::test::Fail;

/// Whether the history has this number of entries, and nothing of its replica is published.
fn is_unpublished(seated: &mut Seated, entries: usize) -> bool {
    seated.state().len() == entries && seated.published() == 0
}

/// Whether these bytes were submitted and taken at this index of the history.
fn has_submitted(seated: &Seated, index: usize, bytes: &[u8]) -> bool {
    let Some(entry) = seated.state().entry(index) else {
        return false;
    };
    let EventView::Submit(given) = entry.event() else {
        return false;
    };
    given == bytes && matches!(entry.reply(), ReplyView::Submitted(Ok(())))
}

fn are_both(transactions: &[Tx]) -> bool {
    match transactions {
        [first, second] => first.as_bytes() == b"a=1".as_slice()
            && second.as_bytes() == b"b=2".as_slice(),
        _ => false,
    }
}

/// Whether a height was opened with both transactions at this index of the history.
fn has_opened(seated: &Seated, index: usize) -> bool {
    let Some(entry) = seated.state().entry(index) else {
        return false;
    };
    match entry.reply() {
        ReplyView::Proposed(Ok(batch)) => are_both(batch.transactions()),
        _ => false,
    }
}

/// Whether at this index of the history a block was to be run, and none was decided.
fn has_run_nothing(seated: &Seated, index: usize) -> bool {
    let Some(entry) = seated.state().entry(index) else {
        return false;
    };
    matches!(entry.event(), EventView::Execute)
        && matches!(entry.reply(), ReplyView::Executed(Err(_)))
}

/// Takes a turn with a transaction, and one with two events. Returns whether their entries start at 1 and at 2.
fn takes_two_turns(alloc: Global, seated: &mut Seated) -> Result<bool, Fail> {
    let first = seated.submit(alloc, Bytes::from_static(b"b=2"))?;
    let events = vec![in alloc; Event::Propose(Height::new(1)), Event::Execute]?;
    Ok(first == 1 && seated.turn(events) == Ok(2))
}

/// Whether the history is what these turns make of it.
fn has_both_turns(seated: &mut Seated) -> bool {
    has_submitted(seated, 0, b"a=1")
        && has_submitted(seated, 1, b"b=2")
        && has_opened(seated, 2)
        && has_run_nothing(seated, 3)
        && is_unpublished(seated, 4)
}

/// Whether a new replica takes these turns, and then has that history.
fn goes_through_two_turns<R: RandomSource>(rt: &R, alloc: Global) -> Result<bool, Fail> {
    let mut seated = last_of_four(rt, alloc)?;
    Ok(takes_two_turns(alloc, &mut seated)? && has_both_turns(&mut seated))
}

#[test]
fn a_turn_takes_its_events_in_order(rt: HostRuntime) -> Result<(), Fail> {
    assert!(rt; goes_through_two_turns(&rt, rt.alloc())?);
    Ok(())
}

/// `count` ends of rounds.
fn round_ends(alloc: Global, count: usize) -> Result<Vec<Event>, AllocError> {
    let mut events = Vec::with_capacity(alloc, count)?;
    for _ in 0..count {
        events.push(Event::RoundEnd)?;
    }
    Ok(events)
}

/// Fills the history except for one entry, and passes two events. Returns whether the turn is refused because the history is full.
fn is_refused_where_full(alloc: Global, seated: &mut Seated) -> Result<bool, Fail> {
    let is_filled = seated.turn(round_ends(alloc, 65_534)?) == Ok(1);
    let last = Event::Submit(Bytes::from_static(b"b=2"));
    let events = vec![in alloc; last, Event::RoundEnd]?;
    Ok(is_filled && seated.turn(events) == Err(ApplyFault::HistoryFull))
}

/// Whether a new replica fills its history so, and keeps what it took.
fn fills_its_history<R: RandomSource>(rt: &R, alloc: Global) -> Result<bool, Fail> {
    let mut seated = last_of_four(rt, alloc)?;
    let is_refused = is_refused_where_full(alloc, &mut seated)?;
    Ok(is_refused && has_submitted(&seated, 65_535, b"b=2") && is_unpublished(&mut seated, 65_536))
}

#[test]
fn a_turn_ends_where_the_history_is_full(rt: HostRuntime) -> Result<(), Fail> {
    assert!(rt; fills_its_history(&rt, rt.alloc())?);
    Ok(())
}
