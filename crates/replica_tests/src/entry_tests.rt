//! The first entries of the history of the plain run.
use crate::fault::Fault;
use crate::playing::history_in;
use crate::scripts::PLAIN;
use ledger_model::{Entry, Event};
use std::alloc::Global;
use std::hash::RandomState;
use std::test::Fail;

/// The kind of an entry.
#[derive(Clone, Copy, PartialEq, Eq)]
enum Kind {
    Submit,
    Propose,
    RoundEnd,
    Report,
    Lock,
    Ack,
    Other,
}

use Kind::{Ack, Lock, Other, Propose, Report, RoundEnd, Submit};

/// The kinds of the first entries of replica 0's history.
const BEGINNING: [Kind; 17] = [
    Submit, Propose, RoundEnd, Report, Report, Report, RoundEnd, Lock, RoundEnd, RoundEnd, Lock,
    Lock, Lock, RoundEnd, Report, Report, Report,
];

/// The kind of a delivered frame, by the byte after the frame's length.
fn kind_of_frame(bytes: &[u8]) -> Kind {
    match bytes.get(4) {
        Some(1) => Report,
        Some(2) => Lock,
        Some(3) => Ack,
        _ => Other,
    }
}

fn kind_of(event: &Event) -> Kind {
    match event {
        Event::Submit(_) => Submit,
        Event::Propose(_) => Propose,
        Event::RoundEnd => RoundEnd,
        Event::Deliver(bytes) => kind_of_frame(bytes),
        Event::Execute | Event::Query(_, _) | Event::Retire(_) => Other,
    }
}

/// The index of the first entry that is of another kind or missing, if there is one.
fn first_other(entries: &[Entry]) -> Option<usize> {
    for (at, kind) in BEGINNING.iter().enumerate() {
        match entries.get(at) {
            Some(entry) if kind_of(&entry.event) == *kind => {}
            _ => return Some(at),
        }
    }
    None
}

/// The same for the history of replica 0 in the plain run.
fn first_other_of_plain_run(alloc: Global, random: RandomState) -> Result<Option<usize>, Fault> {
    let snapshot = history_in(alloc, random, PLAIN, 0)?;
    Ok(first_other(snapshot.history.entries.as_slice()))
}

#[test]
fn the_plain_run_begins_so(rt: HostRuntime) -> Result<(), Fail> {
    let random = RandomState::new(&rt)?;
    assert_eq!(rt; first_other_of_plain_run(rt.alloc(), random)?, None);
    Ok(())
}
