//! How histories of a simulation are handed in: whole, cut, changed.
use crate::fault::Fault;
use crate::playing::history_of;
use app_kinds::AnyKind;
use ledger_model::{Entries, Entry, History, Ignored, Reply};
use simulation::Simulation;
use std::alloc::{AllocError, Global};

/// How a history is handed in.
#[derive(Clone, Copy)]
pub(crate) enum Part {
    Whole,
    /// Its first entries.
    Cut(usize),
    /// This entry's reply is that the frame is ignored as repeated.
    Changed(usize),
    /// Without this entry.
    Dropped(usize),
    /// With this entry twice.
    Twice(usize),
}

/// A copy of the entry.
fn copied(entry: &Entry) -> Result<Entry, AllocError> {
    Ok(Entry {
        event: entry.event.copy()?,
        reply: entry.reply.copy()?,
    })
}

/// The entries with this index, as the part has them.
fn add_entry(
    entries: &mut Vec<Entry>,
    part: Part,
    index: usize,
    entry: &Entry,
) -> Result<(), AllocError> {
    let copy = copied(entry)?;
    match part {
        Part::Cut(len) if index >= len => {}
        Part::Dropped(at) if index == at => {}
        Part::Changed(at) if index == at => {
            let reply = Reply::Delivered(Err(Ignored::Repeated));
            entries.push(Entry {
                event: copy.event,
                reply,
            })?;
        }
        Part::Twice(at) if index == at => {
            entries.push(copy)?;
            entries.push(copied(entry)?)?;
        }
        _ => entries.push(copy)?,
    }
    Ok(())
}

/// The history as it is handed in.
pub(crate) fn part_of(alloc: Global, whole: &History, part: Part) -> Result<History, AllocError> {
    let mut entries = Vec::new(alloc);
    for (index, entry) in whole.entries.as_slice().iter().enumerate() {
        add_entry(&mut entries, part, index, entry)?;
    }
    Ok(History {
        replica: whole.replica,
        entries: Entries::new(entries),
    })
}

/// These histories of a simulation, as they are handed in.
pub(crate) fn handed_in(
    alloc: Global,
    simulation: &Simulation<AnyKind>,
    parts: &[(u8, Part)],
) -> Result<Vec<History>, Fault> {
    let mut histories = Vec::new(alloc);
    for (replica, part) in parts {
        let snapshot = history_of(simulation, *replica)?;
        histories.push(part_of(alloc, &snapshot.history, *part)?)?;
    }
    Ok(histories)
}
