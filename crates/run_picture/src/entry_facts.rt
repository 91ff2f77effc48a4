//! What a replica does at a height, as its entries show it: it opens the height, or runs the block.
ghost use Rattle.std.specs.Prelude.{◌≡◌, ◌++◌, OnOk};
ghost use Rattle.run_picture.specs.Parts.{drawn_round};
ghost use Rattle.run_picture.specs.Facts.{facts_at, mark_in};

use crate::part::{Moment, Part};
use ledger_model::{Batch, Entry, Event, Height, ReplicaId, Reply};
use std::alloc::AllocError;

/// What a replica does at a height.
#[derive(Drop)]
pub enum Fact {
    /// It opens the height with this batch.
    Opens(Batch),
    /// It holds a lock on this batch, as a frame shows that it sends.
    Holds(Batch),
    /// It decides this batch.
    Decides(Batch),
    /// It runs the block.
    Runs,
    /// It retires the height.
    Retires,
}

/// What a replica does at a height, and where in the run.
#[derive(Drop)]
pub struct Mark {
    pub at: Moment,
    pub height: Height,
    pub fact: Fact,
}

/// Appends the mark, if the picture shows its round and height.
pub(crate) fn add_mark(
    out: &mut Vec<Mark>,
    part: &Part,
    replica: ReplicaId,
    index: usize,
    clock: u64,
    height: Height,
    fact: Fact,
) -> Result<(), AllocError>
    ensures { OnOk result (out.new.items ≡ out.old.items
        ++ mark_in part.now replica index (drawn_round part.now clock) height fact) }
{
    let Some(round) = part.drawn_round(clock) else {
        return Ok(());
    };
    if !part.has_height(height) {
        return Ok(());
    }
    let at = Moment {
        replica,
        entry: index,
        round,
    };
    out.push(Mark { at, height, fact })?;
    Ok(())
}

/// Appends what an entry does at a height, if it does one of these things and the picture shows it. The open round before the
/// entry is `clock`.
pub(crate) fn add_facts(
    out: &mut Vec<Mark>,
    part: &Part,
    replica: ReplicaId,
    index: usize,
    clock: u64,
    entry: &Entry,
) -> Result<(), AllocError>
    ensures { OnOk result (out.new.items ≡ out.old.items ++ facts_at part.now replica index clock entry.now) }
{
    match (&entry.event, &entry.reply) {
        (Event::Propose(height), Reply::Proposed(Ok(batch))) => {
            let fact = Fact::Opens(batch.copy()?);
            add_mark(out, part, replica, index, clock, *height, fact)
        }
        (_, Reply::Executed(Ok(block))) => {
            add_mark(out, part, replica, index, clock, block.height, Fact::Runs)
        }
        _ => Ok(()),
    }
}
