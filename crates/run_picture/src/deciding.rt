//! What an entry decides: read from the replay before and after it.
ghost use Rattle.std.specs.Prelude.{◌≡◌, ◌++◌, [], List, IfOk, OnOk, if◌then◌else◌};
ghost use Rattle.std.specs.List.{flat_map};
ghost use Rattle.std.specs.Option.{option_copied};
ghost use Rattle.ledger_model.specs.declared.history.Entry.{Entry as EntryValue};
ghost use Rattle.ledger_model.specs.Commits.{decision_at};
ghost use Rattle.ledger_model.specs.Lawful.{is_opened};
ghost use Rattle.replica_core.specs.Replays.{MatchesHistory};
ghost use Rattle.replica_core.specs.Facts.{undecided_heights};
ghost use Rattle.run_picture.specs.Decisions.{mark_if};

use crate::entry_facts::{Fact, Mark, add_mark};
use crate::part::Part;
use abci::Application;
use ledger_model::{Batch, Height, ReplicaId, Reply, is_opened};
use replica_core::Replay;
use std::alloc::{AllocError, Global};

/// The heights at which an entry with this reply may decide, which comes next: the open ones that aren't decided, if it opens a round, and
/// otherwise none.
pub(crate) fn deciding_heights<A: Application>(
    alloc: Global,
    replay: &Replay<A>,
    reply: &Reply,
) -> Result<Vec<Height>, AllocError>
    // This holds for every history that the replay matches.
    ensures { IfOk result (λ heights. (front : List EntryValue) → MatchesHistory A.meaning replay.now front
        → heights.items ≡ (if is_opened reply.now then undecided_heights replay.now.config replay.now.id front else [])) }
{
    if is_opened(reply) {
        replay.undecided_heights(alloc)
    } else {
        Ok(Vec::new(alloc))
    }
}

/// Appends the mark of what is decided at a height, if something is and the picture shows it.
fn add_decision(
    out: &mut Vec<Mark>,
    part: &Part,
    replica: ReplicaId,
    index: usize,
    clock: u64,
    height: Height,
    decided: Option<&Batch>,
) -> Result<(), AllocError>
    ensures { OnOk result (out.new.items ≡ out.old.items ++ mark_if part.now replica index clock height (option_copied decided.entry)) }
{
    match decided {
        Some(batch) => {
            let fact = Fact::Decides(batch.copy()?);
            add_mark(out, part, replica, index, clock, height, fact)
        }
        None => Ok(()),
    }
}

/// Appends a mark for each of these heights at which something is decided, as far as the picture shows them.
pub(crate) fn add_decisions<A: Application>(
    out: &mut Vec<Mark>,
    part: &Part,
    replica: ReplicaId,
    index: usize,
    clock: u64,
    replay: &Replay<A>,
    heights: &[Height],
) -> Result<(), AllocError>
    // This holds for every history that the replay matches.
    ensures { OnOk result ((entries : List EntryValue) → MatchesHistory A.meaning replay.now entries
        → out.new.items ≡ out.old.items ++ flat_map (λ h. mark_if part.now replica index clock h
        (decision_at replay.now.config replay.now.id entries h)) heights.now) }
{
    for height in heights {
        add_decision(
            out,
            part,
            replica,
            index,
            clock,
            *height,
            replay.decided_at(*height),
        )?;
    }
    Ok(())
}
