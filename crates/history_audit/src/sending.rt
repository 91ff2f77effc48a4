//! The statements of their own that histories send.
ghost use Rattle.std.specs.Prelude.{◌≡◌, ◌<◌, ◌∷◌, [], IfOk, OnOk};
ghost use Rattle.ledger_model.specs.Audits.{sends, own_sent};
ghost use Rattle.history_audit.specs.Tables.{Gains, IsTableOf, statements_of, statements_bytes};

use crate::sent_table::SentTable;
use ledger_model::{Entry, History, Place, ReplicaId, Reply, Sent, Version, is_opened, place_of};
use signed_frames::Frame;
use statements::DecodeFault;
use std::alloc::{AllocError, Global};
use std::hash::RandomState;

/// Adds the statement of a frame, if the bytes are one.
fn add_frame(
    alloc: Global,
    table: &mut SentTable,
    replica: ReplicaId,
    sent: &Sent,
) -> Result<(), AllocError>
    ensures { OnOk result (Gains table.old replica (statements_bytes (statements_of (sent.now ∷ []))) table.new) }
{
    match Frame::parse_in(Version::Two, alloc, sent.frame.clone()?) {
        Ok(frame) => table.insert(replica, frame.signed_part().share_message()?),
        Err(DecodeFault::Malformed) => Ok(()),
        Err(DecodeFault::NoMemory) => Err(AllocError),
    }
}

/// Adds the statements of these frames.
fn add_frames(
    alloc: Global,
    table: &mut SentTable,
    replica: ReplicaId,
    frames: &[Sent],
) -> Result<(), AllocError>
    ensures { OnOk result (Gains table.old replica (statements_bytes (statements_of frames.now)) table.new) }
{
    for sent in frames {
        add_frame(alloc, table, replica, sent)?;
    }
    Ok(())
}

/// Adds the statements of its own that a replica sends with this reply. The open round before it was `clock`, or another
/// round at the same place.
fn add_reply(
    alloc: Global,
    table: &mut SentTable,
    replica: ReplicaId,
    clock: u64,
    reply: &Reply,
) -> Result<(), AllocError>
    requires { clock < 4 }
    ensures { OnOk result (Gains table.old replica (statements_bytes (sends clock reply.now)) table.new) }
{
    let Reply::RoundEnded(Ok(ended)) = reply else {
        return Ok(());
    };
    match place_of(clock + 1) {
        Place::Release => Ok(()),
        _ => add_frames(alloc, table, replica, ended.frames.as_slice()),
    }
}

/// Adds the statements of its own that the replica sends in these entries, which are all of its history.
fn add_entries(
    alloc: Global,
    table: &mut SentTable,
    replica: ReplicaId,
    entries: &[Entry],
) -> Result<(), AllocError>
    ensures { OnOk result (Gains table.old replica (own_sent entries.now) table.new) }
{
    // The number of opened rounds, modulo 4.
    let mut clock: u64 = 0;
    for entry in entries {
        add_reply(alloc, table, replica, clock, &entry.reply)?;
        if is_opened(&entry.reply) {
            clock = (clock + 1) % 4;
        }
    }
    Ok(())
}

/// The statements of their own that these histories send. The only error is allocation failure.
pub(crate) fn sent_in(
    alloc: Global,
    histories: &[History],
    random: RandomState,
) -> Result<SentTable, AllocError>
    ensures { IfOk result (λ table. IsTableOf histories.now table) }
{
    let mut table = SentTable::new(alloc, random);
    for history in histories {
        add_entries(
            alloc,
            &mut table,
            history.replica,
            history.entries.as_slice(),
        )?;
    }
    Ok(table)
}
