//! The frames that come to a replica.
ghost use Rattle.std.specs.Prelude.{◌≡◌, ◌++◌, OnOk};
ghost use Rattle.run_picture.specs.Parts.{drawn_round};
ghost use Rattle.run_picture.specs.Frames.{deliveries_of_entry, delivery_in};

use crate::frame_reading::statement_in;
use crate::part::{Moment, Part};
use bytes::Bytes;
use ledger_model::{Entry, Event, Ignored, ReplicaId, Reply, Statement};
use std::alloc::{AllocError, Global};

/// Bytes that come to a replica while a round is open, and the replica's answer: it accepts them, or ignores them for a cause.
pub struct Delivery {
    pub at: Moment,
    pub bytes: Bytes,
    /// The statement that the bytes encode, if they are a frame.
    pub statement: Option<Statement>,
    pub answer: Result<(), Ignored>,
}

// An own `Drop` keeps proofs short: an owner drops it by one call. See docs/WORKING.md.
impl Drop for Delivery {
    fn drop(self) {
        let Delivery {
            at: _at,
            bytes: _bytes,
            statement: _statement,
            answer: _answer,
        } = self;
    }
}

/// Appends the delivery of these bytes, if the picture shows the round and what the bytes are about.
fn add_bytes(
    alloc: Global,
    out: &mut Vec<Delivery>,
    part: &Part,
    replica: ReplicaId,
    index: usize,
    clock: u64,
    bytes: &Bytes,
    answer: Result<(), Ignored>,
) -> Result<(), AllocError>
    ensures { OnOk result (out.new.items ≡ out.old.items
        ++ delivery_in part.now replica index (drawn_round part.now clock) bytes.now answer) }
{
    let Some(round) = part.drawn_round(clock) else {
        return Ok(());
    };
    let statement = statement_in(alloc, bytes)?;
    if !part.has_statement(statement.as_ref()) {
        return Ok(());
    }
    let at = Moment {
        replica,
        entry: index,
        round,
    };
    out.push(Delivery {
        at,
        bytes: bytes.clone()?,
        statement,
        answer,
    })?;
    Ok(())
}

/// Appends what an entry delivers, if the picture shows it. The open round before the entry is `clock`.
pub(crate) fn add_delivered(
    alloc: Global,
    out: &mut Vec<Delivery>,
    part: &Part,
    replica: ReplicaId,
    index: usize,
    clock: u64,
    entry: &Entry,
) -> Result<(), AllocError>
    ensures { OnOk result (out.new.items ≡ out.old.items ++ deliveries_of_entry part.now replica index clock entry.now) }
{
    match (&entry.event, &entry.reply) {
        (Event::Deliver(bytes), Reply::Delivered(answer)) => {
            add_bytes(alloc, out, part, replica, index, clock, bytes, *answer)
        }
        _ => Ok(()),
    }
}
