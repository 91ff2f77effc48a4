//! The events that deliver frames to a replica.
ghost use Rattle.std.specs.Prelude.{◌≡◌, IfOk};
ghost use Rattle.replica_turns.specs.Turns.{deliveries_of};

use bytes::Bytes;
use ledger_model::Event;
use std::alloc::{AllocError, Global};

/// The delivery of each of the frames, in order. The only error is allocation failure.
pub fn deliveries_of(alloc: Global, frames: &[Bytes]) -> Result<Vec<Event>, AllocError>
    ensures { IfOk result (λ events. events.items ≡ deliveries_of frames.now) }
{
    let mut events = Vec::with_capacity(alloc, frames.len())?;
    for frame in frames {
        events.push(Event::Deliver(frame.clone()?))?;
    }
    Ok(events)
}
