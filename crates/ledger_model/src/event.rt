//! The events that a replica takes. `specs/Lawful` defines the lawful replies to each.
use crate::{Height, Key};
use bytes::Bytes;
use std::alloc::AllocError;

/// An event at a replica.
#[derive(Drop)]
pub enum Event {
    /// A client submits a transaction.
    Submit(Bytes),
    /// The replica opens the height with a batch from its pool.
    Propose(Height),
    /// Bytes arrive from the network.
    Deliver(Bytes),
    /// The round ends, and the next begins.
    RoundEnd,
    /// The application runs the next decided block.
    Execute,
    /// A client queries the application for a key. Height 0 asks for the latest state.
    Query(Key, Height),
    /// The replica gives up the heights below this one, its floor from then on.
    Retire(Height),
}

impl Event {
    ghost use Rattle.std.specs.Prelude.{◌≡◌, IfOk};

    /// A copy of the event, which shares the bytes. The only error is allocation failure.
    pub fn copy(&self) -> Result<Self, AllocError>
        ensures { IfOk result (λ event. event ≡ self.now) }
    {
        Ok(match self {
            Event::Submit(bytes) => Event::Submit(bytes.clone()?),
            Event::Propose(height) => Event::Propose(*height),
            Event::Deliver(bytes) => Event::Deliver(bytes.clone()?),
            Event::RoundEnd => Event::RoundEnd,
            Event::Execute => Event::Execute,
            Event::Query(key, height) => Event::Query(key.copy()?, *height),
            Event::Retire(floor) => Event::Retire(*floor),
        })
    }
}
