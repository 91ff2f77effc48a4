//! The end of a round, prepared before anything but leaves changes.
use height_row::RoundClosing;
use ledger_model::RoundEnded;
use std::marker::Model;

/// The end of a round that [`Core::prepare_end`](crate::Core::prepare_end) prepared: the reply with its frames, and how each open
/// height closes its round. Contracts see a `PreparedView`.
pub struct Prepared {
    pub(crate) closings: Vec<RoundClosing>,
    pub(crate) ended: RoundEnded,
}

// An own `Drop` keeps proofs short: an owner drops it by one call. See docs/WORKING.md.
impl Drop for Prepared {
    fn drop(self) {
        let Prepared {
            closings: _closings,
            ended: _ended,
        } = self;
    }
}

impl Model for Prepared {
    ghost use Rattle.replica_core.specs.PreparedEnds.{PreparedView};

    ghost Value = { PreparedView };

    ghost view = { λ p. record { closings = p.closings.items; ended = p.ended } };
}

impl Prepared {
    ghost use Rattle.std.specs.Prelude.{◌≡◌};

    /// The reply to the round end, with the frames to send.
    pub fn ended(&self) -> &RoundEnded
        ensures { result.now ≡ self.now.ended }
    {
        &self.ended
    }

    /// How each height closes its round, in order, and the reply.
    pub(crate) fn into_parts(self) -> (Vec<RoundClosing>, RoundEnded)
        ensures closings { result.0.items ≡ self.closings }
        ensures ended { result.1 ≡ self.ended }
    {
        let Prepared { closings, ended } = self;
        (closings, ended)
    }
}
