//! What a round end does at one height.
use bytes::Bytes;
use ledger_model::{Ack, Batch, Statement};
use proper_sets::Proper;
use std::alloc::Global;
use std::marker::Model;

/// The plan for the end of a round at one height: the statement that the replica chooses to send, and all other effects.
#[derive(Drop)]
pub struct RoundPlan {
    pub statement: Option<Statement>,
    pub ending: RoundEffects,
}

/// The effects of a round end at one height that don't depend on what is sent. Contracts see a `RoundEffectsView`.
pub struct RoundEffects {
    sends_on: Vec<Bytes>,
    proper: Option<Proper>,
    decided: Option<Batch>,
    unsent: Option<Ack>,
}

// An own `Drop` keeps proofs short: an owner drops it by one call. See docs/WORKING.md.
impl Drop for RoundEffects {
    fn drop(self) {
        let RoundEffects {
            sends_on: _sends_on,
            proper: _proper,
            decided: _decided,
            unsent: _unsent,
        } = self;
    }
}

impl Model for RoundEffects {
    ghost use Rattle.instance.specs.Plans.{RoundEffectsView};

    ghost Value = { RoundEffectsView };

    ghost view = { λ e. record {
      sends_on = e.sends_on.items;
      proper = e.proper;
      decided = e.decided;
      unsent = e.unsent;
    } };
}

impl RoundEffects {
    ghost use Rattle.std.specs.Prelude.{◌≡◌, Some};
    ghost use Rattle.std.specs.Option.{option_copied};
    ghost use Rattle.instance.specs.Plans.{nothing_ends};

    /// No effects.
    pub(crate) fn nothing(alloc: Global) -> Self
        ensures { result ≡ nothing_ends }
    {
        RoundEffects {
            sends_on: Vec::new(alloc),
            proper: None,
            decided: None,
            unsent: None,
        }
    }

    /// The round end replaces the set of proper values.
    pub(crate) fn absorbing(alloc: Global, proper: Proper) -> Self
        ensures { result ≡ record nothing_ends { proper = Some proper } }
    {
        RoundEffects {
            sends_on: Vec::new(alloc),
            proper: Some(proper),
            decided: None,
            unsent: None,
        }
    }

    /// The owner may acknowledge its own lock, without sending the acknowledgement.
    pub(crate) fn acknowledging(alloc: Global, unsent: Option<Ack>) -> Self
        ensures { result ≡ record nothing_ends { unsent = unsent } }
    {
        RoundEffects {
            sends_on: Vec::new(alloc),
            proper: None,
            decided: None,
            unsent,
        }
    }

    /// The replica sends these frames on, and may decide a value.
    pub(crate) fn releasing(sends_on: Vec<Bytes>, decided: Option<Batch>) -> Self
        ensures { result ≡ record nothing_ends { sends_on = sends_on.items; decided = decided } }
    {
        RoundEffects {
            sends_on,
            proper: None,
            decided,
            unsent: None,
        }
    }

    /// The frames of the locks that are sent on, ascending by value.
    pub fn sends_on(&self) -> &[Bytes]
        ensures { result.now ≡ self.now.sends_on }
    {
        self.sends_on.as_slice()
    }

    /// The value that this round end decides; `None` if one was decided before.
    pub fn decides(&self) -> Option<&Batch>
        ensures { option_copied result ≡ self.now.decided }
    {
        self.decided.as_ref()
    }

    /// The new set of proper values, the decided value, and the acknowledgement that isn't sent.
    pub(crate) fn into_parts(self) -> (Option<Proper>, Option<Batch>, Option<Ack>)
        ensures proper { result.0 ≡ self.proper }
        ensures decided { result.1 ≡ self.decided }
        ensures unsent { result.2 ≡ self.unsent }
    {
        let RoundEffects {
            sends_on: _sends_on,
            proper,
            decided,
            unsent,
        } = self;
        (proper, decided, unsent)
    }
}
