//! A value that reports contain, and the replicas whose reports contain it.
ghost use Rattle.std.specs.Prelude.{◌≡◌};
ghost use Rattle.std.specs.List.{list_any};
ghost use Rattle.ledger_model.specs.Values.{same_value};
ghost use Rattle.tally.specs.ReportMasks.{marked_by};

use crate::masks::with_bit;
use ledger_model::{Batch, ReplicaId, SignedReport};

/// The replicas whose reports contain a value, as masks: bit r is one exactly where the report of replica r contains it.
#[derive(Clone, Copy)]
pub struct ValueMasks {
    /// It is the initial value.
    pub initial: u16,
    /// It is listed as proper.
    pub proper: u16,
    /// It has a lock.
    pub locked: u16,
}

/// A value that reports contain, by where it was found first. Nothing is copied.
#[derive(Clone, Copy)]
pub struct ReportedValue {
    /// The signer of the report.
    pub signer: ReplicaId,
    /// The index among the values within that report: its initial value, the proper ones, and those with locks.
    pub index: usize,
    pub masks: ValueMasks,
}

/// Whether the value is one of these.
fn is_among(values: &[Batch], value: &Batch) -> bool
    ensures { result ≡ list_any (same_value value.now) values.now }
{
    values.iter().any(|listed| value == listed)
}

impl ValueMasks {
    /// No report contains the value.
    pub(crate) const NONE: ValueMasks = ValueMasks {
        initial: 0,
        proper: 0,
        locked: 0,
    };

    /// The masks, with a report, whose replica has this bit.
    pub(crate) fn marked_by(self, signed: &SignedReport, bit: u16, value: &Batch) -> Self
        ensures { result ≡ marked_by signed.now bit value.now self }
    {
        let report = &signed.report;
        ValueMasks {
            initial: with_bit(self.initial, *value == report.initial, bit),
            proper: with_bit(self.proper, is_among(report.proper.as_slice(), value), bit),
            locked: with_bit(self.locked, is_among(report.locked.as_slice(), value), bit),
        }
    }
}
