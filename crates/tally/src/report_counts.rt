//! The different values that the reports of one phase contain, each with its masks.
ghost use Rattle.std.specs.Prelude.{◌≡◌, ◌+◌, ◌≤◌, ◌<◌, [], true, false, length, slice_get, map, option_copied, vec_capacity, IfOk, IfSome};
ghost use Rattle.std.specs.Option.{option_map_or};
ghost use Rattle.std.specs.List.{find};
ghost use Rattle.ledger_model.specs.Values.{same_value};
ghost use Rattle.tally.specs.Tallies.{read_of};
ghost use Rattle.tally.specs.ReportMasks.{values_within, listed_value, numbered_value, is_of, is_numbered, holds_one, with_number, with_numbers};
ghost use Rattle.tally.specs.ReportMasks.{marked};

use crate::masks::with_bit;
use crate::places::Tally;
use crate::reported_value::{ReportedValue, ValueMasks};
use ledger_model::{Batch, ReplicaId, Report, SignedReport};
use std::alloc::{AllocError, Global};

/// The different values that the reports of one phase contain, each with a number, by where it was found first, and with its
/// masks.
#[derive(Drop)]
pub(crate) struct ReportCounts {
    pub(crate) values: Vec<ReportedValue>,
    /// The replicas that report that every value is proper.
    pub(crate) all: u16,
    /// The replicas that hold no lock.
    pub(crate) free: u16,
    /// The replicas that hold locks on one value alone.
    pub(crate) single: u16,
}

impl ReportCounts {
    ghost use Rattle.std.specs.Prelude.{◌≡◌, ◌+◌, ◌≤◌, ◌<◌, [], false, Some, length, option_copied, vec_capacity, IfOk};
    ghost use Rattle.std.specs.Option.{option_map_or};
    ghost use Rattle.std.specs.List.{find};
    ghost use Rattle.ledger_model.specs.Values.{same_value};
    ghost use Rattle.tally.specs.Tallies.{read_of};
    ghost use Rattle.ledger_model.specs.declared.statement.SignedReport.{SignedReport};
    ghost use Rattle.tally.specs.ReportMasks.{values_within, is_of, IsCountedWith};

    /// No values, with room for this many. The only error is allocation failure.
    pub(crate) fn new(alloc: Global, room: usize) -> Result<Self, AllocError>
        ensures none { IfOk result (λ counts. counts.values.items ≡ []) }
        ensures masks { IfOk result (λ counts. (counts.all ≡ 0) × (counts.free ≡ 0) × (counts.single ≡ 0)) }
        ensures room { IfOk result (λ counts. room ≤ vec_capacity counts.values) }
    {
        Ok(ReportCounts {
            values: Vec::with_capacity(alloc, room)?,
            all: 0,
            free: 0,
            single: 0,
        })
    }

    /// Removes all values. Allocates nothing.
    pub(crate) fn clear(&mut self)
        ensures none { self.new.values.items ≡ [] }
        ensures masks { (self.new.all ≡ 0) × (self.new.free ≡ 0) × (self.new.single ≡ 0) }
        ensures room { vec_capacity self.old.values ≤ vec_capacity self.new.values }
    {
        self.values.clear();
        self.all = 0;
        self.free = 0;
        self.single = 0;
    }

    /// The number of the value, with its masks, if it has one.
    pub(crate) fn numbered(
        &self,
        tally: &Tally<SignedReport>,
        value: &Batch,
    ) -> Option<&ReportedValue>
        ensures { option_copied result ≡ find (is_of tally.now value.now) self.now.values.items }
    {
        self.values
            .iter()
            .find(|reported| is_value(tally, reported, value))
    }

    /// Counts the report of a replica, which the tally has. There is room for its values. Allocates nothing.
    pub(crate) fn count(&mut self, tally: &Tally<SignedReport>, signer: ReplicaId)
        requires signer { signer < 16 }
        requires room { (s : SignedReport) → read_of tally.now signer ≡ Some s
            → length self.old.values.items + length (values_within s.report) ≤ vec_capacity self.old.values }
        ensures counted { (s : SignedReport) → read_of tally.now signer ≡ Some s → IsCountedWith tally.now signer s self.old self.new }
        ensures room { vec_capacity self.old.values ≤ vec_capacity self.new.values }
    {
        let Some(signed) = tally.get(signer) else {
            return;
        };
        let bit = 1 << signer.number();
        put_values(&mut self.values, tally, signer, &signed.report);
        mark_values(&mut self.values, tally, signed, bit);
        self.all = with_bit(self.all, signed.report.all, bit);
        self.free = with_bit(self.free, signed.report.locked.as_slice().is_empty(), bit);
        self.single = with_bit(self.single, holds_one(signed), bit);
    }
}

/// Whether the report lists locks, all on one value.
fn holds_one(signed: &SignedReport) -> bool
    ensures { result ≡ holds_one signed.now }
{
    let locked = signed.report.locked.as_slice();
    match locked.first() {
        Some(first) => locked.iter().all(|value| first == value),
        None => false,
    }
}

/// The value at this index of those within the report, if there is one.
fn value_within(report: &Report, index: usize) -> Option<&Batch>
    ensures { option_copied result ≡ slice_get (values_within report.now) index }
{
    if index == 0 {
        return Some(&report.initial);
    }
    let proper = report.proper.as_slice();
    match proper.get(index - 1) {
        Some(value) => Some(value),
        None => report.locked.as_slice().get(index - 1 - proper.len()),
    }
}

/// The value at this index of those within the report of a replica, if there is one.
fn value_at(tally: &Tally<SignedReport>, signer: ReplicaId, index: usize) -> Option<&Batch>
    ensures { option_copied result ≡ listed_value tally.now signer index }
{
    value_within(&tally.get(signer)?.report, index)
}

/// The value that was numbered.
pub(crate) fn value_of<'a>(
    tally: &'a Tally<SignedReport>,
    reported: &ReportedValue,
) -> Option<&'a Batch>
    ensures { option_copied result ≡ numbered_value tally.now reported.now }
{
    value_at(tally, reported.signer, reported.index)
}

/// Whether this is the numbered value.
fn is_value(tally: &Tally<SignedReport>, reported: &ReportedValue, value: &Batch) -> bool
    ensures { result ≡ is_of tally.now value.now reported.now }
{
    match value_of(tally, reported) {
        Some(found) => value == found,
        None => false,
    }
}

/// Whether the value has a number.
fn is_numbered(tally: &Tally<SignedReport>, values: &[ReportedValue], value: &Batch) -> bool
    ensures { result ≡ is_numbered tally.now values.now value.now }
{
    values
        .iter()
        .any(|reported| is_value(tally, reported, value))
}

/// Gives a number to the value at this index within a replica's report, unless it has one. There is room for it.
fn put_value(
    values: &mut Vec<ReportedValue>,
    tally: &Tally<SignedReport>,
    signer: ReplicaId,
    index: usize,
)
    requires { length values.old.items < vec_capacity values.old }
    ensures items { values.new.items ≡ with_number tally.now signer index values.old.items }
    ensures few { length values.new.items ≤ length values.old.items + 1 }
    ensures capacity { vec_capacity values.old ≤ vec_capacity values.new }
{
    let Some(value) = value_at(tally, signer, index) else {
        return;
    };
    if is_numbered(tally, values, value) {
        return;
    }
    let unmarked = ReportedValue {
        signer,
        index,
        masks: ValueMasks::NONE,
    };
    if values.push(unmarked).is_err() {
        unreachable!()
    }
}

/// Numbers the values within the report of a replica that have no number. There is room for them.
fn put_values(
    values: &mut Vec<ReportedValue>,
    tally: &Tally<SignedReport>,
    signer: ReplicaId,
    report: &Report,
)
    requires { length values.old.items + length (values_within report.now) ≤ vec_capacity values.old }
    ensures items { values.new.items ≡ with_numbers tally.now signer (length (values_within report.now)) values.old.items }
    ensures few { length values.new.items ≤ length values.old.items + length (values_within report.now) }
    ensures capacity { vec_capacity values.old ≤ vec_capacity values.new }
{
    let count = 1 + report.proper.as_slice().len() + report.locked.as_slice().len();
    for index in 0..count {
        put_value(values, tally, signer, index);
    }
}

/// Marks the values that a report contains, whose replica has this bit.
fn mark_values(
    values: &mut [ReportedValue],
    tally: &Tally<SignedReport>,
    signed: &SignedReport,
    bit: u16,
)
    ensures { values.new ≡ map (marked tally.now signed.now bit) values.old }
{
    for reported in values.iter_mut() {
        if let Some(value) = value_of(tally, reported) {
            reported.masks = reported.masks.marked_by(signed, bit, value);
        }
    }
}
