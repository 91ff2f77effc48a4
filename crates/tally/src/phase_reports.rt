//! The reports that were read in one phase, and which of them contain a value.
ghost use Rattle.std.specs.Prelude.{◌≡◌};

use crate::places::Tally;
use crate::report_counts::{ReportCounts, value_of};
use crate::reported_value::{ReportedValue, ValueMasks};
use ledger_model::{Batch, Config, ReplicaId, SignedReport};
use std::alloc::{AllocError, Global};
use std::marker::Model;

/// The reports that were read in one phase, one of each replica, and the different values that they contain. Each value has a
/// number, by where it was found first, and masks of the replicas whose reports contain it.
///
/// Contracts see the places, as those of a [`Tally`].
pub struct PhaseReports {
    tally: Tally<SignedReport>,
    counts: ReportCounts,
}

// An own `Drop` keeps proofs short: an owner drops it by one call. See docs/WORKING.md.
impl Drop for PhaseReports {
    fn drop(self) {
        let PhaseReports {
            tally: _tally,
            counts: _counts,
        } = self;
    }
}

impl Model for PhaseReports {
    ghost use Rattle.std.specs.Prelude.{◌*◌, ◌≤◌, List, Option, length, vec_capacity};
    ghost use Rattle.ledger_model.specs.declared.statement.SignedReport.{SignedReport};
    ghost use Rattle.tally.specs.ReportMasks.{AreCounted};

    ghost Value = { List (Option SignedReport) };

    ghost view = { λ p. p.tally };

    ghost invariant = { λ p. AreCounted p.tally p.counts × (9 * length p.tally ≤ vec_capacity p.counts.values) };
}

impl PhaseReports {
    ghost use Rattle.std.specs.Prelude.{◌≡◌, ◌<◌, ◌≤◌, ℕ, false, None, Some, length, replicate, slice_set, option_copied, IfOk};
    ghost use Rattle.std.specs.Prelude.{if◌then◌else◌};
    ghost use Rattle.std.specs.Int.{bit_at};
    ghost use Rattle.std.specs.Option.{is_none, option_map_or};
    ghost use Rattle.ledger_model.specs.Values.{Value};
    ghost use Rattle.ledger_model.specs.Locks.{names, finds};
    ghost use Rattle.tally.specs.Tallies.{read_of};
    ghost use Rattle.tally.specs.Masks.{mask_of, mask_read};
    ghost use Rattle.tally.specs.ReportMasks.{AreMasksOf, AreValuesOf, AreAtSigners, numbered_value};

    /// The most values that a report contains: its initial value, four that are proper, and four with locks.
    pub const MAX_VALUES: usize = 9;

    /// No reports, with a place for each replica of the cluster, and room for all values that their reports can contain. The
    /// only error is allocation failure.
    pub fn new(alloc: Global, config: &Config) -> Result<Self, AllocError>
        ensures { IfOk result (λ reports. reports ≡ replicate config.now.replicas None) }
    {
        let tally = Tally::new(alloc, config)?;
        let room = Self::MAX_VALUES * usize::from(config.replicas);
        Ok(PhaseReports {
            tally,
            counts: ReportCounts::new(alloc, room)?,
        })
    }

    /// Stores a report if its signer's place is empty, and returns whether it did. Allocates nothing.
    pub fn add(&mut self, read: SignedReport) -> bool
        requires signer { read.report.signer < length self.old }
        requires proper { length read.report.proper ≤ 4 }
        requires locked { length read.report.locked ≤ 4 }
        ensures added { result ≡ is_none (read_of self.old read.report.signer) }
        ensures after { self.new ≡ (if result then slice_set self.old read.report.signer (Some read) else self.old) }
        ensures places { length self.new ≡ length self.old }
    {
        let signer = signer_of(&read);
        if !self.tally.add(signer, read) {
            return false;
        }
        self.counts.count(&self.tally, signer);
        true
    }

    /// Removes all reports. Allocates nothing.
    pub fn clear(&mut self)
        ensures { self.new ≡ replicate (length self.old) None }
    {
        self.tally.clear();
        self.counts.clear();
    }

    /// The report that was read of a replica, if one was.
    pub fn get(&self, signer: ReplicaId) -> Option<&SignedReport>
        ensures { option_copied result ≡ read_of self.now signer }
    {
        self.tally.get(signer)
    }

    /// The places, from replica 0 on.
    pub fn places(&self) -> &[Option<SignedReport>]
        ensures { result.now ≡ self.now }
    {
        self.tally.places()
    }

    /// The replicas of which a report was read, as a mask.
    pub fn mask(&self) -> u16
        ensures mask { result ≡ mask_read self.now }
        ensures signers { AreAtSigners self.now }
    {
        self.tally.mask()
    }

    /// The replicas that report that every value is proper, as a mask.
    pub fn all(&self) -> u16
        ensures { result ≡ mask_of (λ s. s.report.all) self.now }
    {
        self.counts.all
    }

    /// The different values that the reports contain.
    pub fn values(&self) -> &[ReportedValue]
        ensures { AreValuesOf self.now result.now }
    {
        self.counts.values.as_slice()
    }

    /// A value that [`PhaseReports::values`] lists.
    pub fn value(&self, reported: &ReportedValue) -> Option<&Batch>
        ensures { option_copied result ≡ numbered_value self.now reported.now }
    {
        value_of(&self.tally, reported)
    }

    /// The replicas whose reports contain the value. Allocates nothing.
    pub fn masks_of(&self, value: &Batch) -> ValueMasks
        ensures { AreMasksOf self.now value.now result }
    {
        match self.counts.numbered(&self.tally, value) {
            Some(reported) => reported.masks,
            None => ValueMasks::NONE,
        }
    }

    /// The replicas whose reports name a value with these masks.
    pub fn naming(&self, masks: ValueMasks) -> u16
        ensures { (v : Value) → AreMasksOf self.now v masks → result ≡ mask_of (λ s. names s.report v) self.now }
    {
        self.counts.all | masks.proper
    }

    /// The replicas whose reports find a value with these masks.
    pub fn finding(&self, masks: ValueMasks) -> u16
        ensures { (v : Value) → AreMasksOf self.now v masks → result ≡ mask_of (λ s. finds s.report v) self.now }
    {
        self.naming(masks) & (self.counts.free | (self.counts.single & masks.locked))
    }

    /// The replicas whose reports find the value: bit r is one exactly where that of replica r does. Allocates nothing.
    pub fn finds(&self, value: &Batch) -> u16
        ensures mask { result ≡ mask_of (λ s. finds s.report value.now) self.now }
        ensures bits { (r : ℕ) → bit_at result r
            ≡ (if option_map_or (λ s. finds s.report value.now) (read_of self.now r) false then 1 else 0) }
    {
        self.finding(self.masks_of(value))
    }
}

/// The replica that signed the report.
fn signer_of(signed: &SignedReport) -> ReplicaId
    ensures { result ≡ signed.now.report.signer }
{
    signed.report.signer
}
