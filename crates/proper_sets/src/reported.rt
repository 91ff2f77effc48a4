//! Which values the reports of one phase make proper.
ghost use Rattle.std.specs.Prelude.{◌≡◌, ◌==◌, ◌&&◌, ◌||◌, Bool, not, length, nat_lt, nat_le, option_copied, IsTrue, OnOk};
ghost use Rattle.std.specs.List.{list_any, list_all};
ghost use Rattle.std.specs.Option.{option_map_or};
ghost use Rattle.ledger_model.specs.declared.statement.SignedReport.{SignedReport};
ghost use Rattle.ledger_model.specs.Values.{Value, same_value};
ghost use Rattle.ledger_model.specs.Spelling.{are_ascending};
ghost use Rattle.tally.specs.Tallies.{all_read, count_where};
ghost use Rattle.tally.specs.Masks.{mask_of};
ghost use Rattle.tally.specs.ReportMasks.{begins_with, AreMasksOf, IsReported};
ghost use Rattle.tally.specs.Readings.{reports_of};
ghost use Rattle.proper_sets.specs.Propriety.{is_named_by, are_all_named_by, initials, is_split_among, named_values};
ghost use Rattle.proper_sets.specs.Numbers.{of_other, named, is_rare, is_common, initials_of_others};
ghost use Rattle.proper_sets.specs.Puts.{with_values};

use crate::ascending::Ascending;
use ledger_model::{Batch, Config, ReplicaId};
use std::alloc::AllocError;
use tally::{PhaseReports, ReportedValue, ValueMasks, without};

/// The reports that were read in one phase, for the replica that absorbs them.
#[derive(Clone, Copy)]
pub(crate) struct Absorption<'a> {
    pub(crate) config: &'a Config,
    /// The number of the replica, whose own report doesn't count among the others'.
    pub(crate) own: ReplicaId,
    /// The replica's initial value.
    pub(crate) initial: &'a Batch,
    pub(crate) reports: &'a PhaseReports,
}

impl Absorption<'_> {
    /// The other replicas of a mask.
    fn others(&self, mask: u16) -> u16
        ensures { (test : SignedReport → Bool) → mask ≡ mask_of test self.now.reports.now
            → result ≡ mask_of (λ s. not (s.report.signer == self.now.own) && test s) self.now.reports.now }
    {
        // This call shows the proof that each report is at the place of its signer.
        let _ = self.reports.mask();
        without(mask, self.own)
    }

    /// Whether another replica is in the mask.
    fn has_other(&self, mask: u16) -> bool
        ensures { (test : SignedReport → Bool) → mask ≡ mask_of test self.now.reports.now
            → result ≡ list_any (λ s. not (s.report.signer == self.now.own) && test s) (all_read self.now.reports.now) }
    {
        self.others(mask) != 0
    }

    /// Whether more than t other replicas are in the mask.
    fn has_many(&self, mask: u16) -> bool
        ensures { (test : SignedReport → Bool) → mask ≡ mask_of test self.now.reports.now
            → result ≡ nat_lt self.now.config.now.faults (count_where (λ s. not (s.report.signer == self.now.own)
            && test s) (all_read self.now.reports.now)) }
    {
        self.others(mask).count_ones() > u32::from(self.config.faults)
    }

    /// Whether more than t other replicas name a value with these masks.
    fn is_named(&self, masks: ValueMasks) -> bool
        ensures { (v : Value) → AreMasksOf self.now.reports.now v masks
            → result ≡ is_named_by self.now.config.now self.now.own (reports_of (all_read self.now.reports.now)) v }
    {
        self.has_many(self.reports.naming(masks))
    }

    /// Whether the reports make every value proper.
    pub(crate) fn make_all_proper(&self) -> bool
        ensures { let reports = reports_of (all_read self.now.reports.now) in
            result ≡ (are_all_named_by self.now.config.now self.now.own reports || is_split_among self.now.config.now (initials self.now.own self.now.initial.now reports)) }
    {
        self.are_all_named() || self.is_split()
    }

    /// Whether more than t others report that every value is proper.
    fn are_all_named(&self) -> bool
        ensures { result ≡ are_all_named_by self.now.config.now self.now.own (reports_of (all_read self.now.reports.now)) }
    {
        self.has_many(self.reports.all())
    }

    /// Whether more than 2t initial values are known, and none of them is that of more than t replicas.
    fn is_split(&self) -> bool
        ensures { result ≡ is_split_among self.now.config.now (initials self.now.own self.now.initial.now (reports_of (all_read self.now.reports.now))) }
    {
        self.known() > 2 * u32::from(self.config.faults) && self.are_rare()
    }

    /// The number of initial values that are known: the replica's own, and those that others report.
    fn known(&self) -> u32
        ensures { result ≡ length (initials self.now.own self.now.initial.now (reports_of (all_read self.now.reports.now))) }
    {
        self.others(self.reports.mask()).count_ones() + 1
    }

    /// Whether each initial value that is known is that of at most t replicas.
    fn are_rare(&self) -> bool
        ensures { let known = initials self.now.own self.now.initial.now (reports_of (all_read self.now.reports.now)) in
            result ≡ list_all (λ v. nat_le (count_where (same_value v) known) self.now.config.now.faults) known }
    {
        let masks = self.reports.masks_of(self.initial);
        self.is_rare(self.initial, masks.initial) && self.are_others_rare()
    }

    /// Whether the initial value of each other replica is that of at most t replicas.
    fn are_others_rare(&self) -> bool
        ensures { result ≡ list_all (is_rare self.now.config.now self.now.own self.now.initial.now self.now.reports.now)
            (initials_of_others self.now.own self.now.reports.now) }
    {
        for reported in self.reports.values() {
            if self.is_common(reported) {
                return false;
            }
        }
        true
    }

    /// Whether the value is the initial one of another replica, and of more than t replicas in all.
    fn is_common(&self, reported: &ReportedValue) -> bool
        ensures { IsReported self.now.reports.now self.now.reports.now reported.now
            → result ≡ is_common self.now.config.now self.now.own self.now.initial.now self.now.reports.now reported.now }
    {
        let initial = reported.masks.initial;
        match self.of_other(reported, initial) {
            Some(value) => !self.is_rare(value, initial),
            None => false,
        }
    }

    /// Whether the value is the initial one of at most t replicas; it is that of the replicas of the mask.
    fn is_rare(&self, value: &Batch, mask: u16) -> bool
        ensures { mask ≡ mask_of (begins_with value.now) self.now.reports.now
            → result ≡ is_rare self.now.config.now self.now.own self.now.initial.now self.now.reports.now value.now }
    {
        let others = self.others(mask).count_ones();
        let all = others + u32::from(value == self.initial);
        all <= u32::from(self.config.faults)
    }

    /// The value, if another replica's report contains it so; the mask is that of the replicas whose reports do.
    fn of_other(&self, reported: &ReportedValue, mask: u16) -> Option<&Batch>
        ensures { (test : Value → SignedReport → Bool) → IsReported self.now.reports.now self.now.reports.now reported.now
            → ((v : Value) → AreMasksOf self.now.reports.now v reported.now.masks → mask ≡ mask_of (test v) self.now.reports.now)
            → option_copied result ≡ of_other self.now.own test self.now.reports.now reported.now }
    {
        if !self.has_other(mask) {
            return None;
        }
        self.reports.value(reported)
    }

    /// The value, if another replica's report lists it as proper and more than t others name it.
    fn named(&self, reported: &ReportedValue) -> Option<&Batch>
        ensures { IsReported self.now.reports.now self.now.reports.now reported.now
            → option_copied result ≡ named self.now.config.now self.now.own self.now.reports.now reported.now }
    {
        let value = self.of_other(reported, reported.masks.proper)?;
        if self.is_named(reported.masks) {
            Some(value)
        } else {
            None
        }
    }

    /// Adds the values that more than t others name and that one of them lists. Asks for each value once.
    pub(crate) fn put_named(&self, values: &mut Ascending) -> Result<(), AllocError>
        requires { IsTrue (are_ascending values.old) }
        ensures { OnOk result (values.new
            ≡ with_values (named_values self.now.config.now self.now.own (reports_of (all_read self.now.reports.now))) values.old) }
    {
        for reported in self.reports.values() {
            if let Some(value) = self.named(reported) {
                values.put(value)?;
            }
        }
        Ok(())
    }
}
