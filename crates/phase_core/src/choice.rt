//! How the owner of a phase chooses the value that it locks.
ghost use Rattle.std.specs.Prelude.{◌≡◌, true, false, nat_le, count_ones, Some, None, option_copied, IfOk, IfSome, IfNone};
ghost use Rattle.ledger_model.specs.Rounds.{quorum};
ghost use Rattle.ledger_model.specs.Values.{Value};
ghost use Rattle.tally.specs.Tallies.{all_read};
ghost use Rattle.tally.specs.Readings.{reports_of};
ghost use Rattle.tally.specs.ReportMasks.{IsReported};
ghost use Rattle.phase_core.specs.Choices.{is_found_by, chosen};
ghost use Rattle.phase_core.specs.Least.{least_with, least_of, values_named, listed, found};

use ledger_model::{Batch, Config};
use std::alloc::AllocError;
use tally::{PhaseReports, ReportedValue};

/// Whether the replicas of a mask are a quorum.
fn is_quorum(config: &Config, mask: u16) -> bool
    ensures { result ≡ nat_le (quorum config.now) (count_ones mask) }
{
    mask.count_ones() >= u32::from(config.quorum())
}

/// Whether a quorum's reports find the value, as a lock on it needs.
fn is_found(config: &Config, reports: &PhaseReports, value: &Batch) -> bool
    ensures { result ≡ is_found_by config.now (reports_of (all_read reports.now)) value.now }
{
    is_quorum(config, reports.finds(value))
}

/// The lesser of the two values.
fn lesser<'a>(least: Option<&'a Batch>, value: &'a Batch) -> &'a Batch
    ensures { Some result.now ≡ least_with (option_copied least.entry) value.now }
{
    match least {
        Some(found) if value >= found => found,
        _ => value,
    }
}

/// The value, if a report lists it as proper or as locked.
fn listed<'a>(reports: &'a PhaseReports, reported: &ReportedValue) -> Option<&'a Batch>
    ensures { option_copied result ≡ listed reports.now reported.now }
{
    if reported.masks.proper == 0 && reported.masks.locked == 0 {
        return None;
    }
    reports.value(reported)
}

/// The value, if a report lists it as proper or as locked and a quorum's reports find it.
fn found<'a>(
    config: &Config,
    reports: &'a PhaseReports,
    reported: &ReportedValue,
) -> Option<&'a Batch>
    ensures { IsReported reports.now reports.now reported.now → option_copied result ≡ found config.now reports.now reported.now }
{
    let value = listed(reports, reported)?;
    if is_quorum(config, reports.finding(reported.masks)) {
        Some(value)
    } else {
        None
    }
}

/// The least value that a quorum's reports find, among the values that reports list as proper or as locked. Asks for each
/// value once.
fn least_found<'a>(config: &Config, reports: &'a PhaseReports) -> Option<&'a Batch>
    ensures { option_copied result ≡ least_of (is_found_by config.now (reports_of (all_read reports.now))) None
        (values_named (reports_of (all_read reports.now))) }
{
    let mut least = None;
    for reported in reports.values() {
        if let Some(value) = found(config, reports, reported) {
            least = Some(lesser(least, value));
        }
    }
    least
}

/// The value that the owner of a phase locks, given the reports of that phase that it read, one of each replica. This
/// is its own initial value if a quorum (N-t reports) finds it, and otherwise the least value that a quorum finds, in
/// the byte order of encodings. Allocates nothing.
pub fn chosen_value<'a>(
    config: &Config,
    reports: &'a PhaseReports,
    own: &'a Batch,
) -> Option<&'a Batch>
    ensures chosen { option_copied result ≡ chosen config.now (reports_of (all_read reports.now)) own.now }
    // A quorum's reports find the value.
    ensures found { IfSome (option_copied result) (λ v. is_found_by config.now (reports_of (all_read reports.now)) v ≡ true) }
    // If no value is chosen, no quorum's reports find any value.
    ensures none { IfNone (option_copied result) ((v : Value) → is_found_by config.now (reports_of (all_read reports.now)) v ≡ false) }
{
    if is_found(config, reports, own) {
        return Some(own);
    }
    least_found(config, reports)
}

/// A copy of the value that the owner of a phase locks ([`chosen_value`]).
pub fn choose(
    config: &Config,
    reports: &PhaseReports,
    own: &Batch,
) -> Result<Option<Batch>, AllocError>
    ensures chosen { IfOk result (λ value. value ≡ chosen config.now (reports_of (all_read reports.now)) own.now) }
    // A quorum's reports find the value.
    ensures found { IfOk result (λ value. IfSome value (λ v. is_found_by config.now (reports_of (all_read reports.now)) v ≡ true)) }
    // If no value is chosen, no quorum's reports find any value.
    ensures none { IfOk result (λ value. IfNone value ((v : Value) → is_found_by config.now (reports_of (all_read reports.now)) v ≡ false)) }
{
    match chosen_value(config, reports, own) {
        Some(value) => Ok(Some(value.copy()?)),
        None => Ok(None),
    }
}
