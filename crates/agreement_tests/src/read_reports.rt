//! Reports that were read, for the tests of proper values and of the choice.

ghost use Rattle.std.specs.Prelude.{◌≡◌, ◌<◌, ◌≤◌, true, length};

use ledger_model::{AppKind, Config, SignedReport};
use std::alloc::Global;
use tally::PhaseReports;
use test_support::{ReportFields, signed_report};

/// Four replicas, of which one may lie.
pub(crate) fn four() -> Option<Config> {
    Config::new(4, 1, AppKind::KvStore).ok()
}

// Whether the reports have a place for this one, and a frame can have it.
fn is_readable(reports: &PhaseReports, read: &SignedReport) -> bool
    ensures { result ≡ true → (read.now.report.signer < length reports.now)
        × (length read.now.report.proper ≤ 4) × (length read.now.report.locked ≤ 4) }
{
    usize::from(read.report.signer.number()) < reports.places().len()
        && read.report.proper.as_slice().len() <= 4
        && read.report.locked.as_slice().len() <= 4
}

// Stores the report. Returns whether it is the first of its signer; `None` if no frame has such a report.
fn add(reports: &mut PhaseReports, read: SignedReport) -> Option<bool> {
    if !is_readable(reports, &read) {
        return None;
    }
    Some(reports.add(read))
}

/// Stores the report with these fields. Returns whether it is the first of its signer.
pub(crate) fn add_one(
    alloc: Global,
    reports: &mut PhaseReports,
    fields: &ReportFields<'_>,
) -> Option<bool> {
    add(reports, signed_report(alloc, fields).ok()?)
}

/// Stores the reports with these fields.
pub(crate) fn add_all(
    alloc: Global,
    reports: &mut PhaseReports,
    fields: &[ReportFields<'_>],
) -> Option<()> {
    for report in fields {
        add_one(alloc, reports, report)?;
    }
    Some(())
}

/// The reports with these fields.
pub(crate) fn read(
    alloc: Global,
    config: &Config,
    fields: &[ReportFields<'_>],
) -> Option<PhaseReports> {
    let mut reports = PhaseReports::new(alloc, config).ok()?;
    add_all(alloc, &mut reports, fields)?;
    Some(reports)
}
