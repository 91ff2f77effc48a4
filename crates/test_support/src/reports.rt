//! Builds reports.

use crate::{BuildFault, value, values};
use ledger_model::{Batches, Height, Phase, ReplicaId, Report, Signature, SignedReport, Version};
use std::alloc::Global;

/// The fields of a report of height 1 and phase 1. Each value is the batch of one transaction.
#[derive(Clone, Copy)]
pub struct ReportFields<'a> {
    pub signer: u8,
    pub all: bool,
    pub initial: &'a [u8],
    pub proper: &'a [&'a [u8]],
    pub locked: &'a [&'a [u8]],
}

/// A report that names these values as proper, and has neither ALL nor locks.
pub fn naming<'a>(signer: u8, initial: &'a [u8], proper: &'a [&'a [u8]]) -> ReportFields<'a> {
    ReportFields {
        signer,
        all: false,
        initial,
        proper,
        locked: &[],
    }
}

/// The report with these fields.
pub fn report(alloc: Global, told: &ReportFields<'_>) -> Result<Report, BuildFault> {
    Ok(Report {
        version: Version::One,
        height: Height::new(1),
        phase: Phase::new(1),
        signer: ReplicaId::new(told.signer),
        all: told.all,
        initial: value(alloc, told.initial)?,
        proper: Batches::new(values(alloc, told.proper)?),
        locked: Batches::new(values(alloc, told.locked)?),
    })
}

/// The report with these fields, and a signature of no bytes.
pub fn signed_report(alloc: Global, told: &ReportFields<'_>) -> Result<SignedReport, BuildFault> {
    Ok(SignedReport {
        report: report(alloc, told)?,
        signature: Signature::new(Vec::new(alloc)),
    })
}
