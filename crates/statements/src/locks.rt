//! Decodes locks and their proofs.

ghost use Rattle.std.specs.Prelude.{◌≡◌};
ghost use Rattle.ledger_model.specs.Validity.{ascends_within, signers_of};
ghost use Rattle.ledger_model.specs.Reading.{report_version, signed_at, proof_at, lock_at};
ghost use Rattle.statements.specs.Reads.{IsReadFrom, ReadsAs};

use crate::DecodeFault;
use crate::fields::{take_byte, take_signature};
use crate::headers::{take_place, take_report};
use crate::values::take_batch;
use ledger_model::{Lock, LockProof, SignedReport, Version};
use octets::Cursor;
use std::alloc::Global;

/// The fewest and the most reports of a lock's proof.
const MIN_REPORTS: u8 = 3;

const MAX_REPORTS: u8 = 12;

/// The version of a report that starts with this byte, in a lock of this version.
fn version_of_report(version: Version, first: u8) -> Option<Version>
    ensures { result ≡ report_version version first }
{
    match first {
        0x01 => Some(Version::One),
        0x11 if version == Version::Two => Some(Version::Two),
        _ => None,
    }
}

#[tactic(auto, unfolding(ledger_model::specs::Reading::signed_at))]
fn take_signed(
    alloc: Global,
    cursor: &mut Cursor,
    version: Version,
) -> Result<SignedReport, DecodeFault>
    ensures { IsReadFrom result cursor.new (signed_at version cursor.old) }
{
    let first = take_byte(cursor)?;
    let own = version_of_report(version, first).ok_or(DecodeFault::Malformed)?;
    let report = take_report(alloc, cursor, own)?;
    let signature = take_signature(alloc, cursor)?;
    Ok(SignedReport { report, signature })
}

fn take_reports(
    alloc: Global,
    cursor: &mut Cursor,
    version: Version,
    count: u8,
) -> Result<Vec<SignedReport>, DecodeFault>
    ensures { ReadsAs (λ reports. reports.items) result cursor.new (proof_at version count cursor.old) }
{
    let mut reports = Vec::with_capacity(alloc, usize::from(count))?;
    for _ in 0..count {
        let signed = take_signed(alloc, cursor, version)?;
        reports.push(signed)?;
    }
    Ok(reports)
}

fn do_signers_ascend(reports: &[SignedReport]) -> bool
    ensures { result ≡ ascends_within 0 256 (signers_of reports.now) }
{
    let mut low = 0;
    for signed in reports {
        let signer = u16::from(signed.report.signer.number());
        if signer < low {
            return false;
        }
        low = signer + 1;
    }
    true
}

/// Takes a lock of this version, without its first byte: its header, its value, and 3 to 12 reports whose signers ascend.
#[tactic(auto, unfolding(ledger_model::specs::Reading::lock_at))]
pub fn take_lock(alloc: Global, cursor: &mut Cursor, version: Version) -> Result<Lock, DecodeFault>
    ensures { IsReadFrom result cursor.new (lock_at version cursor.old) }
{
    let place = take_place(cursor)?;
    let value = take_batch(alloc, cursor, version)?;
    let count = take_byte(cursor)?;
    if count < MIN_REPORTS || MAX_REPORTS < count {
        return Err(DecodeFault::Malformed);
    }
    let reports = take_reports(alloc, cursor, version, count)?;
    if !do_signers_ascend(&reports) {
        return Err(DecodeFault::Malformed);
    }
    Ok(Lock {
        version,
        height: place.height,
        phase: place.phase,
        signer: place.signer,
        value,
        proof: LockProof::new(reports),
    })
}
