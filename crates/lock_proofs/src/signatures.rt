//! Checks the signatures in a lock's frame.

ghost use Rattle.std.specs.Prelude.{◌≡◌};
ghost use Rattle.std.specs.List.{list_all};
ghost use Rattle.ledger_model.specs.Rules.{is_signed};
ghost use Rattle.signed_frames.specs.Lending.{proof_of};
ghost use Rattle.lock_proofs.specs.Faults.{are_signed};
ghost use Rattle.verify_cache.specs.Checks.{is_part_signed};

use key_ring::KeyRing;
use signed_frames::{Frame, LentReports};
use verify_cache::CheckSignatures;

/// Whether the frame's signature is its signer's.
pub fn is_signed(ring: &KeyRing, frame: &Frame) -> bool
    ensures { result ≡ is_signed ring.now frame.now }
{
    let signer = frame.statement().signer();
    ring.verifies(signer, frame.statement_bytes(), frame.signature())
}

/// Whether each report in a lock's frame is signed by its signer, over the report's bytes in the frame.
pub fn are_signed<C: CheckSignatures>(checks: &mut C, frame: &Frame) -> bool
    ensures answer { result ≡ are_signed (C.ring checks.old) (proof_of frame.now.statement) }
    ensures same { C.ring checks.new ≡ C.ring checks.old }
{
    do_verify(checks, frame.lent_reports())
}

/// Whether each of the reports is signed by its signer.
fn do_verify<C: CheckSignatures>(checks: &mut C, reports: LentReports<'_>) -> bool
    ensures answer { result ≡ list_all (is_part_signed (C.ring checks.old)) reports.entry }
    ensures same { C.ring checks.new ≡ C.ring checks.old }
{
    for part in reports {
        if !checks.is_signed(&part) {
            return false;
        }
    }
    true
}
