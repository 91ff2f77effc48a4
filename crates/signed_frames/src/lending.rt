//! The signed reports in a lock's frame, borrowed from its bytes.

ghost use Rattle.std.specs.Prelude.{◌≡◌, ◌<◌, ◌^◌, ◌++◌, ◌+◌, ℕ, List, length, map, drop};
ghost use Rattle.ledger_model.specs.declared.version.Version.{Version};
ghost use Rattle.ledger_model.specs.Spelling.{IsSignedReport, signed_bytes, IsLock, lock_bytes};
ghost use Rattle.signed_frames.specs.Lending.{lent_of, proof_of};
ghost use Rattle.signed_frames.specs.Parts.{HoldsFrame};

use crate::parsing::LENGTH_LEN;
use crate::signed_part::SignedPart;
use bytes::Bytes;
use ledger_model::{Lock, SignedReport, Statement};
use statements::{report_len, reports_len};
use std::marker::Model;

/// The signed reports of a lock's proof, in order, borrowed from the lock's frame. Contracts see the list of the
/// reports that are still to come.
#[derive(Debug, Drop)]
pub struct LentReports<'a> {
    reports: &'a [SignedReport],
    frame: &'a Bytes,
    /// Where the bytes that encode them begin in the frame.
    at: usize,
}

impl<'a> Model for LentReports<'a> {
    ghost use Rattle.std.specs.Prelude.{List, map};
    ghost use Rattle.signed_frames.specs.Lending.{SignedPartView, lent_of, StandAt};

    ghost Value = { List SignedPartView };

    ghost view = { λ r. map lent_of r.reports.now };

    ghost invariant = { λ r. StandAt r.at r.reports.now r.frame.now };
}

impl<'a> Iterator for LentReports<'a> {
    ghost use Rattle.std.specs.Iterator.{YieldsFirst, item_count};

    type Item = SignedPart<'a>;

    ghost next_gives = { YieldsFirst (λ reports. reports) };

    ghost remaining = { item_count (λ reports. reports) };

    fn next(&mut self) -> Option<SignedPart<'a>> {
        let (signed, others) = self.reports.split_first()?;
        let (part, behind) = report_at(self.frame, self.at, signed);
        self.reports = others;
        self.at = behind;
        Some(part)
    }
}

/// The signed report that begins there in the frame, and where it ends.
#[tactic(auto, unfolding(ledger_model::specs::Spelling::statement_bytes))]
fn report_at<'a>(frame: &'a Bytes, at: usize, signed: &SignedReport) -> (SignedPart<'a>, usize)
    requires spelled { (version : Version) × IsSignedReport version signed.now }
    requires short { length frame.now < 2 ^ 63 }
    requires front { (rest : List ℕ) × (drop at frame.now ≡ signed_bytes signed.now ++ rest) }
    ensures part { result.0 ≡ lent_of signed.now }
    ensures behind { result.1 ≡ at + length (signed_bytes signed.now) }
{
    let end = at + report_len(&signed.report);
    let signature_start = end + LENGTH_LEN;
    let signature_end = signature_start + signed.signature.as_bytes().len();
    let part = SignedPart {
        signer: signed.report.signer,
        frame,
        start: at,
        end,
        signature_start,
        signature_end,
    };
    (part, signature_end)
}

/// The signed reports of the lock in a frame whose last `signature_len` bytes are the signature.
fn reports_in_lock<'a>(frame: &'a Bytes, lock: &'a Lock, signature_len: usize) -> LentReports<'a>
    requires { HoldsFrame frame.now (Statement.Lock lock.now) signature_len }
    ensures { result ≡ map lent_of lock.now.proof }
{
    let reports = lock.proof.as_slice();
    let end = frame.len() - signature_len - LENGTH_LEN;
    LentReports {
        reports,
        frame,
        at: end - reports_len(reports),
    }
}

/// The signed reports of the statement in a frame whose last `signature_len` bytes are the signature; none if it is no
/// lock.
pub fn reports_in<'a>(
    frame: &'a Bytes,
    statement: &'a Statement,
    signature_len: usize,
) -> LentReports<'a>
    requires { HoldsFrame frame.now statement.now signature_len }
    ensures { result ≡ map lent_of (proof_of statement.now) }
{
    match statement {
        Statement::Lock(lock) => reports_in_lock(frame, lock, signature_len),
        Statement::Report(_) | Statement::Ack(_) => LentReports {
            reports: &[],
            frame,
            at: frame.len(),
        },
    }
}
