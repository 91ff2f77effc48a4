//! The reports that serve in the proof of a liar's lock: those of its height and of one phase, of a version that it carries, that find
//! its value.
ghost use Rattle.std.specs.Prelude.{◌≡◌, ◌∷◌, [], IfOk, IfSome, IsTrue, true};
ghost use Rattle.ledger_model.specs.Spelling.{IsSignedReport};
ghost use Rattle.ledger_model.specs.Versions.{reads};
ghost use Rattle.simulation.specs.Lies.{serves_report, signed_report_of, if_serves, first_serving};

use bytes::Bytes;
use ledger_model::{Phase, ReplicaId, Report, Signature, SignedReport, Statement, Version};
use scenario_texts::Lie;
use signed_frames::Frame;
use statements::DecodeFault;
use std::alloc::{AllocError, Global};

/// Whether the report is the replica's, and serves in a proof that has reports of the source phase.
fn serves(lie: &Lie, source: Phase, replica: ReplicaId, report: &Report) -> bool
    ensures serves { result ≡ serves_report lie.now source replica report.now }
    ensures carried { result ≡ true → IsTrue (reads lie.now.version report.now.version) }
{
    report.signer == replica
        && report.height == lie.height
        && report.phase == source
        && lie.version.reads(report.version)
        && report.finds(&lie.batch)
}

/// The report in a frame with its signature, if it is a serving report.
fn serving_in(
    alloc: Global,
    lie: &Lie,
    source: Phase,
    replica: ReplicaId,
    frame: &Frame,
) -> Result<Option<SignedReport>, AllocError>
    ensures found { IfOk result (λ found. found ≡ if_serves lie.now source replica (signed_report_of frame.now)) }
    ensures spelled { IfOk result (λ found. IfSome found (λ signed. IsSignedReport lie.now.version signed)) }
{
    match frame.statement() {
        Statement::Report(report) if serves(lie, source, replica, report) => {
            let signature = Signature::new(Vec::from_slice(alloc, frame.signature())?);
            Ok(Some(SignedReport {
                report: report.copy()?,
                signature,
            }))
        }
        _ => Ok(None),
    }
}

/// The report that the bytes are a frame of, if it is a serving report.
pub(crate) fn serving_bytes(
    alloc: Global,
    lie: &Lie,
    source: Phase,
    replica: ReplicaId,
    bytes: &Bytes,
) -> Result<Option<SignedReport>, AllocError>
    ensures found { IfOk result (λ found. found ≡ first_serving lie.now source replica (bytes.now ∷ [])) }
    ensures spelled { IfOk result (λ found. IfSome found (λ signed. IsSignedReport lie.now.version signed)) }
{
    match Frame::parse_in(Version::Two, alloc, bytes.clone()?) {
        Ok(frame) => serving_in(alloc, lie, source, replica, &frame),
        Err(DecodeFault::Malformed) => Ok(None),
        Err(DecodeFault::NoMemory) => Err(AllocError),
    }
}
