//! `abft audit`: reads histories, audits them, and writes what it finds.
ghost use Rattle.std.specs.Prelude.{◌≡◌, ◌⊎◌, Bool, Option, None, MatchResult, IfErr, IfOk};
ghost use Rattle.cluster_setup.specs.KnownClusters.{known_config, known_ring};
ghost use Rattle.history_audit.specs.Findings.{IsFinding};
ghost use Rattle.byte_streams.specs.Faults.{IsMemoryOrAsked, IsMemoryOrRandom};
ghost use Rattle.program.specs.HistoryInput.{OutputsDone, OutputsDoneSome};
ghost use Rattle.program.specs.Auditing.{Audited, Audits, AuditsSome, audit_status, audit_text, receipt_check};

use crate::history_input::{print_bad_history, read_history_input};
use crate::outcome::Conclusion;
use crate::status::BAD_INPUT;
use app_states::Opening;
use byte_streams::{ProgramFault, write_output};
use cluster_setup::{AuditSettings, KnownCluster, all_keys};
use history_audit::{AuditFault, are_of_a_quorum, audited};
use ledger_model::{Config, History, Ledger};
use printed_lines::{Text, add_finding, add_receipt, explanation, finding_status, has_receipt};
use std::alloc::{AllocError, Global};
use std::io::{Read, Write};
use std::random::RandomSource;

/// Whether the receipt of the settings holds in one of the histories, if there is a receipt.
fn check_receipt(settings: &AuditSettings, histories: &[History]) -> Option<bool>
    ensures { result ≡ receipt_check settings.now.receipt histories.now }
{
    let receipt = settings.receipt.as_ref()?;
    Some(has_receipt(histories, receipt.replica, receipt.index, &receipt.tx))
}

/// What is printed of a finding: after a ledger, whether the receipt holds.
fn text_of(
    alloc: Global,
    finding: &Result<Ledger, AuditFault>,
    receipt: Option<bool>,
) -> Result<Text, AllocError>
    ensures { IfOk result (λ text. text ≡ audit_text finding.now receipt) }
{
    let mut text = Text::new(alloc);
    add_finding(&mut text, finding)?;
    if finding.is_ok() {
        if let Some(holds) = receipt {
            add_receipt(&mut text, holds)?;
        }
    }
    Ok(text)
}

/// The exit status: 0 for a ledger, unless the receipt is wrong.
fn status_of(finding: &Result<Ledger, AuditFault>, receipt: Option<bool>) -> u8
    ensures { result ≡ audit_status finding.now receipt }
{
    match (finding, receipt) {
        (Ok(_), Some(false)) => BAD_INPUT,
        (Ok(_), Some(true) | None) | (Err(_), _) => finding_status(finding),
    }
}

/// The sentence about a fault that was found.
fn explained(
    alloc: Global,
    config: &Config,
    histories: &[History],
    finding: &Result<Ledger, AuditFault>,
) -> Result<Option<String>, AllocError>
    ensures { IfOk result (λ text. (r : Option Bool) → (text ≡ None) ⊎ (audit_status finding.now r ≡ 1)) }
{
    match finding {
        Ok(_) => Ok(None),
        Err(fault) => Ok(Some(explanation(alloc, config, histories, fault)?)),
    }
}

/// What an audit of the histories finds under the public keys of the cluster. From a seed these are computed only if the count is right.
fn found<A: Opening, S: RandomSource>(
    source: &S,
    alloc: Global,
    cluster: &KnownCluster,
    histories: &[History],
) -> Result<Result<Ledger, AuditFault>, ProgramFault>
    ensures finds { IfOk result (λ finding. IsFinding A.meaning (known_config cluster.now) (known_ring cluster.now) histories.now finding) }
    ensures fault { IfErr result IsMemoryOrRandom }
{
    if !are_of_a_quorum(cluster.config(), histories) {
        return Ok(Err(AuditFault::Count));
    }
    match cluster {
        KnownCluster::BySeed(seeded) => {
            let keys = all_keys(alloc, seeded)?;
            audited::<A, S>(source, alloc, &seeded.config, &keys.ring, histories)
        }
        KnownCluster::ByKeys(public) => {
            audited::<A, S>(source, alloc, &public.config, &public.ring, histories)
        }
    }
}

/// Audits histories and writes what it finds.
fn audit_histories<A: Opening, S: RandomSource, W: Write>(
    source: &S,
    alloc: Global,
    settings: &AuditSettings,
    histories: &[History],
    writer: &mut W,
) -> Result<Conclusion, ProgramFault>
    ensures audits { MatchResult result
        (λ ending. OutputsDone (Audited A.meaning settings.now) histories.now ending.status (W.contents writer.old) (W.contents writer.new))
        (λ _. OutputsDoneSome (Audited A.meaning settings.now) histories.now (W.contents writer.old) (W.contents writer.new)) }
    ensures explains { IfOk result (λ ending. (ending.explanation ≡ None) ⊎ (ending.status ≡ 1)) }
    ensures fault { IfErr result IsMemoryOrAsked }
{
    let finding = found::<A, S>(source, alloc, &settings.cluster, histories)?;
    let receipt = check_receipt(settings, histories);
    let text = text_of(alloc, &finding, receipt)?;
    let explanation = explained(alloc, settings.cluster.config(), histories, &finding)?;
    write_output(writer, text.as_bytes())?;
    Ok(Conclusion {
        status: status_of(&finding, receipt),
        explanation,
    })
}

/// Reads the histories of a stream to its end, audits them under the public keys of the settings' cluster, and writes what it finds:
/// the ledger and whether the receipt holds, or the first fault. If the bytes are no histories, it writes that. The random
/// bytes are the keys of hashes.
///
/// The end has a sentence about a fault that was found.
pub fn audit<A: Opening, S: RandomSource, R: Read, W: Write>(
    source: &S,
    alloc: Global,
    settings: &AuditSettings,
    reader: &mut R,
    writer: &mut W,
) -> Result<Conclusion, ProgramFault>
    ensures audits { MatchResult result
        (λ ending. Audits A.meaning settings.now ending.status (R.remaining reader.old) (R.remaining reader.new) (W.contents writer.old)
        (W.contents writer.new))
        (λ _. AuditsSome A.meaning settings.now (R.remaining reader.old) (R.remaining reader.new) (W.contents writer.old)
        (W.contents writer.new)) }
    // Nothing is explained at status 0.
    ensures explains { IfOk result (λ ending. (ending.explanation ≡ None) ⊎ (ending.status ≡ 1)) }
    ensures fault { IfErr result IsMemoryOrAsked }
{
    match read_history_input(alloc, settings.cluster.config().frames, reader)? {
        Some(histories) => audit_histories::<A, S, W>(source, alloc, settings, &histories, writer),
        None => print_bad_history(writer),
    }
}
