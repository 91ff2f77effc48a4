//! The numbers of bytes of encoded statements.

ghost use Rattle.std.specs.Prelude.{◌≡◌, ◌≤◌, ◌*◌, ◌∷◌, length};
ghost use Rattle.std.specs.List.{flat_map, AllByRecursion};
ghost use Rattle.ledger_model.specs.Values.{value_bytes};
ghost use Rattle.ledger_model.specs.declared.version.Version.{Version};
ghost use Rattle.ledger_model.specs.Spelling.{list_bytes, report_bytes, signed_bytes, lock_bytes, ack_bytes, statement_bytes, IsReport, IsSignature, IsSignedReport, IsLock, IsAck, IsStatement};

use ledger_model::{Ack, Batch, Batches, Lock, Report, SignedReport, Statement, Tx};

/// The number of bytes of first byte, height, phase and signer.
const PLACE_LEN: usize = 10;

fn tx_len(tx: &Tx) -> usize
    ensures len { result ≡ length (length tx.now ∷ tx.now) }
    ensures bound { result ≤ 65 }
{
    1 + tx.as_bytes().len()
}

fn batch_len(batch: &Batch) -> usize
    ensures len { result ≡ length (value_bytes batch.now) }
    ensures bound { result ≤ 4161 }
{
    let transactions = batch.transactions();
    let mut len = 1;
    for tx in transactions {
        len += tx_len(tx);
    }
    len
}

fn list_len(list: &Batches) -> usize
    requires { length list.now ≤ 4 }
    ensures len { result ≡ length (list_bytes list.now) }
    ensures bound { result ≤ 16645 }
{
    let batches = list.as_slice();
    let mut len = 1;
    for batch in batches {
        len += batch_len(batch);
    }
    len
}

/// The number of bytes of the encoded report.
pub fn report_len(report: &Report) -> usize
    requires { IsReport report.now }
    ensures len { result ≡ length (report_bytes report.now) }
    ensures bound { result ≤ 37462 }
{
    PLACE_LEN + 1 + batch_len(&report.initial) + list_len(&report.proper) + list_len(&report.locked)
}

fn signed_len(signed: &SignedReport) -> usize
    requires { IsReport signed.now.report × IsSignature signed.now.signature }
    ensures len { result ≡ length (signed_bytes signed.now) }
    ensures bound { result ≤ 39972 }
{
    report_len(&signed.report) + 2 + signed.signature.as_bytes().len()
}

/// The number of bytes of at most 12 encoded signed reports together.
pub fn reports_len(reports: &[SignedReport]) -> usize
    requires count { length reports.now ≤ 12 }
    requires each { (version : Version) × AllByRecursion (IsSignedReport version) reports.now }
    ensures len { result ≡ length (flat_map signed_bytes reports.now) }
    ensures bound { result ≤ 39972 * length reports.now }
{
    let mut len = 0;
    for signed in reports {
        len += signed_len(signed);
    }
    len
}

fn lock_len(lock: &Lock) -> usize
    requires { IsLock lock.now }
    ensures { result ≡ length (lock_bytes lock.now) }
{
    PLACE_LEN + batch_len(&lock.value) + 1 + reports_len(lock.proof.as_slice())
}

fn ack_len(ack: &Ack) -> usize
    requires { IsAck ack.now }
    ensures { result ≡ length (ack_bytes ack.now) }
{
    PLACE_LEN + batch_len(&ack.value)
}

/// The number of bytes of the encoded statement.
#[tactic(auto, unfolding(ledger_model::specs::Spelling::statement_bytes))]
pub fn encoded_len(statement: &Statement) -> usize
    requires { IsStatement statement.now }
    ensures { result ≡ length (statement_bytes statement.now) }
{
    match statement {
        Statement::Report(report) => report_len(report),
        Statement::Lock(lock) => lock_len(lock),
        Statement::Ack(ack) => ack_len(ack),
    }
}
