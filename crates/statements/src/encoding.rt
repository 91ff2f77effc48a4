//! Encodes statements, appended to a vector.

ghost use Rattle.std.specs.Prelude.{◌≡◌, ◌≤◌, ◌∷◌, ◌++◌, [], length, IfOk, OnOk, if◌then◌else◌};
ghost use Rattle.std.specs.List.{flat_map, AllByRecursion};
ghost use Rattle.std.specs.Int.{w32, to_be_bytes};
ghost use Rattle.ledger_model.specs.Values.{value_bytes};
ghost use Rattle.ledger_model.specs.Versions.{first_byte};
ghost use Rattle.ledger_model.specs.declared.version.Version.{Version};
ghost use Rattle.ledger_model.specs.Spelling.{list_bytes, report_bytes, signature_bytes, signed_bytes, lock_bytes, ack_bytes, statement_bytes, IsReport, IsSignature, IsSignedReport, IsLock, IsAck, IsStatement};

use crate::lengths::encoded_len;
use ledger_model::{
    Ack, Batch, Batches, Height, Lock, Phase, ReplicaId, Report, Signature, SignedReport,
    Statement, Tx, Version,
};
use octets::{put_bytes, put_u8, put_u16, put_u32};
use std::alloc::{AllocError, Global};

fn put_tx(out: &mut Vec<u8>, tx: &Tx) -> Result<(), AllocError>
    ensures { OnOk result (out.new.items ≡ out.old.items ++ length tx.now ∷ tx.now) }
{
    let bytes = tx.as_bytes();
    put_u8(out, bytes.len() as u8)?;
    put_bytes(out, bytes)
}

/// Appends the batch: the number of its transactions, then each one after its length.
pub fn put_batch(out: &mut Vec<u8>, batch: &Batch) -> Result<(), AllocError>
    ensures { OnOk result (out.new.items ≡ out.old.items ++ value_bytes batch.now) }
{
    let transactions = batch.transactions();
    put_u8(out, transactions.len() as u8)?;
    for tx in transactions {
        put_tx(out, tx)?;
    }
    Ok(())
}

fn put_list(out: &mut Vec<u8>, list: &Batches) -> Result<(), AllocError>
    requires { length list.now ≤ 4 }
    ensures { OnOk result (out.new.items ≡ out.old.items ++ list_bytes list.now) }
{
    let batches = list.as_slice();
    put_u8(out, batches.len() as u8)?;
    for batch in batches {
        put_batch(out, batch)?;
    }
    Ok(())
}

fn put_signature(out: &mut Vec<u8>, signature: &Signature) -> Result<(), AllocError>
    requires { IsSignature signature.now }
    ensures { OnOk result (out.new.items ≡ out.old.items ++ signature_bytes signature.now) }
{
    let bytes = signature.as_bytes();
    put_u16(out, bytes.len() as u16)?;
    put_bytes(out, bytes)
}

/// The kinds of statements, as their first bytes tell them.
const REPORT: u8 = 1;

const LOCK: u8 = 2;

const ACK: u8 = 3;

/// The first byte of a statement of this version and kind.
fn first_byte(version: Version, kind: u8) -> u8
    requires { kind ≤ 3 }
    ensures { result ≡ first_byte version kind }
{
    match version {
        Version::One => kind,
        Version::Two => kind + 16,
    }
}

fn put_place(
    out: &mut Vec<u8>,
    version: Version,
    kind: u8,
    height: Height,
    phase: Phase,
    signer: ReplicaId,
) -> Result<(), AllocError>
    requires { kind ≤ 3 }
    ensures { OnOk result (out.new.items ≡ out.old.items
        ++ (first_byte version kind ∷ to_be_bytes w32 height ++ to_be_bytes w32 phase ++ signer ∷ [])) }
{
    put_u8(out, first_byte(version, kind))?;
    put_u32(out, height.number())?;
    put_u32(out, phase.number())?;
    put_u8(out, signer.number())
}

fn put_flag(out: &mut Vec<u8>, flag: bool) -> Result<(), AllocError>
    ensures { OnOk result (out.new.items ≡ out.old.items ++ (if flag then 1 else 0) ∷ []) }
{
    Ok(put_u8(out, u8::from(flag))?)
}

fn put_report(out: &mut Vec<u8>, report: &Report) -> Result<(), AllocError>
    requires { IsReport report.now }
    ensures { OnOk result (out.new.items ≡ out.old.items ++ report_bytes report.now) }
{
    put_place(
        out,
        report.version,
        REPORT,
        report.height,
        report.phase,
        report.signer,
    )?;
    put_flag(out, report.all)?;
    put_batch(out, &report.initial)?;
    put_list(out, &report.proper)?;
    put_list(out, &report.locked)
}

fn put_signed(out: &mut Vec<u8>, signed: &SignedReport) -> Result<(), AllocError>
    requires { IsReport signed.now.report × IsSignature signed.now.signature }
    ensures { OnOk result (out.new.items ≡ out.old.items ++ signed_bytes signed.now) }
{
    put_report(out, &signed.report)?;
    put_signature(out, &signed.signature)
}

fn put_reports(out: &mut Vec<u8>, reports: &[SignedReport]) -> Result<(), AllocError>
    requires { (version : Version) × AllByRecursion (IsSignedReport version) reports.now }
    ensures { OnOk result (out.new.items ≡ out.old.items ++ flat_map signed_bytes reports.now) }
{
    for signed in reports {
        put_signed(out, signed)?;
    }
    Ok(())
}

fn put_lock(out: &mut Vec<u8>, lock: &Lock) -> Result<(), AllocError>
    requires { IsLock lock.now }
    ensures { OnOk result (out.new.items ≡ out.old.items ++ lock_bytes lock.now) }
{
    let reports = lock.proof.as_slice();
    put_place(
        out,
        lock.version,
        LOCK,
        lock.height,
        lock.phase,
        lock.signer,
    )?;
    put_batch(out, &lock.value)?;
    put_u8(out, reports.len() as u8)?;
    put_reports(out, reports)
}

fn put_ack(out: &mut Vec<u8>, ack: &Ack) -> Result<(), AllocError>
    requires { IsAck ack.now }
    ensures { OnOk result (out.new.items ≡ out.old.items ++ ack_bytes ack.now) }
{
    put_place(out, ack.version, ACK, ack.height, ack.phase, ack.signer)?;
    put_batch(out, &ack.value)
}

/// Appends the one encoding of the statement, which has [`encoded_len`] bytes.
#[tactic(auto, unfolding(ledger_model::specs::Spelling::statement_bytes))]
pub fn put_statement(out: &mut Vec<u8>, statement: &Statement) -> Result<(), AllocError>
    requires { IsStatement statement.now }
    ensures { OnOk result (out.new.items ≡ out.old.items ++ statement_bytes statement.now) }
{
    match statement {
        Statement::Report(report) => put_report(out, report),
        Statement::Lock(lock) => put_lock(out, lock),
        Statement::Ack(ack) => put_ack(out, ack),
    }
}

/// The one encoding of the statement. Its fields must be within their limits, as those of every decoded statement are.
pub fn encode(alloc: Global, statement: &Statement) -> Result<Vec<u8>, AllocError>
    requires { IsStatement statement.now }
    ensures { IfOk result (λ bytes. bytes.items ≡ statement_bytes statement.now) }
{
    let mut out = Vec::with_capacity(alloc, encoded_len(statement))?;
    put_statement(&mut out, statement)?;
    Ok(out)
}
