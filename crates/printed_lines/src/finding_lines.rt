//! Appends the lines of an audit's answer.
ghost use Rattle.std.specs.Prelude.{◌≡◌, ◌++◌, OnOk};
ghost use Rattle.printed_lines.specs.AuditLines.{block_line, block_lines, ledger_text, fault_text, finding_text, finding_status, receipt_line};

use crate::Text;
use history_audit::AuditFault;
use ledger_model::{Batch, Ledger, ReplicaId};
use std::alloc::AllocError;

/// `H BATCH`.
fn add_block(out: &mut Text, height: usize, batch: &Batch) -> Result<(), AllocError>
    ensures { OnOk result (out.new ≡ out.old ++ block_line height batch.now) }
{
    let head = format!(in out.allocator(); "{height} ")?;
    out.add(&head)?;
    out.add_batch(batch)?;
    out.add("\n")
}

/// The line of each block, from height 1 on.
fn add_blocks(out: &mut Text, blocks: &[Batch]) -> Result<(), AllocError>
    ensures { OnOk result (out.new ≡ out.old ++ block_lines 1 blocks.now) }
{
    for (index, batch) in blocks.iter().enumerate() {
        add_block(out, index + 1, batch)?;
    }
    Ok(())
}

/// `ledger C`, and `H BATCH` for each of its blocks.
#[tactic(auto, unfolding(crate::specs::AuditLines::ledger_text))]
fn add_ledger(out: &mut Text, ledger: &Ledger) -> Result<(), AllocError>
    ensures { OnOk result (out.new ≡ out.old ++ ledger_text ledger.now) }
{
    let blocks = ledger.blocks();
    let count = blocks.len();
    let head = format!(in out.allocator(); "ledger {count}\n")?;
    out.add(&head)?;
    add_blocks(out, blocks)
}

/// `fault 2 NotReplay R I`.
fn add_not_replay(out: &mut Text, replica: ReplicaId, index: usize) -> Result<(), AllocError>
    ensures { OnOk result (out.new ≡ out.old ++ fault_text (AuditFault.NotReplay replica index)) }
{
    let number = AuditFault::NotReplay { replica, index }.number();
    let replica = replica.number();
    let line = format!(in out.allocator(); "fault {number} NotReplay {replica} {index}\n")?;
    out.add(&line)
}

/// `fault 3 Unsent READER I SIGNER`.
fn add_unsent(
    out: &mut Text,
    reader: ReplicaId,
    index: usize,
    signer: ReplicaId,
) -> Result<(), AllocError>
    ensures { OnOk result (out.new ≡ out.old ++ fault_text (AuditFault.Unsent reader index signer)) }
{
    let fault = AuditFault::Unsent {
        reader,
        index,
        signer,
    };
    let number = fault.number();
    let reader = reader.number();
    let signer = signer.number();
    let line = format!(in out.allocator(); "fault {number} Unsent {reader} {index} {signer}\n")?;
    out.add(&line)
}

/// `fault 1 Count`.
fn add_count(out: &mut Text) -> Result<(), AllocError>
    ensures { OnOk result (out.new ≡ out.old ++ fault_text AuditFault.Count) }
{
    let number = AuditFault::Count.number();
    let line = format!(in out.allocator(); "fault {number} Count\n")?;
    out.add(&line)
}

/// The line of a fault; `NoMemory` has none.
fn add_fault(out: &mut Text, fault: AuditFault) -> Result<(), AllocError>
    ensures { OnOk result (out.new ≡ out.old ++ fault_text fault) }
{
    match fault {
        AuditFault::Count => add_count(out),
        AuditFault::NotReplay { replica, index } => add_not_replay(out, replica, index),
        AuditFault::Unsent {
            reader,
            index,
            signer,
        } => add_unsent(out, reader, index, signer),
        AuditFault::NoMemory => Ok(()),
    }
}

/// Appends what an audit found: `ledger C` and `H BATCH` for each block, or the line of a fault. Nothing is appended for
/// `NoMemory`. The only error is allocation failure; part of the text may then be there.
pub fn add_finding(out: &mut Text, finding: &Result<Ledger, AuditFault>) -> Result<(), AllocError>
    ensures { OnOk result (out.new ≡ out.old ++ finding_text finding.now) }
{
    match finding {
        Ok(ledger) => add_ledger(out, ledger),
        Err(fault) => add_fault(out, *fault),
    }
}

/// The exit status of a program that prints a finding: 0 for a ledger, and 1 for a fault.
pub fn finding_status(finding: &Result<Ledger, AuditFault>) -> u8
    ensures { result ≡ finding_status finding.now }
{
    match finding {
        Ok(_) => 0,
        Err(_) => 1,
    }
}

/// Appends `receipt ok` or `receipt wrong`. The only error is allocation failure.
pub fn add_receipt(out: &mut Text, holds: bool) -> Result<(), AllocError>
    ensures { OnOk result (out.new ≡ out.old ++ receipt_line holds) }
{
    out.add(if holds {
        "receipt ok\n"
    } else {
        "receipt wrong\n"
    })
}
