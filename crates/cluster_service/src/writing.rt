//! Writes and flushes the lines of a cluster.
ghost use Rattle.std.specs.Prelude.{option_map, IfErr};
ghost use Rattle.byte_streams.specs.Writing.{Writes};
ghost use Rattle.printed_lines.specs.AuditLines.{finding_text};
ghost use Rattle.cluster_service.specs.Lines.{commit_lines, port_lines};
ghost use Rattle.cluster_service.specs.Reporting.{WritesFinding};
ghost use Rattle.cluster_service.specs.RunFaults.{IsLineFault, IsWriteFault};

use crate::final_histories::FinalHistories;
use crate::lines::{commit_lines, port_lines};
use crate::ports::Listeners;
use app_states::Opening;
use byte_streams::{ProgramFault, flush_output, write_output};
use history_audit::{AuditFault, audited};
use ledger_model::{Config, Ledger};
use printed_lines::{Text, add_finding, finding_status};
use std::alloc::Global;
use std::io::Write;
use std::random::RandomSource;

/// Writes a line for each replica.
pub fn write_commits<W: Write>(
    alloc: Global,
    heights: &[u32],
    writer: &mut W,
) -> Result<(), ProgramFault>
    ensures written { Writes result (W.contents writer.old) (W.contents writer.new) (commit_lines 0 heights.now) }
    ensures fault { IfErr result IsWriteFault }
{
    let text = commit_lines(alloc, heights)?;
    write_output(writer, text.as_bytes())?;
    flush_output(writer)?;
    Ok(())
}

/// Writes the line with the port of the sessions, and one with the port of HTTP, if it is served; and flushes them, so that their reader has
/// them before the cluster runs.
pub fn write_ports<W: Write>(
    alloc: Global,
    listeners: &Listeners,
    writer: &mut W,
) -> Result<(), ProgramFault>
    ensures written { Writes result (W.contents writer.old) (W.contents writer.new)
        (port_lines listeners.now.sessions.port (option_map (λ h. h.port) listeners.now.http)) }
    ensures fault { IfErr result IsWriteFault }
{
    let lines = port_lines(alloc, listeners.sessions.port, &listeners.http)?;
    write_output(writer, lines.as_bytes())?;
    flush_output(writer)?;
    Ok(())
}

/// Writes what an audit finds.
fn write_finding<W: Write>(
    alloc: Global,
    finding: &Result<Ledger, AuditFault>,
    writer: &mut W,
) -> Result<(), ProgramFault>
    ensures written { Writes result (W.contents writer.old) (W.contents writer.new) (finding_text finding.now) }
    ensures fault { IfErr result IsWriteFault }
{
    let mut text = Text::new(alloc);
    add_finding(&mut text, finding)?;
    write_output(writer, text.as_bytes())?;
    flush_output(writer)?;
    Ok(())
}

/// Writes a line for each replica, and then what the audit of their histories finds. Returns the exit status.
pub(crate) fn write_lines<A: Opening, S: RandomSource, W: Write>(
    source: &S,
    alloc: Global,
    config: &Config,
    left: &FinalHistories,
    writer: &mut W,
) -> Result<u8, ProgramFault>
    ensures written { WritesFinding A.meaning config.now left.now.ring left.now.histories.items left.now.heights.items
        result (W.contents writer.old) (W.contents writer.new) }
    ensures fault { IfErr result IsLineFault }
{
    write_commits(alloc, &left.heights, writer)?;
    let finding = audited::<A, S>(source, alloc, config, &left.ring, &left.histories)?;
    write_finding(alloc, &finding, writer)?;
    Ok(finding_status(&finding))
}
