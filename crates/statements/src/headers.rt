//! Decodes reports, locks and acknowledgements, each without its first byte.

ghost use Rattle.std.specs.Prelude.{◌≡◌};
ghost use Rattle.ledger_model.specs.Reading.{place_at, report_at, ack_at};
ghost use Rattle.statements.specs.Reads.{IsReadFrom, ReadsAs};
ghost use Rattle.statements.specs.Headers.{header_of};

use crate::DecodeFault;
use crate::fields::{take_byte, take_flag, take_positive};
use crate::values::{take_batch, take_list};
use ledger_model::{Ack, Height, Phase, ReplicaId, Report, Version};
use octets::Cursor;
use std::alloc::Global;

/// The fields that every statement starts with, after its first byte.
#[derive(Drop)]
pub struct Header {
    pub height: Height,
    pub phase: Phase,
    pub signer: ReplicaId,
}

/// Takes a header: a height, a phase and a signer.
#[tactic(auto, unfolding(ledger_model::specs::Reading::place_at))]
pub fn take_place(cursor: &mut Cursor) -> Result<Header, DecodeFault>
    ensures { ReadsAs header_of result cursor.new (place_at cursor.old) }
{
    let height = take_positive(cursor)?;
    let phase = take_positive(cursor)?;
    let signer = take_byte(cursor)?;
    Ok(Header {
        height: Height::new(height),
        phase: Phase::new(phase),
        signer: ReplicaId::new(signer),
    })
}

/// Takes a report of this version, without its first byte.
#[tactic(auto, unfolding(ledger_model::specs::Reading::report_at))]
pub fn take_report(
    alloc: Global,
    cursor: &mut Cursor,
    version: Version,
) -> Result<Report, DecodeFault>
    ensures { IsReadFrom result cursor.new (report_at version cursor.old) }
{
    let place = take_place(cursor)?;
    let all = take_flag(cursor)?;
    let initial = take_batch(alloc, cursor, version)?;
    let proper = take_list(alloc, cursor, version)?;
    if proper.as_slice().is_empty() {
        return Err(DecodeFault::Malformed);
    }
    let locked = take_list(alloc, cursor, version)?;
    Ok(Report {
        version,
        height: place.height,
        phase: place.phase,
        signer: place.signer,
        all,
        initial,
        proper,
        locked,
    })
}

/// Takes an acknowledgement of this version, without its first byte.
#[tactic(auto, unfolding(ledger_model::specs::Reading::ack_at))]
pub fn take_ack(alloc: Global, cursor: &mut Cursor, version: Version) -> Result<Ack, DecodeFault>
    ensures { IsReadFrom result cursor.new (ack_at version cursor.old) }
{
    let place = take_place(cursor)?;
    let value = take_batch(alloc, cursor, version)?;
    Ok(Ack {
        version,
        height: place.height,
        phase: place.phase,
        signer: place.signer,
        value,
    })
}
