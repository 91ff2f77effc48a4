//! Decodes whole statements.

ghost use Rattle.std.specs.Prelude.{◌≡◌, IfOk, OnErr};
ghost use Rattle.ledger_model.specs.declared.statement.Statement.{Statement};
ghost use Rattle.ledger_model.specs.declared.version.Version.TheVariants.{One};
ghost use Rattle.ledger_model.specs.Spelling.{Spells};
ghost use Rattle.ledger_model.specs.Reading.{statement_at, statement_reading};
ghost use Rattle.statements.specs.Reads.{IsReadFrom, IsReadingOr};

use crate::DecodeFault;
use crate::fields::take_byte;
use crate::headers::{take_ack, take_report};
use crate::locks::take_lock;
use ledger_model::{Statement, Version};
use octets::Cursor;
use std::alloc::Global;

#[tactic(auto, unfolding(ledger_model::specs::Reading::statement_at))]
fn statement_from(alloc: Global, cursor: &mut Cursor) -> Result<Statement, DecodeFault>
    ensures { IsReadFrom result cursor.new (statement_at cursor.old) }
{
    match take_byte(cursor)? {
        0x01 => Ok(Statement::Report(take_report(alloc, cursor, Version::One)?)),
        0x02 => Ok(Statement::Lock(take_lock(alloc, cursor, Version::One)?)),
        0x03 => Ok(Statement::Ack(take_ack(alloc, cursor, Version::One)?)),
        0x11 => Ok(Statement::Report(take_report(alloc, cursor, Version::Two)?)),
        0x12 => Ok(Statement::Lock(take_lock(alloc, cursor, Version::Two)?)),
        0x13 => Ok(Statement::Ack(take_ack(alloc, cursor, Version::Two)?)),
        _ => Err(DecodeFault::Malformed),
    }
}

/// Takes the statement, of whatever version, at the front of the cursor. After an error the cursor is where it was.
pub fn take_statement(alloc: Global, cursor: &mut Cursor) -> Result<Statement, DecodeFault>
    ensures read { IsReadFrom result cursor.new (statement_at cursor.old) }
    ensures err { OnErr result (cursor.new ≡ cursor.old) }
{
    let mut ahead = Cursor::new(cursor.rest());
    let statement = statement_from(alloc, &mut ahead)?;
    *cursor = ahead;
    Ok(statement)
}

#[tactic(auto, unfolding(ledger_model::specs::Reading::statement_reading))]
fn whole_statement(version: Version, alloc: Global, bytes: &[u8]) -> Result<Statement, DecodeFault>
    ensures { IsReadingOr result (statement_reading version bytes.now) }
{
    let mut cursor = Cursor::new(bytes);
    let statement = statement_from(alloc, &mut cursor)?;
    if !cursor.is_empty() || !version.reads(statement.version()) {
        return Err(DecodeFault::Malformed);
    }
    Ok(statement)
}

/// The statement that all of the bytes are, if frames of this version carry it. `Malformed` comes if they are no such statement,
/// `NoMemory` if memory ran out.
pub fn decode_in(version: Version, alloc: Global, bytes: &[u8]) -> Result<Statement, DecodeFault>
    // The bytes encode the statement that is returned.
    ensures found { IfOk result (λ statement. Spells version bytes.now statement) }
    // If the bytes encode a statement, it is returned, unless memory runs out.
    ensures only { (statement : Statement) → Spells version bytes.now statement → IsReadingOr result (Some statement) }
    // The result is the reading of the definitions, and Malformed comes exactly if there is none.
    ensures exact { IsReadingOr result (statement_reading version bytes.now) }
{
    whole_statement(version, alloc, bytes)
}

/// The statement of version 1 that all of the bytes are: [`decode_in`] with version 1.
pub fn decode(alloc: Global, bytes: &[u8]) -> Result<Statement, DecodeFault>
    ensures found { IfOk result (λ statement. Spells One bytes.now statement) }
    ensures only { (statement : Statement) → Spells One bytes.now statement → IsReadingOr result (Some statement) }
    ensures exact { IsReadingOr result (statement_reading One bytes.now) }
{
    decode_in(Version::One, alloc, bytes)
}
