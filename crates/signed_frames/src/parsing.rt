//! Parses the body of a frame.

ghost use Rattle.std.specs.Prelude.{◌≡◌, ◌+◌, ◌-◌, ◌≤◌, length, take, drop, IfOk, MatchResult};
ghost use Rattle.ledger_model.specs.declared.statement.SignedStatement.{SignedStatement};
ghost use Rattle.ledger_model.specs.GrammarLaws.{IsBytes};
ghost use Rattle.ledger_model.specs.Spelling.{SpellsFrame};
ghost use Rattle.ledger_model.specs.Reading.{reading_in, body_reading};
ghost use Rattle.ledger_model.specs.declared.version.Version.{Version};
ghost use Rattle.statements.specs.Reads.{IsFaultOf};
ghost use Rattle.signed_frames.specs.Parts.{GivesParts};

use crate::HEADER_LEN;
use ledger_model::{Statement, Version};
use octets::Cursor;
use statements::{DecodeFault, take_signature_bytes, take_statement};
use std::alloc::Global;

/// The number of bytes of a signature's length.
pub const LENGTH_LEN: usize = 2;

/// The bytes between the length of a frame and that of its signature.
pub fn message_in(frame: &[u8], signature_len: usize) -> &[u8]
    requires { 6 + signature_len ≤ length frame.now }
    ensures { result.now ≡ take (length (drop 4 frame.now) - 2 - signature_len) (drop 4 frame.now) }
{
    let (_, body) = frame.split_at(HEADER_LEN);
    let (message, _) = body.split_at(body.len() - LENGTH_LEN - signature_len);
    message
}

/// The body of the frame that the bytes are: the bytes after its length, if they are exactly that many.
#[tactic(auto, unfolding(ledger_model::specs::Reading::reading_in))]
fn body_at(bytes: &[u8]) -> Result<&[u8], DecodeFault>
    ensures read { MatchResult result (λ body. (version : Version) → reading_in version bytes.now ≡ body_reading version body.now)
        (λ fault. (version : Version) → IsFaultOf fault (reading_in version bytes.now)) }
    ensures bytes { IfOk result (λ body. IsBytes body.now) }
{
    let mut cursor = Cursor::new(bytes);
    let len = cursor.take_u32()? as usize;
    if cursor.len() != len {
        return Err(DecodeFault::Malformed);
    }
    Ok(cursor.rest())
}

/// The same as [`parts_of`]. A statement and its signature are never longer than a body of their version may be.
#[tactic(auto, unfolding(ledger_model::specs::Reading::body_reading))]
fn parts_at(
    version: Version,
    alloc: Global,
    bytes: &[u8],
) -> Result<(Statement, &[u8]), DecodeFault>
    ensures { GivesParts result (reading_in version bytes.now) }
{
    let body = body_at(bytes)?;
    let mut cursor = Cursor::new(body);
    let statement = take_statement(alloc, &mut cursor)?;
    let signature = take_signature_bytes(&mut cursor)?;
    if !cursor.is_empty() || !version.reads(statement.version()) {
        return Err(DecodeFault::Malformed);
    }
    Ok((statement, signature))
}

/// The statement and the signature of the frame of this version that all of the bytes are.
pub fn parts_of(
    version: Version,
    alloc: Global,
    bytes: &[u8],
) -> Result<(Statement, &[u8]), DecodeFault>
    ensures exact { GivesParts result (reading_in version bytes.now) }
    ensures spelled { IfOk result
        (λ x. SpellsFrame version bytes.now (record { statement = x.0; signature = x.1.now })) }
{
    parts_at(version, alloc, bytes)
}
