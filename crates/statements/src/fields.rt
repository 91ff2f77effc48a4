//! Decodes fields of a fixed form from the front of a cursor.

ghost use Rattle.std.specs.Prelude.{◌≡◌, OnErr};
ghost use Rattle.std.specs.Int.{w16, w32};
ghost use Rattle.ledger_model.specs.Reading.{byte_at, bytes_at, number_at, positive_at, flag_at, signature_at};
ghost use Rattle.statements.specs.Reads.{IsReadFrom, ReadsAs};

use crate::DecodeFault;
use ledger_model::Signature;
use octets::Cursor;
use std::alloc::Global;

/// Takes the next byte.
pub fn take_byte(cursor: &mut Cursor) -> Result<u8, DecodeFault>
    ensures { IsReadFrom result cursor.new (byte_at cursor.old) }
{
    Ok(cursor.take_u8()?)
}

/// Takes the next `count` bytes, which are borrowed.
pub fn take_slice<'a>(cursor: &mut Cursor<'a>, count: usize) -> Result<&'a [u8], DecodeFault>
    ensures { ReadsAs (λ x. x.now) result cursor.new (bytes_at count cursor.old) }
{
    Ok(cursor.take_bytes(count)?)
}

fn take_length(cursor: &mut Cursor) -> Result<u16, DecodeFault>
    ensures { IsReadFrom result cursor.new (number_at w16 cursor.old) }
{
    Ok(cursor.take_u16()?)
}

fn take_number(cursor: &mut Cursor) -> Result<u32, DecodeFault>
    ensures { IsReadFrom result cursor.new (number_at w32 cursor.old) }
{
    Ok(cursor.take_u32()?)
}

/// A height or a phase, which is at least 1.
#[tactic(auto, unfolding(ledger_model::specs::Reading::positive_at))]
pub fn take_positive(cursor: &mut Cursor) -> Result<u32, DecodeFault>
    ensures { IsReadFrom result cursor.new (positive_at cursor.old) }
{
    let number = take_number(cursor)?;
    if number == 0 {
        return Err(DecodeFault::Malformed);
    }
    Ok(number)
}

/// A byte that is 0 or 1.
#[tactic(auto, unfolding(ledger_model::specs::Reading::flag_at))]
pub fn take_flag(cursor: &mut Cursor) -> Result<bool, DecodeFault>
    ensures { IsReadFrom result cursor.new (flag_at cursor.old) }
{
    match take_byte(cursor)? {
        0 => Ok(false),
        1 => Ok(true),
        _ => Err(DecodeFault::Malformed),
    }
}

#[tactic(auto, unfolding(ledger_model::specs::Reading::signature_at))]
fn signature_from<'a>(cursor: &mut Cursor<'a>) -> Result<&'a [u8], DecodeFault>
    ensures { ReadsAs (λ bytes. bytes.now) result cursor.new (signature_at cursor.old) }
{
    let len = usize::from(take_length(cursor)?);
    if len > Signature::MAX_LEN {
        return Err(DecodeFault::Malformed);
    }
    take_slice(cursor, len)
}

/// Takes the signature at the front: a length of two bytes, at most 2508, and that many bytes, which are borrowed.
/// After an error the cursor is where it was.
pub fn take_signature_bytes<'a>(cursor: &mut Cursor<'a>) -> Result<&'a [u8], DecodeFault>
    ensures read { ReadsAs (λ bytes. bytes.now) result cursor.new (signature_at cursor.old) }
    ensures err { OnErr result (cursor.new ≡ cursor.old) }
{
    let mut ahead = Cursor::new(cursor.rest());
    let bytes = signature_from(&mut ahead)?;
    *cursor = ahead;
    Ok(bytes)
}

/// Takes the signature at the front, with its bytes copied.
pub fn take_signature(alloc: Global, cursor: &mut Cursor) -> Result<Signature, DecodeFault>
    ensures { IsReadFrom result cursor.new (signature_at cursor.old) }
{
    let bytes = signature_from(cursor)?;
    Ok(Signature::new(Vec::from_slice(alloc, bytes)?))
}
