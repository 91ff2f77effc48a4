//! A position in shared bytes, from which numbers and bytes are taken.
ghost use Rattle.std.specs.Prelude.{◌≡◌, ◌≤◌, ◌==◌, length, drop, IfOk};
ghost use Rattle.std.specs.Int.{w16, w32};
ghost use Rattle.ledger_model.specs.Reading.{byte_at, bytes_at, number_at, flag_at};
ghost use Rattle.ledger_model.specs.GrammarLaws.{IsBytes};
ghost use Rattle.statements.specs.Reads.{IsReadFrom, ReadsAs};

use bytes::Bytes;
use octets::Cursor;
use statements::DecodeFault;
use std::marker::Model;

/// The same bytes; its contract adds that each is a byte.
fn whole(bytes: &[u8]) -> &[u8]
    ensures same { result.now ≡ bytes.now }
    ensures bytes { IsBytes result.now }
{
    bytes
}

/// A position in shared bytes. Contracts see the bytes from there on.
#[derive(Drop)]
pub(crate) struct Input<'a> {
    bytes: &'a Bytes,
    /// The number of bytes that are left.
    left: usize,
}

impl<'a> Model for Input<'a> {
    ghost use Rattle.std.specs.Prelude.{ℕ, List, ◌≤◌, ◌-◌, length, drop};

    ghost Value = { List ℕ };

    ghost view = { λ i. drop (length i.bytes.now - i.left) i.bytes.now };

    ghost invariant = { λ i. i.left ≤ length i.bytes.now };
}

impl<'a> Input<'a> {
    /// The position of the first byte.
    pub(crate) fn new(bytes: &'a Bytes) -> Self
        ensures all { result ≡ bytes.now }
        ensures bytes { IsBytes bytes.now }
    {
        Input {
            bytes,
            left: whole(bytes.as_slice()).len(),
        }
    }

    /// The bytes that are left.
    pub(crate) fn rest(&self) -> &'a [u8]
        ensures rest { result.now ≡ self.now }
        ensures bytes { IsBytes self.now }
    {
        whole(&self.bytes.as_slice()[self.bytes.len() - self.left..])
    }

    /// Whether no byte is left.
    pub(crate) fn is_empty(&self) -> bool
        ensures empty { result ≡ (length self.now == 0) }
        ensures bytes { IsBytes self.now }
    {
        self.rest().is_empty()
    }

    fn advance(&mut self, count: usize)
        requires { count ≤ length self.old }
        ensures { self.new ≡ drop count self.old }
    {
        self.left -= count;
    }

    /// Takes the next byte.
    pub(crate) fn take_byte(&mut self) -> Result<u8, DecodeFault>
        ensures { IsReadFrom result self.new (byte_at self.old) }
    {
        let byte = Cursor::new(self.rest()).take_u8()?;
        self.advance(1);
        Ok(byte)
    }

    /// Takes a number of two bytes.
    pub(crate) fn take_u16(&mut self) -> Result<u16, DecodeFault>
        ensures { IsReadFrom result self.new (number_at w16 self.old) }
    {
        let number = Cursor::new(self.rest()).take_u16()?;
        self.advance(2);
        Ok(number)
    }

    /// Takes a number of four bytes.
    pub(crate) fn take_u32(&mut self) -> Result<u32, DecodeFault>
        ensures { IsReadFrom result self.new (number_at w32 self.old) }
    {
        let number = Cursor::new(self.rest()).take_u32()?;
        self.advance(4);
        Ok(number)
    }

    /// Takes a byte that is 0 or 1.
    #[tactic(auto, unfolding(ledger_model::specs::Reading::flag_at))]
    pub(crate) fn take_flag(&mut self) -> Result<bool, DecodeFault>
        ensures { IsReadFrom result self.new (flag_at self.old) }
    {
        match self.take_byte()? {
            0 => Ok(false),
            1 => Ok(true),
            _ => Err(DecodeFault::Malformed),
        }
    }

    /// Takes the next `count` bytes, which are borrowed.
    pub(crate) fn take_slice(&mut self, count: usize) -> Result<&'a [u8], DecodeFault>
        ensures read { ReadsAs (λ x. x.now) result self.new (bytes_at count self.old) }
        ensures len { IfOk result (λ x. length x.now ≡ count) }
    {
        let front = Cursor::new(self.rest()).take_bytes(count)?;
        self.advance(count);
        Ok(front)
    }

    /// Takes the next `count` bytes, which are shared and not copied.
    pub(crate) fn take_shared(&mut self, count: usize) -> Result<Bytes, DecodeFault>
        ensures { IsReadFrom result self.new (bytes_at count self.old) }
    {
        if self.left < count {
            return Err(DecodeFault::Malformed);
        }
        let start = self.bytes.len() - self.left;
        let front = self.bytes.slice(start..start + count)?;
        self.advance(count);
        Ok(front)
    }
}
