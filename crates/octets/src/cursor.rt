//! A cursor, which takes numbers and bytes from the front of a slice.
ghost use Rattle.std.specs.Prelude.{◌≡◌, ◌<◌, ◌↔◌, ◌==◌, [], ◌∷◌, length, take, drop, IfOk, IsErr, OnOk, OnErr};
ghost use Rattle.std.specs.Int.{w16, w32, from_be_bytes};

use byteorder::{BigEndian, ByteOrder};
use std::marker::Model;
use thiserror::Error;

/// Fewer bytes are left than the call needs.
#[derive(Clone, Copy, Debug, PartialEq, Eq, Error)]
#[error("too few bytes are left")]
pub struct Short;

/// A position in a slice of bytes. Contracts see the bytes from there on.
#[derive(Debug, Drop)]
pub struct Cursor<'a> {
    bytes: &'a [u8],
}

impl<'a> Model for Cursor<'a> {
    ghost use Rattle.std.specs.Prelude.{ℕ, List};

    ghost Value = { List ℕ };

    ghost view = { λ c. c.bytes.now };
}

impl<'a> Cursor<'a> {
    /// A cursor at the first byte.
    pub fn new(bytes: &'a [u8]) -> Self
        ensures { result ≡ bytes.now }
    {
        Cursor { bytes }
    }

    /// The bytes that are left.
    pub fn rest(&self) -> &'a [u8]
        ensures { result.now ≡ self.now }
    {
        self.bytes
    }

    /// The number of bytes that are left.
    pub fn len(&self) -> usize
        ensures { result ≡ length self.now }
    {
        self.rest().len()
    }

    /// Whether no byte is left.
    pub fn is_empty(&self) -> bool
        ensures { result ≡ (length self.now == 0) }
    {
        self.rest().is_empty()
    }

    /// Takes the next `count` bytes. If fewer are left, the cursor doesn't move.
    pub fn take_bytes(&mut self, count: usize) -> Result<&'a [u8], Short>
        ensures ok { IfOk result (λ front. front.now ≡ take count self.old) }
        ensures rest { OnOk result (self.new ≡ drop count self.old) }
        ensures short { IsErr result ↔ (length self.old < count) }
        ensures err { OnErr result (self.new ≡ self.old) }
    {
        if self.len() < count {
            return Err(Short);
        }
        let (front, rest) = self.rest().split_at(count);
        *self = Cursor::new(rest);
        Ok(front)
    }

    /// Takes the next byte. If none is left, the cursor doesn't move.
    pub fn take_u8(&mut self) -> Result<u8, Short>
        ensures ok { IfOk result (λ byte. self.old ≡ byte ∷ self.new) }
        ensures short { IsErr result ↔ (self.old ≡ []) }
        ensures err { OnErr result (self.new ≡ self.old) }
    {
        match self.rest() {
            [] => Err(Short),
            [first, rest @ ..] => {
                *self = Cursor::new(rest);
                Ok(*first)
            }
        }
    }

    /// Takes a number of two bytes. If fewer are left, the cursor doesn't move.
    pub fn take_u16(&mut self) -> Result<u16, Short>
        ensures ok { IfOk result (λ number. number ≡ from_be_bytes w16 (take 2 self.old)) }
        ensures rest { OnOk result (self.new ≡ drop 2 self.old) }
        ensures short { IsErr result ↔ (length self.old < 2) }
        ensures err { OnErr result (self.new ≡ self.old) }
    {
        let front = self.take_bytes(2)?;
        Ok(BigEndian::read_u16(front))
    }

    /// Takes a number of four bytes. If fewer are left, the cursor doesn't move.
    pub fn take_u32(&mut self) -> Result<u32, Short>
        ensures ok { IfOk result (λ number. number ≡ from_be_bytes w32 (take 4 self.old)) }
        ensures rest { OnOk result (self.new ≡ drop 4 self.old) }
        ensures short { IsErr result ↔ (length self.old < 4) }
        ensures err { OnErr result (self.new ≡ self.old) }
    {
        let front = self.take_bytes(4)?;
        Ok(BigEndian::read_u32(front))
    }
}
