//! Prints bytes as transactions are written.
ghost use Rattle.std.specs.Prelude.{Some};
ghost use Rattle.plain_text.specs.Transactions.{byte_text, bytes_text};

use crate::transactions::is_plain;
use std::fmt;

/// A byte in its printed form.
#[derive(Clone, Copy)]
struct EscapedByte(u8);

#[tactic(auto, using(std::proofs::lemmas::Fmt::hex_byte), unfolding(crate::specs::Transactions::byte_text))]
impl fmt::Display for EscapedByte {
    ghost output = { λ byte. Some (byte_text byte.0) };

    fn fmt<W: fmt::Write>(&self, f: &mut fmt::Formatter<W>) -> fmt::Result {
        let byte = self.0;
        if is_plain(byte) {
            let character = char::from(byte);
            write!(f, "{character}")
        } else {
            write!(f, "\\{byte:02x}")
        }
    }
}

/// Bytes in the printed form of transactions: each byte as itself, or as a backslash with two lower-case hexadecimal
/// digits. [`written`](crate::written) reads this form.
#[derive(Clone, Copy, Debug)]
pub struct Escaped<'a>(pub &'a [u8]);

#[tactic(auto, unfolding(crate::specs::Transactions::bytes_text))]
impl fmt::Display for Escaped<'_> {
    ghost output = { λ escaped. Some (bytes_text escaped.0.now) };

    fn fmt<W: fmt::Write>(&self, f: &mut fmt::Formatter<W>) -> fmt::Result {
        for byte in self.0 {
            let byte = EscapedByte(*byte);
            write!(f, "{byte}")?;
        }
        Ok(())
    }
}
