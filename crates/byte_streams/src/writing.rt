//! Writes texts, each with one write if the writer takes it whole.
ghost use Rattle.std.specs.Prelude.{◌≤◌, [], length, take, IfOk, MatchResult};
ghost use Rattle.std.specs.Io.KnownBytes.{Appends};
ghost use Rattle.byte_streams.specs.Writing.{Writes};

use std::io::{self, ErrorKind, Write};

/// Writes some of the bytes with one write, and returns their number. A write that was interrupted wrote none.
fn write_some<W: Write>(writer: &mut W, bytes: &[u8]) -> io::Result<usize>
    ensures within { IfOk result (λ count. count ≤ length bytes.now) }
    ensures written { MatchResult result
        (λ count. Appends (W.contents writer.old) (W.contents writer.new) (take count bytes.now))
        (λ _. Appends (W.contents writer.old) (W.contents writer.new) []) }
{
    match writer.write(bytes) {
        Ok(0) => Err(io::Error::new(ErrorKind::WriteZero, "failed to write whole buffer")),
        Ok(count) => Ok(count),
        Err(error) => {
            if error.kind() == ErrorKind::Interrupted {
                Ok(0)
            } else {
                Err(error)
            }
        }
    }
}

/// Writes all of the bytes. After an error, a prefix of them was written.
pub fn write_whole<W: Write>(writer: &mut W, bytes: &[u8]) -> io::Result<()>
    ensures { Writes result (W.contents writer.old) (W.contents writer.new) bytes.now }
{
    let mut left = bytes;
    for _ in 0..u64::MAX {
        if left.is_empty() {
            return Ok(());
        }
        let count = write_some(writer, left)?;
        left = &left[count..];
    }
    Err(io::Error::from(ErrorKind::TimedOut))
}
