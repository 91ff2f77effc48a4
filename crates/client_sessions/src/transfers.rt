//! Transfers whole buffers through streams that read and write only part of one at a time.
ghost use Rattle.std.specs.Prelude.{◌≡◌, ◌+◌, length, MatchResult};
ghost use Rattle.client_sessions.specs.Faults.{failures_in};
ghost use Rattle.client_sessions.specs.Reading.{Fills, ReadsFewer};
ghost use Rattle.byte_streams.specs.Writing.{Writes};

use crate::streams::{SessionReader, SessionWriter};
use std::io;

/// Fills the buffer, unless the input ends first, and returns the number of bytes that were read.
pub(crate) fn fill<R: SessionReader>(input: &mut R, buffer: &mut [u8]) -> io::Result<usize>
    ensures filled { MatchResult result
        (λ count. Fills (R.remaining input.old) (R.remaining input.new) buffer.new count)
        (λ _. ReadsFewer (R.remaining input.old) (R.remaining input.new) (length buffer.new)) }
    ensures counted { R.failures input.new ≡ R.failures input.old + failures_in result }
{
    let mut count = 0;
    while count < buffer.len() {
        let more = input.read(&mut buffer[count..])?;
        if more == 0 {
            return Ok(count);
        }
        count += more;
    }
    Ok(count)
}

/// Writes all of the bytes. After an error, a prefix of them was written.
fn write_all<W: SessionWriter>(output: &mut W, bytes: &[u8]) -> io::Result<()>
    ensures written { Writes result (W.contents output.old) (W.contents output.new) bytes.now }
    ensures counted { W.failures output.new ≡ W.failures output.old + failures_in result }
{
    let mut left = bytes;
    while !left.is_empty() {
        let count = output.write(left)?;
        left = &left[count..];
    }
    Ok(())
}

/// Writes all of the bytes, and flushes the writer. After an error, a prefix of them was written.
pub fn send<W: SessionWriter>(output: &mut W, bytes: &[u8]) -> io::Result<()>
    ensures written { Writes result (W.contents output.old) (W.contents output.new) bytes.now }
    ensures counted { W.failures output.new ≡ W.failures output.old + failures_in result }
{
    write_all(output, bytes)?;
    output.flush()
}
