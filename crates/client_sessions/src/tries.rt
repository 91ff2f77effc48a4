//! Calls of a stream that are repeated if they were interrupted.
//!
//! A call gives up, with [`ErrorKind::TimedOut`], if all of 2^64 - 1 tries were interrupted.
ghost use Rattle.std.specs.Prelude.{◌≡◌, ◌<◌, length, IfOk};
ghost use Rattle.std.specs.Io.{ReadsAtMost, WritesAtMost};
ghost use Rattle.std.specs.Io.KnownBytes.{Keeps, ReadConsumes, WriteAppends};

use std::io::{self, ErrorKind, Read, Write};

/// Reads some bytes.
pub(crate) fn read<R: Read>(stream: &mut R, buffer: &mut [u8]) -> io::Result<usize>
    ensures bound { ReadsAtMost result buffer.new }
    ensures bytes { ReadConsumes (R.remaining stream.old) (R.remaining stream.new) result buffer.new }
{
    for _ in 0..u64::MAX {
        match stream.read(buffer) {
            Ok(count) => return Ok(count),
            Err(error) => {
                if error.kind() != ErrorKind::Interrupted {
                    return Err(error);
                }
            }
        }
    }
    Err(io::Error::from(ErrorKind::TimedOut))
}

/// Writes some of the bytes. A writer that takes no byte has failed.
pub(crate) fn write<W: Write>(stream: &mut W, bytes: &[u8]) -> io::Result<usize>
    ensures bound { WritesAtMost result bytes.now }
    ensures some { IfOk result (λ count. 0 < length bytes.now → 0 < count) }
    ensures bytes { WriteAppends (W.contents stream.old) (W.contents stream.new) result bytes.now }
{
    for _ in 0..u64::MAX {
        match stream.write(bytes) {
            Ok(0) if !bytes.is_empty() => return Err(io::Error::from(ErrorKind::WriteZero)),
            Ok(count) => return Ok(count),
            Err(error) => {
                if error.kind() != ErrorKind::Interrupted {
                    return Err(error);
                }
            }
        }
    }
    Err(io::Error::from(ErrorKind::TimedOut))
}

/// Forwards the bytes that the writer buffers.
pub(crate) fn flush<W: Write>(stream: &mut W) -> io::Result<()>
    ensures bytes { Keeps (W.contents stream.old) (W.contents stream.new) }
{
    for _ in 0..u64::MAX {
        match stream.flush() {
            Ok(()) => return Ok(()),
            Err(error) => {
                if error.kind() != ErrorKind::Interrupted {
                    return Err(error);
                }
            }
        }
    }
    Err(io::Error::from(ErrorKind::TimedOut))
}
