//! Reads standard input piece by piece.
ghost use Rattle.std.specs.Prelude.{◌≡◌, ℕ, List, MatchResult, IfErr};
ghost use Rattle.std.specs.Io.{ReadsAtMost};
ghost use Rattle.std.specs.Io.KnownBytes.{Consumes, ReadConsumes};
ghost use Rattle.byte_streams.specs.Faults.{IsMemoryOrAsked};
ghost use Rattle.program.specs.HistoryInput.{ReadsWhole};
ghost use Rattle.program.specs.Faults.{IsReadFault};

use byte_streams::{ProgramFault, Resource};
use std::alloc::Global;
use std::io::{self, ErrorKind, Read};

/// The most bytes that one read takes from standard input.
pub(crate) const PIECE_LEN: usize = 8192;

/// Reads some bytes with one read, and returns their number: 0 only at the end of the input, or if the piece is empty.
/// A read that was interrupted is repeated.
pub(crate) fn read_piece<R: Read>(reader: &mut R, piece: &mut [u8]) -> Result<usize, ProgramFault>
    ensures bound { ReadsAtMost result piece.new }
    ensures bytes { ReadConsumes (R.remaining reader.old) (R.remaining reader.new) result piece.new }
    // An interruption is never the fault.
    ensures fault { IfErr result IsReadFault }
{
    for _ in 0..u64::MAX {
        match reader.read(piece) {
            Ok(count) => return Ok(count),
            Err(error) => {
                if error.kind() != ErrorKind::Interrupted {
                    return Err(ProgramFault::Refused(Resource::Input, error));
                }
            }
        }
    }
    Err(ProgramFault::Refused(Resource::Input, io::Error::from(ErrorKind::TimedOut)))
}

/// All bytes of a stream, to its end.
pub(crate) fn read_whole<R: Read>(alloc: Global, reader: &mut R) -> Result<Vec<u8>, ProgramFault>
    ensures read { MatchResult result
        (λ bytes. ReadsWhole (R.remaining reader.old) (R.remaining reader.new) bytes.items)
        (λ _. (input : List ℕ) × Consumes (R.remaining reader.old) (R.remaining reader.new) input) }
    ensures fault { IfErr result IsMemoryOrAsked }
{
    let mut bytes = Vec::new(alloc);
    let mut piece = [0; PIECE_LEN];
    for _ in 0..u64::MAX {
        let count = read_piece(reader, &mut piece)?;
        if count == 0 {
            return Ok(bytes);
        }
        bytes.extend_from_slice(&piece[..count])?;
    }
    Err(ProgramFault::Refused(Resource::Input, io::Error::from(ErrorKind::TimedOut)))
}
