//! The histories that a subcommand reads from a stream, and what it writes for a stream that has none.
ghost use Rattle.std.specs.Prelude.{◌≡◌, ℕ, List, None, MatchResult, IfErr, IfOk, option_map};
ghost use Rattle.std.specs.Io.KnownBytes.{Consumes};
ghost use Rattle.byte_streams.specs.Faults.{IsMemoryOrAsked};
ghost use Rattle.byte_streams.specs.Writing.{Writes};
ghost use Rattle.program.specs.HistoryInput.{ReadsHistories, bad_history};

use crate::outcome::Conclusion;
use crate::reading::read_whole;
use crate::status::BAD_INPUT;
use byte_streams::{ProgramFault, write_output};
use bytes::Bytes;
use history_bytes::{HistoryFault, read_histories};
use ledger_model::{History, Version};
use std::alloc::Global;
use std::io::{Read, Write};

/// Reads a stream to its end. Returns the histories that its bytes are, in a cluster with frames of this version, or `None`.
pub(crate) fn read_history_input<R: Read>(
    alloc: Global,
    frames: Version,
    reader: &mut R,
) -> Result<Option<Vec<History>>, ProgramFault>
    ensures read { MatchResult result
        (λ found. ReadsHistories frames (R.remaining reader.old) (R.remaining reader.new) (option_map (λ histories. histories.items) found))
        (λ _. (input : List ℕ) × Consumes (R.remaining reader.old) (R.remaining reader.new) input) }
    ensures fault { IfErr result IsMemoryOrAsked }
{
    let bytes = read_whole(alloc, reader)?;
    match read_histories(frames, alloc, Bytes::from_vec(bytes)?) {
        Ok(histories) => Ok(Some(histories)),
        Err(HistoryFault::BadHistory) => Ok(None),
        Err(HistoryFault::NoMemory) => Err(ProgramFault::NoMemory),
    }
}

/// Writes that the input is no histories.
pub(crate) fn print_bad_history<W: Write>(writer: &mut W) -> Result<Conclusion, ProgramFault>
    ensures written { Writes result (W.contents writer.old) (W.contents writer.new) bad_history }
    ensures ending { IfOk result (λ ending. (ending.explanation ≡ None) × (ending.status ≡ 1)) }
    ensures fault { IfErr result IsMemoryOrAsked }
{
    write_output(writer, b"bad history\n")?;
    Ok(Conclusion::plain(BAD_INPUT))
}
