//! `abft deliver`: takes the frames of a stream to one replica, piece by piece.
ghost use Rattle.std.specs.Prelude.{◌≡◌, ◌≢◌, ◌∷◌, ℕ, List, [], IfErr, IfOk, MatchResult, Option};
ghost use Rattle.std.specs.Io.KnownBytes.{Consumes, IsAtEnd};
ghost use Rattle.ledger_model.specs.Streams.{SplitsTo};
ghost use Rattle.ledger_model.specs.declared.statement.SignedStatement.{SignedStatement};
ghost use Rattle.signed_frames.specs.declared.fault.FrameFault.TheVariants as faults;
ghost use Rattle.signed_frames.specs.Reader.{LeavesReader, Reading};
ghost use Rattle.locked_replica.specs.States.{StateView};
ghost use Rattle.program.specs.Answering.{Prints, deliveries};
ghost use Rattle.byte_streams.specs.Faults.{IsMemoryOrAsked};
ghost use Rattle.program.specs.Faults.{FailsAfter};
ghost use Rattle.program.specs.Streams.{StreamHasEnded, GoesBehind, ContinuesStream, IsFed, IsReadTo, IsReading, IsStreamFault, SplitsWithEnd, StreamHasStopped, UnderWay};

use crate::line::Line;
use crate::line_printing::print_line;
use crate::reading::{PIECE_LEN, read_piece};
use crate::replica::answer;
use crate::stream_end::{StreamEnd, StreamFault};
use abci::Application;
use byte_streams::{ProgramFault, Resource};
use locked_replica::State;
use signed_frames::{Frame, FrameFault, FrameReader};
use std::alloc::Global;
use std::io::{self, ErrorKind, Read, Write};

/// Delivers a frame, and writes the line of the reply.
fn deliver_frame<A: Application, W: Write>(
    alloc: Global,
    state: &mut State<A>,
    frame: Frame,
    writer: &mut W,
) -> Result<(), ProgramFault>
    ensures prints { Prints A.meaning result state.old (deliveries (frame ∷ [])) state.new (W.contents writer.old) (W.contents writer.new) }
    ensures cause { IfErr result (FailsAfter state.new.entries) }
{
    let line = answer(state, frame.into_bytes())?;
    print_line(alloc, writer, line)
}

/// Delivers the frames in order, and writes a line for each.
fn deliver_all<A: Application, W: Write>(
    alloc: Global,
    state: &mut State<A>,
    frames: Vec<Frame>,
    writer: &mut W,
) -> Result<(), ProgramFault>
    ensures prints { Prints A.meaning result state.old (deliveries frames.items) state.new (W.contents writer.old) (W.contents writer.new) }
    ensures cause { IfErr result (FailsAfter state.new.entries) }
{
    for frame in frames {
        deliver_frame(alloc, state, frame, writer)?;
    }
    Ok(())
}

/// The stream's fault, from the fault that the frame reader returned. The only error is allocation failure.
fn fault_of(fault: FrameFault) -> Result<StreamFault, ProgramFault>
    requires { fault ≢ faults.Failed }
    ensures fault { IfOk result (λ found. IsStreamFault fault found) }
    ensures memory { IfErr result IsMemoryOrAsked }
{
    match fault {
        FrameFault::TooLong => Ok(StreamFault::TooLong),
        FrameFault::Malformed => Ok(StreamFault::Malformed),
        FrameFault::NoMemory => Err(ProgramFault::NoMemory),
        FrameFault::Failed => unreachable!(),
    }
}

/// The fault after the frames that the reader has returned, if there is one. The only error is allocation failure.
fn fault_behind(frames: &mut FrameReader) -> Result<Option<StreamFault>, ProgramFault>
    requires { IsFed frames.old }
    ensures version { frames.new.version ≡ frames.old.version }
    ensures behind { (bytes : List ℕ) (given : List SignedStatement) → LeavesReader frames.old.version bytes given frames.old.state
        → IfOk result (λ found. GoesBehind bytes given frames.new found) }
    ensures memory { IfErr result IsMemoryOrAsked }
{
    match frames.feed(&[]) {
        Ok(_) => Ok(None),
        Err(fault) => Ok(Some(fault_of(fault)?)),
    }
}

/// Delivers the frames that a piece of the stream completes. Returns the fault that follows them, if one does.
fn deliver_piece<A: Application, W: Write>(
    alloc: Global,
    state: &mut State<A>,
    frames: &mut FrameReader,
    piece: &[u8],
    writer: &mut W,
) -> Result<Option<StreamFault>, ProgramFault>
    requires { IsReading frames.old }
    ensures version { frames.new.version ≡ frames.old.version }
    ensures goes { (start : StateView) (unread now left before : Option (List ℕ))
        → UnderWay A.meaning start unread now before (W.contents writer.old) state.old frames.old → Consumes now left piece.now
        → MatchResult result
        (λ found. ContinuesStream A.meaning start unread left before (W.contents writer.new) state.new frames.new found)
        (λ _. StreamHasStopped A.meaning start unread left before (W.contents writer.new) state.new) }
    ensures cause { IfErr result (FailsAfter state.new.entries) }
{
    match frames.feed(piece) {
        Ok(found) => {
            deliver_all(alloc, state, found, writer)?;
            fault_behind(frames)
        }
        Err(fault) => Ok(Some(fault_of(fault)?)),
    }
}

/// How a stream ended that was read to its end without a fault.
fn end_of(frames: &FrameReader) -> StreamEnd
    requires { IsReading frames.now }
    ensures stands { (input : List ℕ) (given : List SignedStatement) (kept : List ℕ) → frames.now.state ≡ Reading kept
        → SplitsTo frames.now.version input given kept → SplitsWithEnd frames.now.version input given result }
    ensures no_fault { (left : Option (List ℕ)) → IsAtEnd left → IsReadTo result left }
{
    if frames.is_between() {
        StreamEnd::Whole
    } else {
        StreamEnd::Cut
    }
}

/// Delivers the frames of the stream piece by piece, to its end or to the first fault.
pub(crate) fn deliver_pieces<A: Application, R: Read, W: Write>(
    alloc: Global,
    state: &mut State<A>,
    frames: &mut FrameReader,
    reader: &mut R,
    writer: &mut W,
) -> Result<StreamEnd, ProgramFault>
    requires start { frames.old.state ≡ Reading [] }
    requires version { frames.old.version ≡ state.old.config.frames }
    ensures ends { MatchResult result
        (λ end. StreamHasEnded A.meaning state.old (R.remaining reader.old) (R.remaining reader.new) (W.contents writer.old)
        (W.contents writer.new) state.new end)
        (λ _. StreamHasStopped A.meaning state.old (R.remaining reader.old) (R.remaining reader.new) (W.contents writer.old)
        (W.contents writer.new) state.new) }
    ensures cause { IfErr result (FailsAfter state.new.entries) }
{
    let mut piece = [0; PIECE_LEN];
    for _ in 0..u64::MAX {
        let count = read_piece(reader, &mut piece)?;
        if count == 0 {
            return Ok(end_of(frames));
        }
        if let Some(fault) = deliver_piece(alloc, state, frames, &piece[..count], writer)? {
            return Ok(StreamEnd::Fault(fault));
        }
    }
    Err(ProgramFault::Refused(Resource::Input, io::Error::from(ErrorKind::TimedOut)))
}
