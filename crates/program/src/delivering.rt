//! `abft deliver`: delivers the frames of a stream to a replica.
ghost use Rattle.std.specs.Prelude.{◌≡◌, IfErr, MatchResult};
ghost use Rattle.program.specs.Answering.{fresh};
ghost use Rattle.program.specs.Streams.{DeliversStream, DeliversStreamSome, StopsDelivery};

use crate::frame_stream::deliver_pieces;
use crate::line_printing::print_end;
use crate::replica::{new_replica, start};
use crate::stream_end::StreamEnd;
use abci::Application;
use app_states::Opening;
use byte_streams::ProgramFault;
use cluster_setup::DeliverSettings;
use locked_replica::State;
use signed_frames::FrameReader;
use std::alloc::Global;
use std::io::{Read, Write};
use std::random::RandomSource;

/// Starts the replica, delivers the frames of a stream to it, and writes a line for each frame, and a last one if the
/// stream ends badly.
fn deliver_to<A: Application, R: Read, W: Write>(
    alloc: Global,
    settings: &DeliverSettings,
    state: &mut State<A>,
    reader: &mut R,
    writer: &mut W,
) -> Result<StreamEnd, ProgramFault>
    requires { state.old ≡ fresh A.meaning settings.now }
    ensures delivers { MatchResult result
        (λ end. DeliversStream A.meaning settings.now end (R.remaining reader.old) (R.remaining reader.new) (W.contents writer.old)
        (W.contents writer.new))
        (λ _. DeliversStreamSome A.meaning settings.now (R.remaining reader.old) (R.remaining reader.new) (W.contents writer.old)
        (W.contents writer.new)) }
    ensures cause { IfErr result (StopsDelivery A.meaning settings.now (R.remaining reader.old) (R.remaining reader.new)
        (W.contents writer.old) (W.contents writer.new)) }
{
    start(alloc, settings, state)?;
    let mut frames = FrameReader::new_in(settings.cluster.config.frames, alloc);
    let end = deliver_pieces(alloc, state, &mut frames, reader, writer)?;
    print_end(alloc, writer, end)?;
    Ok(end)
}

/// Delivers the frames of a stream to the replica of the settings, and writes a line for each. The last line reports
/// what is wrong with the stream, if anything is. The random bytes are the keys of the replica's hashes.
pub fn deliver<A: Opening, S: RandomSource, R: Read, W: Write>(
    source: &S,
    alloc: Global,
    settings: &DeliverSettings,
    reader: &mut R,
    writer: &mut W,
) -> Result<StreamEnd, ProgramFault>
    ensures delivers { MatchResult result
        (λ end. DeliversStream A.meaning settings.now end (R.remaining reader.old) (R.remaining reader.new) (W.contents writer.old)
        (W.contents writer.new))
        (λ _. DeliversStreamSome A.meaning settings.now (R.remaining reader.old) (R.remaining reader.new) (W.contents writer.old)
        (W.contents writer.new)) }
    ensures cause { IfErr result (StopsDelivery A.meaning settings.now (R.remaining reader.old) (R.remaining reader.new)
        (W.contents writer.old) (W.contents writer.new)) }
{
    let mut state = new_replica::<A, S>(source, alloc, settings)?;
    deliver_to(alloc, settings, &mut state, reader, writer)
}
