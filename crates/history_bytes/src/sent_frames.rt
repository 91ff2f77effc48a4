//! Takes what a round end sent.
ghost use Rattle.std.specs.Prelude.{◌≡◌};
ghost use Rattle.history_bytes.specs.HistoryReading.{addressee_by_number, frame_at, sent_at, frames_of, frames_at, ended_at};
ghost use Rattle.statements.specs.Reads.{IsReadFrom, ReadsAs};

use crate::input::Input;
use bytes::Bytes;
use ledger_model::{Addressee, ReplicaId, RoundEnded, Sent, SentFrames, Version};
use octets::Cursor;
use signed_frames::Frame;
use statements::DecodeFault;
use std::alloc::Global;

/// The number of bytes of a body's length, which precedes the body.
const HEADER_LEN: usize = 4;

/// The addressee of this number: 255 is all.
fn addressee_of(number: u8) -> Addressee
    ensures { result ≡ addressee_by_number number }
{
    match number {
        255 => Addressee::All,
        _ => Addressee::One(ReplicaId::new(number)),
    }
}

/// Takes a frame of this version, with its length. The frame is parsed, and only its bytes are kept.
#[tactic(auto, unfolding(crate::specs::HistoryReading::frame_at))]
fn take_frame(version: Version, alloc: Global, input: &mut Input) -> Result<Bytes, DecodeFault>
    ensures { IsReadFrom result input.new (frame_at version input.old) }
{
    let len = Cursor::new(input.rest()).take_u32()? as usize;
    let bytes = input.take_shared(HEADER_LEN + len)?;
    let frame = Frame::parse_in(version, alloc, bytes)?;
    Ok(frame.into_bytes())
}

#[tactic(auto, unfolding(crate::specs::HistoryReading::sent_at))]
fn take_sent(version: Version, alloc: Global, input: &mut Input) -> Result<Sent, DecodeFault>
    ensures { IsReadFrom result input.new (sent_at version input.old) }
{
    let addressee = addressee_of(input.take_byte()?);
    let frame = take_frame(version, alloc, input)?;
    Ok(Sent { addressee, frame })
}

fn frames_of(
    version: Version,
    alloc: Global,
    input: &mut Input,
    count: u16,
) -> Result<Vec<Sent>, DecodeFault>
    ensures { ReadsAs (λ frames. frames.items) result input.new (frames_of version count input.old) }
{
    let mut frames = Vec::new(alloc);
    for _ in 0..count {
        let sent = take_sent(version, alloc, input)?;
        frames.push(sent)?;
    }
    Ok(frames)
}

/// Takes frames after their number in two bytes.
#[tactic(auto, unfolding(crate::specs::HistoryReading::frames_at))]
fn take_frames(
    version: Version,
    alloc: Global,
    input: &mut Input,
) -> Result<SentFrames, DecodeFault>
    ensures { IsReadFrom result input.new (frames_at version input.old) }
{
    let count = input.take_u16()?;
    let frames = frames_of(version, alloc, input, count)?;
    Ok(SentFrames::new(frames))
}

/// Takes the result of a round end that opened a round.
#[tactic(auto, unfolding(crate::specs::HistoryReading::ended_at))]
pub(crate) fn take_ended(
    version: Version,
    alloc: Global,
    input: &mut Input,
) -> Result<RoundEnded, DecodeFault>
    ensures { IsReadFrom result input.new (ended_at version input.old) }
{
    let mute = input.take_flag()?;
    let frames = take_frames(version, alloc, input)?;
    Ok(RoundEnded { mute, frames })
}
