//! What another replica made at each open height, according to the frames of its round end.
ghost use Rattle.std.specs.Prelude.{◌≡◌, ◌∷◌, ◌++◌, [], length, map, None, IfOk, IfSome, OnOk};
ghost use Rattle.std.specs.List.{list_any, AllByRecursion};
ghost use Rattle.ledger_model.specs.Spelling.{IsFrame};
ghost use Rattle.instance.specs.Laws.{IsFrameMade};
ghost use Rattle.replica_core.specs.ShownEnds.{statements_shown, next_shown, left_next, made_of, made_each, is_some_there, AreSpelled};

use height_row::{OpenInstances, RoundClosing};
use instance::{OwnFrame, RoundEffects, RoundStatement};
use ledger_model::{Height, Sent, Version};
use signed_frames::Frame;
use statements::DecodeFault;
use std::alloc::{AllocError, Global};
use std::collections::VecDeque;

/// Whether some height sends locks on.
pub(crate) fn send_locks(endings: &[RoundEffects]) -> bool
    ensures { result ≡ list_any (λ ending. is_some_there ending.sends_on) endings.now }
{
    endings.iter().any(|ending| !ending.sends_on().is_empty())
}

/// The statements of these frames, in order; `None` if one of them encodes no statement.
pub(crate) fn read_frames(
    alloc: Global,
    sent: &[Sent],
) -> Result<Option<VecDeque<Frame>>, AllocError>
    ensures shown { IfOk result (λ o. IfSome o (λ frames. statements_shown sent.now ≡ frames.items)) }
    ensures frames { IfOk result (λ o. IfSome o (λ frames. AllByRecursion IsFrame frames.items)) }
    ensures none { IfOk result (λ o. o ≡ None → AreSpelled sent.now → ⊥) }
{
    let mut frames = VecDeque::new(alloc);
    for sent in sent {
        match Frame::parse_in(Version::Two, alloc, sent.frame.clone()?) {
            Ok(frame) => frames.push_back(frame)?,
            Err(DecodeFault::Malformed) => return Ok(None),
            Err(DecodeFault::NoMemory) => return Err(AllocError),
        }
    }
    Ok(Some(frames))
}

/// Removes and returns the next remaining frame, if it is of this height.
fn next_of(frames: &mut VecDeque<Frame>, height: Height) -> Option<Frame>
    ensures next { result ≡ next_shown height frames.old.items }
    ensures left { frames.new.items ≡ left_next height frames.old.items }
{
    let next = frames.front()?;
    if next.statement().height() != height {
        return None;
    }
    frames.pop_front()
}

/// What the replica made, if it sent this.
fn made_of(alloc: Global, sent: Option<Frame>) -> Result<RoundStatement, AllocError>
    ensures { IfOk result (λ made. made ≡ made_of sent) }
{
    match sent {
        Some(frame) => Ok(RoundStatement::Sent(OwnFrame::new(alloc, frame)?)),
        None => Ok(RoundStatement::Unsent),
    }
}

/// What the replica made at the height: the next remaining frame, if it is of this height, and otherwise nothing.
fn make_next(
    alloc: Global,
    frames: &mut VecDeque<Frame>,
    height: Height,
) -> Result<RoundStatement, AllocError>
    ensures made { IfOk result (λ made. made ≡ made_of (next_shown height frames.old.items)) }
    ensures left { frames.new.items ≡ left_next height frames.old.items }
{
    made_of(alloc, next_of(frames, height))
}

/// Appends how the height closes its round to what the lower heights do.
fn push_shown(
    alloc: Global,
    closings: &mut Vec<RoundClosing>,
    height: Height,
    ending: RoundEffects,
    frames: &mut VecDeque<Frame>,
) -> Result<(), AllocError>
    ensures closing { OnOk result (closings.new.items ≡ closings.old.items ++ record { ending = ending; made = made_of (next_shown height frames.old.items) } ∷ []) }
    ensures left { frames.new.items ≡ left_next height frames.old.items }
{
    let made = make_next(alloc, frames, height)?;
    closings.push(RoundClosing { ending, made })?;
    Ok(())
}

/// How each height closes its round, in order: each takes the next remaining frame if it is of that height.
fn show_each(
    alloc: Global,
    instances: OpenInstances<'_>,
    endings: Vec<RoundEffects>,
    frames: &mut VecDeque<Frame>,
) -> Result<Vec<RoundClosing>, AllocError>
    requires count { length endings.items ≡ length instances }
    ensures endings { IfOk result (λ closings. map (λ c. c.ending) closings.items ≡ endings.items) }
    ensures made { IfOk result (λ closings. map (λ c. c.made) closings.items
        ≡ made_each (map (λ row. row.height) instances.entry) frames.old.items) }
{
    let mut closings = Vec::with_capacity(alloc, endings.len())?;
    for (instance, ending) in instances.zip(endings) {
        push_shown(alloc, &mut closings, instance.height(), ending, frames)?;
    }
    Ok(closings)
}

/// How each height closes its round, in order, according to these frames.
pub(crate) fn make_shown(
    alloc: Global,
    instances: OpenInstances<'_>,
    endings: Vec<RoundEffects>,
    mut frames: VecDeque<Frame>,
) -> Result<Vec<RoundClosing>, AllocError>
    requires count { length endings.items ≡ length instances }
    ensures endings { IfOk result (λ closings. map (λ c. c.ending) closings.items ≡ endings.items) }
    ensures made { IfOk result (λ closings. map (λ c. c.made) closings.items
        ≡ made_each (map (λ row. row.height) instances.entry) frames.items) }
{
    show_each(alloc, instances, endings, &mut frames)
}
