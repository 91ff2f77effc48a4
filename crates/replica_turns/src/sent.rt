//! The frames that an entry of a history sent.
ghost use Rattle.std.specs.Prelude.{◌≡◌, slice_get, IfOk};
ghost use Rattle.ledger_model.specs.Worlds.{sent_with};

use abci::Application;
use ledger_model::Sent;
use locked_replica::{ReplyView, RoundEndView, State};
use std::alloc::{AllocError, Global};

/// Copies of the frames of a round end, which share the bytes.
fn copied(alloc: Global, ended: &RoundEndView<'_>) -> Result<Vec<Sent>, AllocError>
    ensures { IfOk result (λ sent. sent.items ≡ ended.now.frames) }
{
    let mut frames = Vec::with_capacity(alloc, ended.len())?;
    for index in 0..ended.len() {
        let Some(sent) = ended.frame(index) else {
            unreachable!();
        };
        frames.push(Sent {
            addressee: sent.addressee,
            frame: sent.frame.clone()?,
        })?;
    }
    Ok(frames)
}

/// The frames that the entry at this index of the history sent; none if it is no round end, or doesn't exist. The only
/// error is allocation failure.
pub fn sent_at<A: Application>(
    alloc: Global,
    state: &State<A>,
    index: usize,
) -> Result<Vec<Sent>, AllocError>
    ensures { IfOk result (λ sent. sent.items ≡ sent_with (slice_get state.now.entries index)) }
{
    match state.entry(index) {
        Some(entry) => match entry.reply() {
            ReplyView::RoundEnded(Ok(ended)) => copied(alloc, &ended),
            _ => Ok(Vec::new(alloc)),
        },
        None => Ok(Vec::new(alloc)),
    }
}
