//! Counts the frames of a replica's history by the replica's answers.
ghost use Rattle.std.specs.Prelude.{◌≡◌};
ghost use Rattle.ledger_model.specs.declared.reply.Ignored.{Ignored};
ghost use Rattle.locked_replica.specs.Views.{reply_lent};
ghost use Rattle.http_messages.specs.FrameCounts.{ignored_for};
ghost use Rattle.cluster_service.specs.FrameCounting.{accepted_in, frame_answer, ignored_in};

use abci::Application;
use http_messages::FrameCounts;
use ledger_model::Ignored;
use locked_replica::{ReplyView, State};

/// The answer to a delivered frame, if the reply is one.
fn frame_answer(reply: &ReplyView<'_>) -> Option<Result<(), Ignored>>
    ensures { result ≡ frame_answer (reply_lent reply.now) }
{
    match reply {
        ReplyView::Delivered(answer) => Some(*answer),
        _ => None,
    }
}

/// The numbers of the frames in the history, by the replica's answers. It looks at each entry, which are at most 65,536.
pub(crate) fn frame_counts<A: Application>(state: &State<A>) -> FrameCounts
    ensures accepted { result.accepted ≡ accepted_in state.now.entries }
    ensures ignored { (cause : Ignored) → ignored_for result cause ≡ ignored_in cause state.now.entries }
{
    let mut counts = FrameCounts::new();
    for index in 0..state.len() {
        let Some(entry) = state.entry(index) else {
            unreachable!();
        };
        match frame_answer(&entry.reply()) {
            Some(answer) => counts.count(answer),
            None => {}
        }
    }
    counts
}
