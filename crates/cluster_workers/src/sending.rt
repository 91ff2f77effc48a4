//! Puts the frames of a round end into inboxes.
use crate::inboxes::Sender;
use ledger_model::{ReplicaId, Sent, goes_to};
use std::sync::Wait;

/// What became of a frame that was sent.
#[derive(Clone, Copy, Drop)]
pub(crate) struct SendOutcome {
    /// The number of inboxes that got it.
    pub(crate) put: usize,
    /// Whether memory ran out, so that an addressee didn't get it.
    pub(crate) is_short: bool,
}

/// Puts a frame of the replica `from` into the inboxes of its addressees.
pub(crate) fn send<R: Wait>(
    rt: &R,
    senders: &mut Vec<Sender>,
    from: ReplicaId,
    sent: &Sent,
) -> SendOutcome {
    let mut put = 0usize;
    let mut is_short = false;
    for sender in senders.iter_mut() {
        if goes_to(sent.addressee, from, sender.to()) {
            match sender.send(rt, &sent.frame) {
                Ok(true) => put = put.saturating_add(1),
                Ok(false) => {}
                Err(_) => is_short = true,
            }
        }
    }
    SendOutcome { put, is_short }
}
