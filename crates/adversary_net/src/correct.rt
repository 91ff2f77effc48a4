//! A correct replica, with an index of the frames that it sent.
ghost use Rattle.std.specs.Prelude.{◌≡◌, ◌<◌, ◌≤◌, ◌*◌, ◌^◌, length, slice_get, option_map, Some, [], IfOk, OnErr};
ghost use Rattle.std.specs.Option.{option_copied};
ghost use Rattle.ledger_model.specs.declared.history.Entry.{Entry};
ghost use Rattle.ledger_model.specs.Worlds.{frames_in, frames_sent};
ghost use Rattle.adversary_net.specs.Sending.{frame_of};

use crate::sent_index::SentIndex;
use abci::Application;
use bytes::Bytes;
use key_ring::{KeyRing, Signer};
use ledger_model::{Config, Event, ReplicaId};
use locked_replica::{ReplyView, RoundEndView, State};
use std::alloc::{AllocError, Global};
use std::hash::RandomState;
use std::marker::Model;

/// A correct replica, with an index that finds the frames that it sent in its history.
#[derive(Drop)]
pub struct CorrectReplica<A: Application> {
    state: State<A>,
    sent: SentIndex,
}

impl<A: Application> Model for CorrectReplica<A> {
    ghost use Rattle.locked_replica.specs.States.{StateView};
    ghost use Rattle.adversary_net.specs.Sending.{IsKept};

    ghost Value = { StateView };

    ghost view = { λ c. c.state };

    ghost invariant = { λ c. IsKept A.meaning c.sent.sending.items c.sent.total c.state };
}

/// The number of frames that an entry sent.
fn frames_of<A: Application>(state: &State<A>, index: usize) -> usize
    ensures { (e : Entry) → slice_get state.now.entries index ≡ Some e → result ≡ length (frames_in e.reply) }
{
    match state.entry(index) {
        Some(entry) => match entry.reply() {
            ReplyView::RoundEnded(Ok(ended)) => ended.len(),
            _ => 0,
        },
        None => 0,
    }
}

/// The frame of a round end with this index.
fn frame_in<'a>(ended: &RoundEndView<'a>, frame: usize) -> Option<&'a Bytes>
    ensures { option_copied result ≡ option_map (λ f. f.frame) (slice_get ended.now.frames frame) }
{
    match ended.frame(frame) {
        Some(sent) => Some(sent.frame),
        None => None,
    }
}

/// The frame with this index among those that an entry sent.
fn frame_at<A: Application>(state: &State<A>, index: usize, frame: usize) -> Option<&Bytes>
    ensures { option_copied result ≡ frame_of state.now.entries index frame }
{
    match state.entry(index) {
        Some(entry) => match entry.reply() {
            ReplyView::RoundEnded(Ok(ended)) => frame_in(&ended, frame),
            _ => None,
        },
        None => None,
    }
}

impl<A: Application> CorrectReplica<A> {
    ghost use Rattle.ledger_model.specs.Applications.{run};
    ghost use Rattle.locked_replica.specs.States.{IsMember, new_state};
    ghost use Rattle.adversary_net.specs.Steps.{AppliesAt, Stays};
    ghost use Rattle.ledger_model.specs.Limits.{max_history_len};

    /// A replica with an empty history. The only error is allocation failure.
    pub(crate) fn new(
        alloc: Global,
        config: Config,
        id: ReplicaId,
        signer: Signer,
        ring: KeyRing,
        app: A,
        randoms: [RandomState; 2],
    ) -> Result<Self, AllocError>
        requires member { IsMember config id ring signer.secret }
        requires opening { A.machine app ≡ run A.meaning config.kind [] }
        ensures { IfOk result (λ replica. replica ≡ new_state A.meaning config id ring signer) }
    {
        Ok(CorrectReplica {
            state: State::new(alloc, config, id, signer, ring, app, randoms)?,
            sent: SentIndex::new(alloc),
        })
    }

    /// Its state.
    pub(crate) fn state(&self) -> &State<A>
        ensures { result.now ≡ self.now }
    {
        &self.state
    }

    /// The frame with this index, among all that the replica ever sent. It is found without a walk over the history.
    pub(crate) fn frame(&self, index: usize) -> Option<&Bytes>
        ensures { option_copied result ≡ slice_get (frames_sent self.now.entries) index }
    {
        let (entry, frame) = self.sent.place(index)?;
        frame_at(&self.state, entry, frame)
    }

    /// The number of frames that the replica ever sent.
    pub(crate) fn frames_sent(&self) -> u128
        ensures count { result ≡ length (frames_sent self.now.entries) }
        ensures bound { result ≤ max_history_len * 2 ^ 64 }
    {
        let _ = self.state.len();
        self.sent.total
    }

    /// Takes one event and returns the index of the new entry. The history has room.
    ///
    /// The only error is allocation failure. It changes nothing, except that a round end may have used leaves: at most one for each
    /// statement that it was to sign.
    pub(crate) fn apply(&mut self, event: Event) -> Result<usize, AllocError>
        requires room { length self.old.entries < max_history_len }
        ensures applied { IfOk result (λ index. AppliesAt A.meaning self.old event index self.new) }
        ensures err { OnErr result (Stays self.old event self.new) }
    {
        self.sent.reserve()?;
        match self.state.apply(event) {
            Ok(index) => {
                let frames = frames_of(&self.state, index);
                self.sent.add(index, frames);
                Ok(index)
            }
            Err(_) => Err(AllocError),
        }
    }
}
