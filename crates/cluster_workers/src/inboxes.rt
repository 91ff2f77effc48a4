//! The ends of inboxes that a worker holds: it takes from its own inbox, and puts into those of all replicas.
ghost use Rattle.std.specs.Prelude.{◌≡◌, ◌++◌, ◌∷◌, [], All, List, length, vec_len, IfOk};
ghost use Rattle.std.specs.Arc.{arc_value};
ghost use Rattle.cluster_workers.specs.RunningClusters.{PeerInbox, peers_from};

use crate::bell::Bell;
use crate::losses::Losses;
use bytes::Bytes;
use inbox::{Inbox, Item, PuttingPass, TakingPass};
use ledger_model::ReplicaId;
use std::alloc::{AllocError, Global};
use std::marker::Model;
use std::sync::{Arc, Wait};
use std::time::Duration;

/// An inbox with the right to take from it, and the bell that rings for each frame put into it.
#[derive(Drop)]
pub(crate) struct Receiver {
    inbox: Arc<Inbox>,
    bell: Arc<Bell>,
    pass: TakingPass,
    ghost tied: { pass.inbox ≡ arc_value inbox },
}

impl Model for Receiver {
    ghost use Rattle.std.specs.Arc.{arc_value};
    ghost use Rattle.inbox.specs.Passes.{InboxId};

    ghost Value = { InboxId };

    ghost view = { λ r. arc_value r.inbox };
}

/// The inbox of a replica, with a right to put into it.
#[derive(Drop)]
pub(crate) struct Sender {
    to: ReplicaId,
    inbox: Arc<Inbox>,
    bell: Arc<Bell>,
    losses: Arc<Losses>,
    pass: PuttingPass,
    ghost tied: { pass.inbox ≡ arc_value inbox },
}

impl Model for Sender {
    ghost use Rattle.std.specs.Arc.{arc_value};
    ghost use Rattle.cluster_workers.specs.RunningClusters.{PeerInbox};

    ghost Value = { PeerInbox };

    ghost view = { λ s. record { replica = s.to; inbox = arc_value s.inbox } };
}

impl Receiver {
    /// Takes the oldest frame, if there is one.
    pub(crate) fn take<R: Wait>(&mut self, rt: &R) -> Option<Bytes> {
        let item = self.inbox.take(rt, &mut self.pass)?;
        Some(item.into_bytes())
    }

    /// The number of frames that were put in, modulo 2^32.
    pub(crate) fn rings(&self) -> u32 {
        self.bell.rings()
    }

    /// Sleeps until the bell's count differs from `rings`, at most for `most`. It may return earlier.
    pub(crate) fn sleep<R: Wait>(&self, rt: &R, rings: u32, most: Duration) {
        self.bell.sleep(rt, rings, most);
    }
}

impl Sender {
    ghost use Rattle.std.specs.Prelude.{◌≡◌};

    /// The replica whose inbox it is.
    pub(crate) fn to(&self) -> ReplicaId
        ensures { result ≡ self.now.replica }
    {
        self.to
    }

    /// Puts a frame in without copying its bytes, and wakes the taker. Returns false if the frame is lost since the inbox was full, which is
    /// counted. The only error is allocation failure, and then it is lost, too.
    pub(crate) fn send<R: Wait>(&mut self, rt: &R, frame: &Bytes) -> Result<bool, AllocError> {
        let bytes = frame.clone()?;
        let item = Item::new(self.pass.number(), bytes);
        let is_put = self.inbox.put(rt, &mut self.pass, item).is_ok();
        if is_put {
            self.bell.ring();
        } else {
            self.losses.add(self.to);
        }
        Ok(is_put)
    }
}

/// A new inbox of the replica `to`: the end to take from, and for each of `owners` owners an end to put into, by number.
fn new_inbox(
    alloc: Global,
    to: ReplicaId,
    owners: u8,
    losses: &Arc<Losses>,
) -> Result<(Receiver, Vec<Sender>), AllocError>
    ensures count { IfOk result (λ r. vec_len r.1 ≡ owners) }
    ensures peers { IfOk result (λ r. All (λ s. s ≡ record { replica = to; inbox = r.0 }) r.1.items) }
{
    let (inbox, taking, putting) = Inbox::new(alloc, u32::from(owners))?;
    let inbox = Arc::new(alloc, inbox)?;
    let bell = Arc::new(alloc, Bell::new())?;
    let mut senders = Vec::with_capacity(alloc, usize::from(owners))?;
    for pass in putting {
        senders.push(Sender {
            to,
            inbox: Arc::try_clone(&inbox)?,
            bell: Arc::try_clone(&bell)?,
            losses: Arc::try_clone(losses)?,
            pass,
        })?;
    }
    Ok((
        Receiver {
            inbox,
            bell,
            pass: taking,
        },
        senders,
    ))
}

/// Each owner's senders with the next sender at their end, in order.
fn with_row(
    alloc: Global,
    owners: Vec<Vec<Sender>>,
    row: Vec<Sender>,
) -> Result<Vec<Vec<Sender>>, AllocError>
    requires { vec_len owners ≡ vec_len row }
    ensures count { IfOk result (λ longer. vec_len longer ≡ vec_len owners) }
    // If all owners had senders to the same inboxes, all have one to this inbox, too.
    ensures peers { IfOk result (λ longer. (peers : List PeerInbox) (peer : PeerInbox)
        → All (λ senders. senders.items ≡ peers) owners.items
        → All (λ s. s ≡ peer) row.items
        → All (λ senders. senders.items ≡ peers ++ peer ∷ []) longer.items) }
{
    let mut row = row.into_iter();
    let mut longer = Vec::with_capacity(alloc, owners.len())?;
    for mut senders in owners {
        let Some(sender) = row.next() else {
            unreachable!();
        };
        senders.push(sender)?;
        longer.push(senders)?;
    }
    Ok(longer)
}

/// The inboxes of all replicas: the end that each replica takes from, and the ends that each replica puts into.
#[derive(Drop)]
pub(crate) struct Inboxes {
    pub(crate) receivers: Vec<Receiver>,
    pub(crate) senders: Vec<Vec<Sender>>,
}

/// `owners` owners with no sender.
fn no_senders(alloc: Global, owners: u8) -> Result<Vec<Vec<Sender>>, AllocError>
    ensures count { IfOk result (λ senders. vec_len senders ≡ owners) }
    ensures none { IfOk result (λ senders. All (λ s. s.items ≡ []) senders.items) }
{
    let mut senders = Vec::with_capacity(alloc, usize::from(owners))?;
    for _owner in 0..owners {
        senders.push(Vec::new(alloc))?;
    }
    Ok(senders)
}

/// The inboxes of `replicas` replicas, which count the frames that they lose.
pub(crate) fn inboxes_of(
    alloc: Global,
    replicas: u8,
    losses: &Arc<Losses>,
) -> Result<Inboxes, AllocError>
    ensures receivers { IfOk result (λ inboxes. vec_len inboxes.receivers ≡ replicas) }
    ensures senders { IfOk result (λ inboxes. vec_len inboxes.senders ≡ replicas) }
    // Each replica puts into the inboxes from which the replicas take, by number.
    ensures peers { IfOk result (λ inboxes. All (λ s. s.items ≡ peers_from 0 inboxes.receivers.items) inboxes.senders.items) }
{
    let mut receivers = Vec::with_capacity(alloc, usize::from(replicas))?;
    let mut senders = no_senders(alloc, replicas)?;
    for to in 0..replicas {
        let (receiver, row) = new_inbox(alloc, ReplicaId::new(to), replicas, losses)?;
        receivers.push(receiver)?;
        senders = with_row(alloc, senders, row)?;
    }
    Ok(Inboxes { receivers, senders })
}
