//! A whole cluster with liars, and its accessors.
ghost use Rattle.std.specs.Prelude.{◌≡◌, ◌∷◌, ◌++◌, [], map, OnOk};
ghost use Rattle.std.specs.List.{filter_map};
ghost use Rattle.adversary_net.specs.WorldViews.{state_in, history_in};

use crate::correct::CorrectReplica;
use crate::party::Party;
use abci::{Application, Info};
use key_ring::KeyRing;
use ledger_model::{Config, History, ReplicaId, WorldRefusal};
use locked_replica::State;
use std::alloc::AllocError;
use std::marker::Model;

/// A whole cluster, in which some replicas lie: the states of the correct replicas, and the key pairs of the liars.
///
/// The invariants of the type: what happened is a run in the sense of the definitions; each correct replica's
/// application is what it is when it runs alone on the replica's blocks; a correct replica is mute only if too few
/// leaves were left; no leaf signs two of the statements that it sends; and no more replicas lie than the cluster tolerates.
pub struct World<A: Application> {
    pub(crate) config: Config,
    pub(crate) ring: KeyRing,
    /// The replicas, by number.
    pub(crate) parties: Vec<Party<CorrectReplica<A>>>,
    /// For each entry that was added, the replica that it was added at.
    pub(crate) order: Vec<ReplicaId>,
}

// An own `Drop` keeps proofs short: an owner drops it by one call. See docs/WORKING.md.
impl<A: Application> Drop for World<A> {
    fn drop(self) {
        let World {
            config: _config,
            ring: _ring,
            parties: _parties,
            order: _order,
        } = self;
    }
}

impl<A: Application> Model for World<A> {
    ghost use Rattle.adversary_net.specs.WorldViews.{WorldView, IsCluster};

    ghost Value = { WorldView };

    ghost view = { λ w. record { config = w.config; ring = w.ring; parties = w.parties.items; order = w.order.items } };

    ghost invariant = { λ w. IsCluster A.meaning (record { config = w.config; ring = w.ring; parties = w.parties.items; order = w.order.items }) };
}

/// Appends a copy of the history, if the party is a correct replica.
fn add_history<A: Application>(
    histories: &mut Vec<History>,
    party: &Party<CorrectReplica<A>>,
) -> Result<(), AllocError>
    ensures { OnOk result (histories.new.items ≡ histories.old.items ++ map history_in (filter_map state_in (party.now ∷ []))) }
{
    match party {
        Party::Correct(replica) => {
            histories.push(replica.state().history()?.history)?;
            Ok(())
        }
        Party::Liar(_) => Ok(()),
    }
}

impl<A: Application> World<A> {
    ghost use Rattle.std.specs.Prelude.{◌≤◌, ◌*◌, ◌^◌, None, Some, is_some, length, slice_get, IfSome, IfOk, IfErr, OnErr};
    ghost use Rattle.std.specs.Option.{option_copied};
    ghost use Rattle.ledger_model.specs.Commits.{commits_of};
    ghost use Rattle.ledger_model.specs.Groups.{is_correct};
    ghost use Rattle.ledger_model.specs.Worlds.{entries_in, fault_at, frames_sent};
    ghost use Rattle.replica_core.specs.Facts.{info_reply};
    ghost use Rattle.adversary_net.specs.WorldViews.{world_of, state_at, AllAccountForLeaves, AllReplay, HasRun, IsMemberAt, IsCluster, EachSignsOnce};
    ghost use Rattle.adversary_net.specs.Headline.{IsUnforgedRun, IsOneLedger};
    ghost use Rattle.ledger_model.specs.Limits.{max_history_len};

    /// The configuration of the cluster.
    pub fn config(&self) -> &Config
        ensures { result.now ≡ self.now.config }
    {
        &self.config
    }

    /// For each entry, the replica that it was added at, over all calls of [`run`](World::run).
    pub fn order(&self) -> &[ReplicaId]
        ensures order { result.now ≡ self.now.order }
        // Everything that happened since the world was made is a run in the sense of the definitions.
        ensures since { HasRun A.meaning self.now }
        // If nothing that was accepted was forged, it is a run of one sequential ledger.
        ensures one_ledger { IsUnforgedRun self.now → IsOneLedger A.meaning self.now }
        // Each entry of a correct replica is lawful after those before it, and what it sends is signed.
        ensures replay { AllReplay A.meaning self.now }
        // A correct replica is mute only if too few leaves were left.
        ensures account { AllAccountForLeaves self.now }
        // No leaf signed two of the statements that a correct replica sent.
        ensures once { EachSignsOnce self.now }
    {
        &self.order
    }

    /// Copies of the histories of the correct replicas, in ascending order of their numbers. They share the bytes of
    /// frames. The only error is allocation failure.
    pub fn histories(&self) -> Result<Vec<History>, AllocError>
        ensures { IfOk result (λ histories. histories.items ≡ (world_of self.now).histories) }
    {
        let alloc = *self.order.allocator();
        let mut histories = Vec::with_capacity(alloc, self.parties.len())?;
        for party in &self.parties {
            add_history(&mut histories, party)?;
        }
        Ok(histories)
    }

    /// The replica with this number, if the cluster has one.
    fn party(&self, replica: ReplicaId) -> Option<&Party<CorrectReplica<A>>>
        ensures party { option_copied result ≡ slice_get self.now.parties replica }
        ensures cluster { IsCluster A.meaning self.now }
    {
        self.parties.get(usize::from(replica.number()))
    }

    /// The correct replica with this number; `None` if it is a liar or not in the cluster.
    pub fn state(&self, replica: ReplicaId) -> Option<&State<A>>
        ensures state { option_copied result ≡ state_at self.now replica }
        ensures entries { IfSome result (λ s. entries_in (world_of self.now) replica ≡ s.now.entries) }
        ensures member { IfSome result (λ s. IsMemberAt A.meaning self.now replica s.now) }
        ensures correct { is_some result ≡ is_correct (world_of self.now).histories replica }
    {
        match self.party(replica) {
            Some(Party::Correct(replica)) => Some(replica.state()),
            Some(Party::Liar(_)) => None,
            None => None,
        }
    }

    /// The correct replica with this number, or why a step may not name it.
    pub(crate) fn correct(&self, replica: ReplicaId) -> Result<&CorrectReplica<A>, WorldRefusal>
        ensures correct { IfOk result (λ s. state_at self.now replica ≡ Some s.now) }
        ensures member { IfOk result (λ s. IsMemberAt A.meaning self.now replica s.now) }
        ensures entries { IfOk result (λ s. entries_in (world_of self.now) replica ≡ s.now.entries) }
        ensures no_fault { OnOk result (fault_at self.now.config (world_of self.now) replica ≡ None) }
        ensures fault { IfErr result (λ fault. fault_at self.now.config (world_of self.now) replica ≡ Some fault) }
        ensures no_entries { OnErr result (entries_in (world_of self.now) replica ≡ []) }
    {
        match self.party(replica) {
            Some(Party::Correct(replica)) => Ok(replica),
            Some(Party::Liar(_)) => Err(WorldRefusal::Liar),
            None => Err(WorldRefusal::NoSuchReplica),
        }
    }

    /// The number of frames that a correct replica ever sent, including locks that it sent on. It is 0 for a liar, and
    /// for a number that is not in the cluster.
    pub fn frames_sent(&self, replica: ReplicaId) -> u128
        ensures count { result ≡ length (frames_sent (entries_in (world_of self.now) replica)) }
        ensures bound { result ≤ max_history_len * 2 ^ 64 }
    {
        match self.correct(replica) {
            Ok(replica) => replica.frames_sent(),
            Err(_) => 0,
        }
    }

    /// The number of blocks that a correct replica's application committed, and the hash of its state (ABCI's Info).
    ///
    /// `NoSuchReplica` comes exactly if the replica is not in the cluster, `Liar` exactly if it is a liar.
    pub fn info(&self, replica: ReplicaId) -> Result<Info, WorldRefusal>
        // It is the answer of the application run alone on what the replica committed.
        ensures info { IfOk result (λ info. info
            ≡ info_reply A.meaning self.now.config.kind (commits_of self.now.config replica (entries_in (world_of self.now) replica))) }
        ensures no_fault { OnOk result (fault_at self.now.config (world_of self.now) replica ≡ None) }
        ensures fault { IfErr result (λ fault. fault_at self.now.config (world_of self.now) replica ≡ Some fault) }
    {
        Ok(self.correct(replica)?.state().info())
    }
}
