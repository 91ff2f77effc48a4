//! The core of a replica: what it derives from its history, and the keys that it signs with.
use crate::replay::Replay;
use abci::Application;
use key_ring::{KeyRing, Signer};
use ledger_model::{Config, Event, ReplicaId, Reply};
use std::alloc::{AllocError, Global};
use std::hash::RandomState;
use std::marker::Model;

/// The core of a replica: what it derives from its history, and its keys. It stores no history. Contracts see a `CoreView`.
#[derive(Drop)]
pub struct Core<A: Application> {
    pub(crate) replay: Replay<A>,
    pub(crate) signer: Signer,
}

impl<A: Application> Model for Core<A> {
    ghost use Rattle.std.specs.Prelude.{◌≡◌, slice_get, Some};
    ghost use Rattle.key_ring.specs.Signers.{public_key_of};
    ghost use Rattle.replica_core.specs.Cores.{CoreView};

    ghost Value = { CoreView };

    ghost view = { λ c. record { replay = c.replay; keys = c.signer } };

    ghost invariant = { λ c. slice_get c.replay.ring c.replay.id ≡ Some (public_key_of c.signer.secret) };
}

impl<A: Application> Core<A> {
    ghost use Rattle.std.specs.Prelude.{◌≡◌, ◌<◌, ◌≤◌, ◌+◌, [], slice_get, Some, length, false, IfOk, OnErr};
    ghost use Rattle.std.specs.Option.{option_copied};
    ghost use Rattle.ledger_model.specs.Limits.{max_height, last_round};
    ghost use Rattle.ledger_model.specs.Applications.{run};
    ghost use Rattle.key_ring.specs.Signers.{public_key_of, leaves_of};
    ghost use Rattle.replica_core.specs.Replays.{new_replay, MatchesHistory};
    ghost use Rattle.replica_core.specs.Steps.{IsStep, UsesLeaves, gives_up};
    ghost use Rattle.replica_core.specs.Cores.{CoreView, IsSameReplica, leaves_due, is_mute_then};

    /// A core before the first event. The application must be in its opening state, of the configured kind, and the ring must
    /// have the replica's own key at its number. The pool hashes with the first of the random keys, and the verifier with the
    /// second. The only error is allocation failure.
    pub fn new(
        alloc: Global,
        config: Config,
        id: ReplicaId,
        signer: Signer,
        ring: KeyRing,
        app: A,
        randoms: [RandomState; 2],
    ) -> Result<Self, AllocError>
        requires member { id < config.replicas }
        requires own_key { slice_get ring id ≡ Some (public_key_of signer.secret) }
        requires opening { A.machine app ≡ run A.meaning config.kind [] }
        ensures new { IfOk result (λ core. core ≡ record { replay = new_replay A.meaning config id ring; keys = signer }) }
        // It matches the empty history.
        ensures matches { IfOk result (λ core. MatchesHistory A.meaning core.replay []) }
    {
        Ok(Core {
            replay: Replay::new(alloc, config, id, ring, app, randoms)?,
            signer,
        })
    }

    /// Takes one event, and returns the reply.
    ///
    /// The only error is allocation failure. It changes nothing, except that a round end of a replica that is not mute may have used
    /// leaves. Giving heights up takes no memory.
    pub fn step(&mut self, alloc: Global, event: &Event) -> Result<Reply, AllocError>
        // After every history that the core matches, the reply is lawful and signed, and the core then matches the
        // history with this entry.
        ensures step { IfOk result (λ reply. IsStep A.meaning self.old.replay event.now reply self.new.replay) }
        // Which leaves sign the statements, in which order.
        ensures leaves { IfOk result (λ reply. UsesLeaves self.old.keys self.old.replay.clock reply self.new.keys) }
        // The core is mute if it was before, or if a round end had more statements to sign than leaves were left.
        ensures mute { IfOk result (λ _. self.new.replay.mute ≡ is_mute_then self.old event.now) }
        ensures err { OnErr result (self.new ≡ record self.old { keys = self.new.keys }) }
        ensures free { OnErr result (gives_up event.now ≡ false) }
        ensures least { self.old.keys.used ≤ self.new.keys.used }
        ensures most { self.new.keys.used ≤ self.old.keys.used + leaves_due self.old event.now }
        ensures same { IsSameReplica self.old self.new }
    {
        match event {
            Event::Submit(bytes) => Ok(Reply::Submitted(self.replay.submit(bytes)?)),
            Event::Propose(height) => Ok(Reply::Proposed(self.replay.propose(alloc, *height)?)),
            Event::Deliver(bytes) => Ok(Reply::Delivered(self.replay.deliver(alloc, bytes)?)),
            Event::RoundEnd => Ok(Reply::RoundEnded(self.end_round(alloc)?)),
            Event::Execute => Ok(Reply::Executed(self.replay.execute(alloc)?)),
            Event::Query(key, height) => {
                Ok(Reply::Queried(self.replay.query(key.as_bytes(), height.number())?))
            }
            Event::Retire(floor) => Ok(Reply::Retired(self.replay.retire(*floor))),
        }
    }
}
