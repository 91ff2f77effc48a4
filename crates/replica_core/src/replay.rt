//! What a replica derives from its history: the engine that a core runs with a signer, and a follower with a comparison.
use abci::Application;
use abci_executor::Executor;
use batch_pool::Pool;
use height_row::HeightRow;
use key_ring::KeyRing;
use ledger_model::{Batch, Config, ReplicaId};
use std::alloc::{AllocError, Global};
use std::hash::RandomState;
use std::marker::Model;
use verify_cache::Verifier;

/// What a replica derives from its history: the floor and the open heights, the pool, the application and what was committed to it, the open
/// round, and whether the replica is mute. Contracts see a `ReplayView`.
pub struct Replay<A: Application> {
    pub(crate) config: Config,
    pub(crate) id: ReplicaId,
    /// The keys, and which signatures are known to be valid under them.
    pub(crate) verifier: Verifier,
    pub(crate) rows: HeightRow,
    pub(crate) pool: Pool,
    pub(crate) executor: Executor<A>,
    pub(crate) committed: Vec<Batch>,
    pub(crate) clock: u32,
    pub(crate) mute: bool,
}

// An own `Drop` keeps proofs short: an owner drops it by one call. See docs/WORKING.md.
impl<A: Application> Drop for Replay<A> {
    fn drop(self) {
        let Replay {
            config: _config,
            id: _id,
            verifier: _verifier,
            rows: _rows,
            pool: _pool,
            executor: _executor,
            committed: _committed,
            clock: _clock,
            mute: _mute,
        } = self;
    }
}

impl<A: Application> Model for Replay<A> {
    ghost use Rattle.std.specs.Prelude.{◌≡◌, ◌<◌, ◌≤◌, ◌+◌, length};
    ghost use Rattle.ledger_model.specs.Limits.{max_height, last_round};
    ghost use Rattle.ledger_model.specs.Applications.{run};
    ghost use Rattle.replica_core.specs.Replays.{ReplayView};

    ghost Value = { ReplayView };

    ghost view = { λ k. record {
      config = k.config;
      id = k.id;
      ring = k.verifier.ring;
      floor = k.rows.floor;
      rows = k.rows.rows;
      pool = k.pool;
      commits = k.committed.items;
      machine = k.executor;
      clock = k.clock;
      mute = k.mute;
    } };

    ghost invariant = { λ k. (k.id < k.config.replicas) × (k.rows.config ≡ k.config) × (k.rows.id ≡ k.id)
        × (k.executor ≡ run A.meaning k.config.kind k.committed.items)
        × (length k.committed.items ≤ max_height) × (k.clock ≤ last_round)
        × (k.rows.floor ≤ length k.committed.items + 1) };
}

impl<A: Application> Replay<A> {
    ghost use Rattle.std.specs.Prelude.{◌≡◌, ◌<◌, [], IfOk};
    ghost use Rattle.ledger_model.specs.Applications.{run};
    ghost use Rattle.replica_core.specs.Replays.{new_replay, MatchesHistory};

    /// The replay of the empty history of replica `id`. The ring has the keys that signatures are verified under. The application must
    /// be in its opening state, of the configured kind. The pool hashes with the first of the random keys, and the verifier with the
    /// second. The only error is allocation failure.
    pub fn new(
        alloc: Global,
        config: Config,
        id: ReplicaId,
        ring: KeyRing,
        app: A,
        randoms: [RandomState; 2],
    ) -> Result<Self, AllocError>
        requires member { id < config.replicas }
        requires opening { A.machine app ≡ run A.meaning config.kind [] }
        ensures new { IfOk result (λ replay. replay ≡ new_replay A.meaning config id ring) }
        // It matches the empty history.
        ensures matches { IfOk result (λ replay. MatchesHistory A.meaning replay []) }
    {
        let [pool_random, verifier_random] = randoms;
        let executor = Executor::new(app)?;
        let verifier = Verifier::new(alloc, ring, verifier_random)?;
        Ok(Replay {
            config,
            id,
            verifier,
            rows: HeightRow::new(alloc, &config, id),
            pool: Pool::new(alloc, pool_random),
            executor,
            committed: Vec::new(alloc),
            clock: 0,
            mute: false,
        })
    }
}
