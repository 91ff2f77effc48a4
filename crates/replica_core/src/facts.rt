//! What a replay shows of itself, and so a core. None of these calls changes it.
use crate::replay::Replay;
use crate::replica::Core;
use abci::{Application, Info};
use batch_pool::Pool;
use key_ring::KeyRing;
use ledger_model::{Batch, Config, Height, ReplicaId};
use std::alloc::{AllocError, Global};

impl<A: Application> Replay<A> {
    ghost use Rattle.std.specs.Prelude.{◌≡◌, ◌<◌, ◌≤◌, ◌+◌, List, length, IfOk};
    ghost use Rattle.std.specs.Option.{option_copied};
    ghost use Rattle.ledger_model.specs.declared.history.Entry.{Entry};
    ghost use Rattle.ledger_model.specs.Limits.{max_height, last_round};
    ghost use Rattle.ledger_model.specs.Logs.{is_mute};
    ghost use Rattle.ledger_model.specs.Commits.{commits_of, floor_of, decision_at};
    ghost use Rattle.ledger_model.specs.Lawful.{clock_at};
    ghost use Rattle.height_row.specs.Heights.{row_at, decided_in};
    ghost use Rattle.replica_core.specs.Replays.{IsOneCluster, IsWithinLimits, MatchesHistory};
    ghost use Rattle.replica_core.specs.Facts.{block_at, info_reply, AreClosed, undecided_in, undecided_heights};

    /// The number of the replica.
    pub fn id(&self) -> ReplicaId
        ensures id { result ≡ self.now.id }
        ensures member { self.now.id < self.now.config.replicas }
    {
        self.id
    }

    /// The configuration of its cluster.
    pub fn config(&self) -> &Config
        ensures { result.now ≡ self.now.config }
    {
        &self.config
    }

    /// The public keys of the replicas, by number.
    pub fn ring(&self) -> &KeyRing
        ensures { result.now ≡ self.now.ring }
    {
        self.verifier.ring()
    }

    /// The number of the open round, 0 before the first.
    pub fn clock(&self) -> u32
        ensures clock { result ≡ self.now.clock }
        ensures early { result ≤ last_round }
        // Every matched history opened as many rounds.
        ensures same { (entries : List Entry) → MatchesHistory A.meaning self.now entries → clock_at entries ≡ result }
    {
        self.clock
    }

    /// Whether the replica is mute: it will never sign a statement again.
    pub fn is_mute(&self) -> bool
        ensures mute { result ≡ self.now.mute }
        ensures limits { IsWithinLimits self.now }
        // It is, in every matched history.
        ensures same { (entries : List Entry) → MatchesHistory A.meaning self.now entries → is_mute entries ≡ result }
    {
        // This call shows the proof that the open heights ascend and are within their limits.
        let _ = self.rows.instances();
        self.mute
    }

    /// The number of committed blocks.
    pub fn height(&self) -> u32
        ensures height { result ≡ length self.now.commits }
        ensures most { result ≤ max_height }
        // Every matched history committed as many.
        ensures same { (entries : List Entry) → MatchesHistory A.meaning self.now entries
            → length (commits_of self.now.config self.now.id entries) ≡ result }
    {
        // This read opens the invariant for the proof: the application ran as many blocks.
        let _ = &self.config;
        self.executor.height()
    }

    /// The committed batch of a height; `None` at height 0 and above the committed height.
    pub fn block(&self, height: Height) -> Option<&Batch>
        ensures block { option_copied result ≡ block_at self.now.commits height }
        // It is the batch that every matched history committed.
        ensures same { (entries : List Entry) → MatchesHistory A.meaning self.now entries
            → option_copied result ≡ block_at (commits_of self.now.config self.now.id entries) height }
    {
        let number = height.number() as usize;
        if number == 0 {
            return None;
        }
        self.committed.get(number - 1)
    }

    /// The floor: the least height that the replica hasn't given up, 1 at first.
    pub fn floor(&self) -> Height
        ensures floor { result ≡ self.now.floor }
        // Every height below it is committed.
        ensures low { result ≤ length self.now.commits + 1 }
        // It is the floor of every matched history, and no height below it is open there.
        ensures same { (entries : List Entry) → MatchesHistory A.meaning self.now entries → floor_of entries ≡ result }
        ensures closed { (entries : List Entry) → MatchesHistory A.meaning self.now entries
            → AreClosed self.now.config self.now.id entries result }
    {
        // This read opens the invariant for the proof: a height below the floor is committed.
        let _ = &self.config;
        self.rows.floor()
    }

    /// The batch that was decided at a height from the floor on, committed or not; `None` if none was, and below the floor.
    pub fn decided_at(&self, height: Height) -> Option<&Batch>
        ensures row { option_copied result ≡ decided_in (row_at self.now.rows height) }
        ensures one { IsOneCluster self.now }
        // It is the batch that every matched history decided.
        ensures decided { (entries : List Entry) → MatchesHistory A.meaning self.now entries
            → option_copied result ≡ decision_at self.now.config self.now.id entries height }
    {
        self.rows.decided_at(height)
    }

    /// The open heights at which nothing is decided yet, in ascending order. The only error is allocation failure.
    pub fn undecided_heights(&self, alloc: Global) -> Result<Vec<Height>, AllocError>
        ensures rows { IfOk result (λ heights. heights.items ≡ undecided_in self.now.rows) }
        // They are those of every matched history.
        ensures same { IfOk result (λ heights. (entries : List Entry) → MatchesHistory A.meaning self.now entries
            → heights.items ≡ undecided_heights self.now.config self.now.id entries) }
    {
        let mut heights = Vec::new(alloc);
        for instance in self.rows.instances() {
            if instance.decided().is_none() {
                heights.push(instance.height())?;
            }
        }
        Ok(heights)
    }

    /// The number of blocks that the application committed, and the hash of its state (ABCI's Info).
    pub fn info(&self) -> Info
        ensures { result ≡ info_reply A.meaning self.now.config.kind self.now.commits }
    {
        self.executor.info()
    }

    /// The pool: the transactions that wait for a block, in order of arrival.
    pub fn pool(&self) -> &Pool
        ensures { result.now ≡ self.now.pool }
    {
        &self.pool
    }
}

impl<A: Application> Core<A> {
    ghost use Rattle.std.specs.Prelude.{◌≡◌, ◌<◌, ◌≤◌, ◌+◌, List, Some, length, slice_get};
    ghost use Rattle.std.specs.Option.{option_copied};
    ghost use Rattle.ledger_model.specs.declared.history.Entry.{Entry};
    ghost use Rattle.ledger_model.specs.Limits.{max_height, last_round};
    ghost use Rattle.ledger_model.specs.Commits.{floor_of, decision_at};
    ghost use Rattle.key_ring.specs.Signers.{public_key_of, leaves_of};
    ghost use Rattle.height_row.specs.Heights.{row_at, decided_in};
    ghost use Rattle.replica_core.specs.Replays.{MatchesHistory};
    ghost use Rattle.replica_core.specs.Leaves.{due_by};
    ghost use Rattle.replica_core.specs.Cores.{due_then};
    ghost use Rattle.replica_core.specs.Facts.{block_at, info_reply, AreClosed};

    /// The number of the replica.
    pub fn id(&self) -> ReplicaId
        ensures id { result ≡ self.now.replay.id }
        ensures member { self.now.replay.id < self.now.replay.config.replicas }
        // The ring has the replica's own key at its number.
        ensures own_key { slice_get self.now.replay.ring self.now.replay.id ≡ Some (public_key_of self.now.keys.secret) }
    {
        self.replay.id()
    }

    /// The configuration of its cluster.
    pub fn config(&self) -> &Config
        ensures { result.now ≡ self.now.replay.config }
    {
        self.replay.config()
    }

    /// The public keys of the replicas, by number.
    pub fn ring(&self) -> &KeyRing
        ensures { result.now ≡ self.now.replay.ring }
    {
        self.replay.ring()
    }

    /// The number of the open round, 0 before the first.
    pub fn clock(&self) -> u32
        ensures clock { result ≡ self.now.replay.clock }
        ensures early { result ≤ last_round }
    {
        self.replay.clock()
    }

    /// Whether the replica is mute: it will never sign a statement again.
    pub fn is_mute(&self) -> bool
        ensures mute { result ≡ self.now.replay.mute }
        // The next round end has as many statements to sign as every matched history makes due.
        ensures due { (entries : List Entry) → MatchesHistory A.meaning self.now.replay entries
            → due_then self.now ≡ due_by self.now.replay.config self.now.replay.id entries }
    {
        self.replay.is_mute()
    }

    /// The number of statements that the replica can still sign.
    pub fn leaves_left(&self) -> u32
        ensures { self.now.keys.used + result ≡ leaves_of self.now.keys.secret }
    {
        self.signer.leaves_left()
    }

    /// The number of committed blocks.
    pub fn height(&self) -> u32
        ensures height { result ≡ length self.now.replay.commits }
        ensures most { result ≤ max_height }
    {
        self.replay.height()
    }

    /// The number of blocks that the application committed, and the hash of its state (ABCI's Info).
    pub fn info(&self) -> Info
        ensures { result ≡ info_reply A.meaning self.now.replay.config.kind self.now.replay.commits }
    {
        self.replay.info()
    }

    /// The pool: the transactions that wait for a block, in order of arrival.
    pub fn pool(&self) -> &Pool
        ensures { result.now ≡ self.now.replay.pool }
    {
        self.replay.pool()
    }

    /// The committed batch of a height; `None` at height 0 and above the committed height.
    pub fn block(&self, height: Height) -> Option<&Batch>
        ensures { option_copied result ≡ block_at self.now.replay.commits height }
    {
        self.replay.block(height)
    }

    /// The floor: the least height that the replica hasn't given up, 1 at first.
    pub fn floor(&self) -> Height
        ensures floor { result ≡ self.now.replay.floor }
        // Every height below it is committed.
        ensures low { result ≤ length self.now.replay.commits + 1 }
        // It is the floor of every matched history, and no height below it is open there.
        ensures same { (entries : List Entry) → MatchesHistory A.meaning self.now.replay entries → floor_of entries ≡ result }
        ensures closed { (entries : List Entry) → MatchesHistory A.meaning self.now.replay entries
            → AreClosed self.now.replay.config self.now.replay.id entries result }
    {
        self.replay.floor()
    }

    /// The batch that was decided at a height from the floor on, committed or not; `None` if none was, and below the floor.
    pub fn decided_at(&self, height: Height) -> Option<&Batch>
        ensures row { option_copied result ≡ decided_in (row_at self.now.replay.rows height) }
        // It is the batch that every matched history decided.
        ensures decided { (entries : List Entry) → MatchesHistory A.meaning self.now.replay entries
            → option_copied result ≡ decision_at self.now.replay.config self.now.replay.id entries height }
    {
        self.replay.decided_at(height)
    }
}
