//! Another replica's history, followed entry by entry without its secret key.
use abci::Application;
use key_ring::KeyRing;
use ledger_model::{Batch, Config, Event, Height, ReplicaId, Reply};
use replica_core::Replay;
use std::alloc::{AllocError, Global};
use std::hash::RandomState;
use std::marker::Model;
use verify_cache::Verifier;

/// Follows the history of a replica: for each entry it returns whether the reply is lawful after the entries before it, and
/// everything that it sends is signed. It needs no secret key, and stores no history. Contracts see a `FollowerView`.
#[derive(Drop)]
pub struct Follower<A: Application> {
    replay: Replay<A>,
    lost: bool,
}

impl<A: Application> Model for Follower<A> {
    ghost use Rattle.history_follower.specs.Followers.{FollowerView};

    ghost Value = { FollowerView };

    ghost view = { λ f. record { replay = f.replay; lost = f.lost } };
}

impl<A: Application> Follower<A> {
    ghost use Rattle.std.specs.Prelude.{◌≡◌, ◌<◌, ◌≤◌, ◌∷◌, ◌++◌, ◌↔◌, [], List, length, not, true, false, IfOk, OnErr};
    ghost use Rattle.std.specs.Option.{option_copied};
    ghost use Rattle.ledger_model.specs.declared.history.Entry.{Entry};
    ghost use Rattle.ledger_model.specs.Limits.{max_height, last_round};
    ghost use Rattle.ledger_model.specs.Applications.{run};
    ghost use Rattle.replica_core.specs.Replays.{new_replay, MatchesHistory};
    ghost use Rattle.replica_core.specs.Facts.{block_at};
    ghost use Rattle.replica_core.specs.Steps.{gives_up};
    ghost use Rattle.replica_core.specs.Following.{KeepsReplay, IsSameReplay};

    /// A follower of the history of replica `id`, before its first entry. The ring has the keys that signatures are
    /// verified under. The application must be in its opening state, of the configured kind. The pool and the
    /// verifier hash with the random keys. The only error is allocation failure.
    pub fn new(
        alloc: Global,
        config: Config,
        ring: KeyRing,
        id: ReplicaId,
        app: A,
        random: RandomState,
    ) -> Result<Self, AllocError>
        requires member { id < config.replicas }
        requires opening { A.machine app ≡ run A.meaning config.kind [] }
        ensures new { IfOk result (λ follower. follower ≡ record { replay = new_replay A.meaning config id ring; lost = false }) }
        // It matches the empty history.
        ensures matches { IfOk result (λ follower. MatchesHistory A.meaning follower.replay []) }
    {
        Ok(Follower {
            replay: Replay::new(alloc, config, id, ring, app, [random, random])?,
            lost: false,
        })
    }

    /// Takes the next entry. Returns whether its reply is lawful after the entries before it, and everything that it sends is
    /// signed. After the first entry for which that is false, the follower is lost and returns false for every later entry.
    ///
    /// The only error is allocation failure. It changes nothing, so the caller may pass the entry again. An event that gives heights
    /// up needs no memory.
    pub fn follow(
        &mut self,
        alloc: Global,
        event: &Event,
        reply: &Reply,
    ) -> Result<bool, AllocError>
        // It returns true exactly if the entry continues each replay that the follower matches.
        ensures exact { IfOk result (λ kept. self.old.lost ≡ false → (entries : List Entry)
            → MatchesHistory A.meaning self.old.replay entries
            → kept ≡ true ↔ KeepsReplay A.meaning self.old.replay entries event.now reply.now) }
        // The follower then matches the history with this entry appended.
        ensures matches { IfOk result (λ kept. kept ≡ true → (entries : List Entry) → MatchesHistory A.meaning self.old.replay entries
            → MatchesHistory A.meaning self.new.replay (entries ++ record { event = event.now; reply = reply.now } ∷ [])) }
        ensures lost { IfOk result (λ kept. self.new.lost ≡ not kept) }
        // A follower that is lost stays lost.
        ensures for_good { IfOk result (λ kept. self.old.lost ≡ true → kept ≡ false) }
        ensures err { OnErr result (self.new ≡ self.old) }
        ensures free { OnErr result (gives_up event.now ≡ false) }
        ensures same { IsSameReplay self.old.replay self.new.replay }
    {
        if self.lost {
            return Ok(false);
        }
        let kept = self.replay.follow(alloc, event, reply)?;
        self.lost = !kept;
        Ok(kept)
    }

    /// Swaps the follower's verifier for another one that has the same keys. So one verifier can go from follower to
    /// follower, and hashes a signature that several histories contain only once.
    pub fn swap_verifier(&mut self, verifier: &mut Verifier)
        requires { verifier.old.ring ≡ self.old.replay.ring }
        ensures same { self.new ≡ self.old }
        ensures ring { verifier.new.ring ≡ verifier.old.ring }
    {
        self.replay.swap_verifier(verifier);
    }

    /// What the replica derives from the entries that the follower took.
    pub fn replay(&self) -> &Replay<A>
        ensures { result.now ≡ self.now.replay }
    {
        &self.replay
    }

    /// Whether the follower is lost: some entry was refused.
    pub fn is_lost(&self) -> bool
        ensures { result ≡ self.now.lost }
    {
        self.lost
    }

    /// The number of the open round, 0 before the first.
    pub fn clock(&self) -> u32
        ensures clock { result ≡ self.now.replay.clock }
        ensures early { result ≤ last_round }
    {
        self.replay.clock()
    }

    /// The number of committed blocks.
    pub fn height(&self) -> u32
        ensures height { result ≡ length self.now.replay.commits }
        ensures most { result ≤ max_height }
    {
        self.replay.height()
    }

    /// The committed batch of a height; `None` at height 0 and above the committed height.
    pub fn block(&self, height: Height) -> Option<&Batch>
        ensures { option_copied result ≡ block_at self.now.replay.commits height }
    {
        self.replay.block(height)
    }
}
