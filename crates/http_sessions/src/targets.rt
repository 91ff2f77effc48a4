//! What a request can ask of replicas, as a trait that a server implements.
use client_sessions::Targets;
use http_messages::ReplicaMetrics;
use ledger_model::{AppKind, Height, ReplicaId};

/// How far a replica is.
#[derive(Clone, Copy, Debug, PartialEq, Eq)]
pub struct Progress {
    /// Its open round, 0 before the first.
    pub rounds: u32,
    /// The last height that it committed.
    pub height: Height,
}

/// What a replica's application says of itself.
#[derive(Clone, Copy, Debug, PartialEq, Eq)]
pub struct AppInfo {
    pub kind: AppKind,
    /// The last height that it committed.
    pub height: Height,
    /// The SHA-256 of its state then.
    pub hash: [u8; 32],
}

/// The transactions that wait in a replica's pool.
#[derive(Clone, Copy, Debug, PartialEq, Eq)]
pub struct PoolSize {
    /// Their number.
    pub transactions: u64,
    /// The number of their bytes together.
    pub bytes: u64,
}

/// What became of a transaction that a pool took.
#[derive(Clone, Copy, Debug, PartialEq, Eq)]
pub enum Delivery {
    /// A replica has run the block at this height, which has the transaction, and the application returned this code for it.
    Committed { height: Height, code: u32 },
    /// No block had it in time.
    TimedOut,
    /// The server was asked to stop before a block had it.
    Stopping,
}

/// Replicas by number, which also show what HTTP alone asks for.
///
/// Each call is one exchange, and but for `spread` it adds no entry to a history. `inquires` relates the targets before a call to the
/// targets after it, as `asks` of [`Targets`] does.
///
/// A lock doesn't tell which state it guards. Each call but `spread` returns `None` if it finds another replica's state.
pub trait HttpTargets: Targets {
    ghost use Rattle.std.specs.Prelude.{◌≡◌, ◌<◌, IfSome};
    ghost use Rattle.http_sessions.specs.Exchanges.{Inquiry, Shows, Progresses, Pools, Infos, Spreads, Waits};

    ghost inquires: { Self → Inquiry → Self → Type 0 };

    /// What a replica shows of itself at one moment; `None` if the state that the replica's lock guards is another replica's.
    fn metrics(&mut self, replica: ReplicaId) -> Option<ReplicaMetrics>
        requires { replica < Self.replicas self.old }
        ensures asked { inquires self.old (Shows replica result) self.new }
        ensures replica { IfSome result (λ m. m.replica ≡ replica) }
        ensures count { Self.replicas self.new ≡ Self.replicas self.old };

    /// How far a replica is; `None` if the state that the replica's lock guards is another replica's.
    fn progress(&mut self, replica: ReplicaId) -> Option<Progress>
        requires { replica < Self.replicas self.old }
        ensures asked { inquires self.old (Progresses replica result) self.new }
        ensures count { Self.replicas self.new ≡ Self.replicas self.old };

    /// How many transactions wait in a replica's pool; `None` if the state that the replica's lock guards is another replica's.
    fn pool(&mut self, replica: ReplicaId) -> Option<PoolSize>
        requires { replica < Self.replicas self.old }
        ensures asked { inquires self.old (Pools replica result) self.new }
        ensures count { Self.replicas self.new ≡ Self.replicas self.old };

    /// What a replica's application says of itself; `None` if the state that the replica's lock guards is another replica's.
    fn info(&mut self, replica: ReplicaId) -> Option<AppInfo>
        requires { replica < Self.replicas self.old }
        ensures asked { inquires self.old (Infos replica result) self.new }
        ensures count { Self.replicas self.new ≡ Self.replicas self.old };

    /// Submits a transaction that the replica's pool took to all other replicas, so that each owner of a phase may propose it. What they
    /// answer isn't returned.
    fn spread(&mut self, replica: ReplicaId, tx: &[u8])
        requires { replica < Self.replicas self.old }
        ensures asked { inquires self.old (Spreads replica tx.now) self.new }
        ensures count { Self.replicas self.new ≡ Self.replicas self.old };

    /// Waits until some replica has run a block with the transaction that this replica's pool took, or until it has waited for too long or is
    /// to stop. The index is that of the submit's entry in this replica's history, and the block comes after that entry. `None` if the state
    /// that this replica's lock guards is another replica's.
    fn wait(&mut self, replica: ReplicaId, tx: &[u8], index: u32) -> Option<Delivery>
        requires { replica < Self.replicas self.old }
        ensures asked { inquires self.old (Waits replica tx.now index result) self.new }
        ensures count { Self.replicas self.new ≡ Self.replicas self.old };
}
