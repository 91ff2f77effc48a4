//! The replicas that a session can talk to, as a trait that its caller implements.
use ledger_model::{ApplyFault, Batch, Height, QueryAnswer, ReplicaId, SubmitRefusal};

/// Replicas by number, from 0 on. Their number never changes.
///
/// Each call but `count` is one exchange with one replica. `asks` relates the targets before an exchange to the targets
/// after it. The implementor chooses what `asks` says: all exchanges so far, the history of each replica, or nothing.
pub trait Targets {
    ghost use Rattle.std.specs.Prelude.{◌≡◌, ℕ, ◌<◌};
    ghost use Rattle.ledger_model.specs.Sessions.{Exchange, Submits, Queries, Heights, Blocks};

    ghost replicas: { Self → ℕ };

    ghost asks: { Self → Exchange → Self → Type 0 };

    /// The number of replicas.
    fn count(&self) -> usize
        ensures { result ≡ replicas self.now };

    /// Submits a transaction of any length to a replica. If the pool takes it, returns the index of the submit's entry in the
    /// replica's history. The inner `Err` is the pool's refusal.
    fn submit(
        &mut self,
        replica: ReplicaId,
        tx: &[u8],
    ) -> Result<Result<u32, SubmitRefusal>, ApplyFault>
        requires { replica < replicas self.old }
        ensures asked { asks self.old (Submits replica tx.now result) self.new }
        ensures count { replicas self.new ≡ replicas self.old };

    /// Queries a replica's application for a key, as of its last block. No key has more than 64 bytes: more bytes have no value, and add no
    /// event.
    fn query(&mut self, replica: ReplicaId, key: &[u8]) -> Result<QueryAnswer, ApplyFault>
        requires { replica < replicas self.old }
        ensures asked { asks self.old (Queries replica key.now result) self.new }
        ensures count { replicas self.new ≡ replicas self.old };

    /// The committed height of a replica, from the commit board.
    fn height(&mut self, replica: ReplicaId) -> Height
        requires { replica < replicas self.old }
        ensures asked { asks self.old (Heights replica result) self.new }
        ensures count { replicas self.new ≡ replicas self.old };

    /// The batch that a replica committed at a height; `None` at height 0 and above its committed height.
    fn block(&mut self, replica: ReplicaId, height: Height) -> Result<Option<Batch>, ApplyFault>
        requires { replica < replicas self.old }
        ensures asked { asks self.old (Blocks replica height result) self.new }
        ensures count { replicas self.new ≡ replicas self.old };
}
