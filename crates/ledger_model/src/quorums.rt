//! The quorums by which replicas agree, and the owner of a phase.
use crate::{Config, Phase, ReplicaId};

impl Config {
    ghost use Rattle.std.specs.Prelude.{◌≡◌, ◌+◌, ◌*◌};
    ghost use Rattle.ledger_model.specs.Rounds.{quorum, owner_of};

    /// The number of reports that a lock needs: N-t, a quorum.
    pub fn quorum(&self) -> u8
        ensures { result ≡ quorum self.now }
    {
        self.replicas - self.faults
    }

    /// The number of acknowledgements that decide: 2t+1. At least t+1 of them come from correct replicas.
    pub fn deciding(&self) -> u8
        ensures { result ≡ 2 * self.now.faults + 1 }
    {
        2 * self.faults + 1
    }

    /// The replica that owns a phase and may make its lock: number `phase` mod N (Dwork, Lynch and Stockmeyer 1988, a
    /// rotating owner).
    pub fn owner_of(&self, phase: Phase) -> ReplicaId
        ensures { result ≡ owner_of self.now phase }
    {
        ReplicaId::new((phase.number() % u32::from(self.replicas)) as u8)
    }
}
