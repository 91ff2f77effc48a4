//! What an audit finds wrong.
ghost use Rattle.std.specs.Prelude.{◌≡◌};
ghost use Rattle.history_audit.specs.declared.fault.AuditFault.TheVariants.{NoMemory};

use ledger_model::ReplicaId;
use std::alloc::AllocError;
use thiserror::Error;

/// Why an audit finds no ledger.
#[derive(Clone, Copy, Debug, PartialEq, Eq, Error)]
pub enum AuditFault {
    /// Fewer than N-t histories were handed in, or two of one replica, or one of a replica that the cluster doesn't have.
    #[error("an audit needs the histories of N-t different replicas of the cluster")]
    Count,
    /// The history isn't a replay: this entry's reply isn't lawful after the entries before it, or sends something that isn't
    /// signed.
    #[error("the history isn't a replay")]
    NotReplay {
        replica: ReplicaId,
        index: usize,
    },
    /// The reader accepted, at this entry, a statement of the signer that the signer's history doesn't send.
    #[error("a replica accepted a statement that its signer's history doesn't send")]
    Unsent {
        reader: ReplicaId,
        index: usize,
        signer: ReplicaId,
    },
    /// Memory was refused.
    #[error("out of memory")]
    NoMemory,
}

impl AuditFault {
    ghost use Rattle.history_audit.specs.Faults.{audit_fault_number};

    /// The number of the fault: 1 to 4, in the order above.
    pub fn number(&self) -> u8
        ensures { result ≡ audit_fault_number self.now }
    {
        match self {
            AuditFault::Count => 1,
            AuditFault::NotReplay { .. } => 2,
            AuditFault::Unsent { .. } => 3,
            AuditFault::NoMemory => 4,
        }
    }
}

impl From<AllocError> for AuditFault {
    ghost from_gives = { λ _ fault. fault ≡ NoMemory };

    fn from(_error: AllocError) -> AuditFault {
        AuditFault::NoMemory
    }
}
