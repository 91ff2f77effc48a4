//! The statements that replicas sent, found by their bytes.
ghost use Rattle.std.specs.Prelude.{◌≡◌, ◌∷◌, [], IfOk, OnOk};
ghost use Rattle.history_audit.specs.Tables.{sent_statement, has_sent, Gains};

use bytes::Bytes;
use indexmap::IndexSet;
use ledger_model::ReplicaId;
use std::alloc::{AllocError, Global};
use std::hash::{Hash, Hasher, RandomState};
use std::marker::Model;

/// The bytes of a statement, and the replica that sent it as its own.
#[derive(PartialEq, Eq)]
pub(crate) struct SentStatement {
    pub(crate) replica: ReplicaId,
    pub(crate) statement: Bytes,
}

// An own `Drop` keeps proofs short: an owner drops it by one call. See docs/WORKING.md.
impl Drop for SentStatement {
    fn drop(self) {
        let SentStatement {
            replica: _replica,
            statement: _statement,
        } = self;
    }
}

/// The first bytes of a statement: its kind, height, phase and signer. A replica sends one statement for them at most, so
/// a hash of them keeps statements apart, and no lookup hashes a lock's proof.
const HASHED: usize = 10;

impl Hash for SentStatement {
    ghost use Rattle.std.specs.Prelude.{◌∷◌, [], take};
    ghost use Rattle.std.proofs.Common.{rules};
    ghost use Rattle.std.specs.Cmp.Rules.{hashing};

    ghost hash_input = { λ s. take 10 s.statement ∷ [] };

    ghost respects_eq = { Prim.search (hashing, rules) };

    fn hash<H: Hasher>(&self, state: &mut H) {
        let bytes = self.statement.as_slice();
        state.write(&bytes[..HASHED.min(bytes.len())]);
    }
}

/// The statements that replicas sent as their own.
pub(crate) struct SentTable {
    sent: IndexSet<SentStatement, RandomState>,
}

// An own `Drop` keeps proofs short: an owner drops it by one call. See docs/WORKING.md.
impl Drop for SentTable {
    fn drop(self) {
        let SentTable { sent: _sent } = self;
    }
}

impl Model for SentTable {
    ghost use Rattle.std.specs.Prelude.{List};
    ghost use Rattle.history_audit.specs.declared.sent_table.SentStatement.{SentStatement};
    ghost use Rattle.indexmap.specs.IndexSet.{keys};

    ghost Value = { List SentStatement };

    ghost view = { λ t. keys t.sent };
}

impl SentTable {
    /// A table with no statement, which allocates nothing yet. It hashes with these random keys.
    pub(crate) fn new(alloc: Global, random: RandomState) -> Self
        ensures { result ≡ [] }
    {
        SentTable {
            sent: IndexSet::with_hasher(alloc, random),
        }
    }

    /// Adds a statement of the replica, unless the table has it. The only error is allocation failure.
    pub(crate) fn insert(&mut self, replica: ReplicaId, statement: Bytes) -> Result<(), AllocError>
        ensures { OnOk result (Gains self.old replica (statement ∷ []) self.new) }
    {
        let sent = SentStatement { replica, statement };
        match self.sent.insert_full(sent) {
            Ok(_) => Ok(()),
            Err(_) => Err(AllocError),
        }
    }

    /// Whether the replica sent the statement with these bytes. The only error is allocation failure.
    pub(crate) fn has(&self, replica: ReplicaId, statement: &Bytes) -> Result<bool, AllocError>
        ensures { IfOk result (λ has. has ≡ has_sent self.now replica statement.now) }
    {
        let sent = SentStatement {
            replica,
            statement: statement.clone()?,
        };
        Ok(self.sent.contains(&sent))
    }
}
