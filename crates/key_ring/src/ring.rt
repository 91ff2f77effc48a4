//! The public keys of the replicas, by number.
use ledger_model::ReplicaId;
use lms_tree::{PublicKey, verify};
use std::alloc::AllocError;
use std::marker::Model;

/// The public keys of a cluster's replicas, by number.
#[derive(Drop)]
pub struct KeyRing {
    keys: Vec<PublicKey>,
}

impl Model for KeyRing {
    ghost use Rattle.ledger_model.specs.Rules.{Ring};

    ghost Value = { Ring };

    ghost view = { λ r. r.keys.items };
}

impl PartialEq for KeyRing {
    ghost use Rattle.std.specs.Prelude.{nat_eq};
    ghost use Rattle.std.specs.Cmp.Lexicographic.{pointwise};
    ghost use Rattle.std.proofs.Common.{rules};
    ghost use Rattle.std.specs.Cmp.Rules.{comparing};

    ghost eq = { pointwise (pointwise nat_eq) };

    ghost laws = { Prim.search (comparing, rules) };

    fn eq(&self, other: &KeyRing) -> bool {
        self.keys == other.keys
    }
}

impl KeyRing {
    ghost use Rattle.std.specs.Prelude.{◌≡◌, IfOk, slice_get};
    ghost use Rattle.std.specs.Option.{option_copied};
    ghost use Rattle.ledger_model.specs.Rules.{is_signed_by};

    /// The ring of these keys, from replica 0 on.
    pub fn new(keys: Vec<PublicKey>) -> Self
        ensures { result ≡ keys.items }
    {
        KeyRing { keys }
    }

    /// The key of a replica, if it has one.
    pub fn key(&self, replica: ReplicaId) -> Option<&PublicKey>
        ensures { option_copied result ≡ slice_get self.now replica }
    {
        self.keys.get(usize::from(replica.number()))
    }

    /// Whether the signature is valid for the message under the signer's key (RFC 8554, section 5.4.2); false if the
    /// ring has no key with that number. Allocates nothing.
    pub fn verifies(&self, signer: ReplicaId, message: &[u8], signature: &[u8]) -> bool
        ensures { result ≡ is_signed_by (slice_get self.now signer) message.now signature.now }
    {
        match self.key(signer) {
            Some(key) => verify(key, message, signature),
            None => false,
        }
    }

    /// A copy of the ring. The only error is allocation failure.
    pub fn copy(&self) -> Result<Self, AllocError>
        ensures { IfOk result (λ ring. ring ≡ self.now) }
    {
        Ok(KeyRing {
            keys: self.keys.clone()?,
        })
    }
}
