//! A byte string as a table stores it.
use bytes::Bytes;
use std::hash::{Hash, Hasher};
use std::marker::Model;

/// A byte string whose hash takes eight bytes at a time; that of `Bytes` takes one byte at a time. Contracts see the bytes.
#[derive(Drop)]
pub(crate) struct StoredString {
    pub(crate) bytes: Bytes,
}

impl Model for StoredString {
    ghost use Rattle.std.specs.Prelude.{ℕ, List};

    ghost Value = { List ℕ };

    ghost view = { λ s. s.bytes };
}

impl PartialEq for StoredString {
    ghost use Rattle.std.specs.Cmp.{partial_equiv_from_equiv};
    ghost use Rattle.std.specs.Cmp.Lexicographic.{nat_list_eq_equiv};
    ghost use Rattle.ledger_model.specs.Values.{same_bytes};

    ghost eq = { same_bytes };

    ghost laws = { partial_equiv_from_equiv nat_list_eq_equiv };

    fn eq(&self, other: &Self) -> bool {
        self.bytes == other.bytes
    }
}

impl Eq for StoredString {
    ghost use Rattle.std.specs.Cmp.Lexicographic.{nat_list_eq_equiv};

    ghost laws = { nat_list_eq_equiv };
}

impl Hash for StoredString {
    ghost use Rattle.std.specs.Prelude.{◌∷◌, []};
    ghost use Rattle.std.proofs.Common.{rules};
    ghost use Rattle.std.specs.Cmp.Rules.{hashing};

    ghost hash_input = { λ s. s ∷ [] };

    ghost respects_eq = { Prim.search (hashing, rules) };

    fn hash<H: Hasher>(&self, state: &mut H) {
        state.write(self.bytes.as_slice());
    }
}
