//! A signer: a tree of one-time keys, of which it uses each leaf at most once.
use crate::SignFault;
use lm_ots::{Identifier, Params, Seed};
use lms_tree::{PublicKey, Tree};
use std::alloc::{AllocError, Global};
use std::marker::Model;

/// A key pair, and the number of its leaves that are used.
///
/// Its leaves sign in order, each at most once. A signer contains the secret seed, so it can't be copied or printed.
#[derive(Drop)]
pub struct Signer {
    tree: Tree,
    used: u32,
}

impl Model for Signer {
    ghost use Rattle.std.specs.Prelude.{◌≤◌};
    ghost use Rattle.key_ring.specs.Signers.{SignerView, leaves_of};

    ghost Value = { SignerView };

    ghost view = { λ s. record { secret = s.tree; used = s.used } };

    ghost invariant = { λ s. s.used ≤ leaves_of s.tree };
}

impl Signer {
    ghost use Rattle.std.specs.Prelude.{◌≡◌, ◌+◌, ◌≤◌, true, length, IfOk};
    ghost use Rattle.ledger_model.specs.Limits.{max_signature_len};
    ghost use Rattle.ledger_model.specs.Signatures.{verifies};
    ghost use Rattle.key_ring.specs.Signers.{leaves_of, public_key_of, SignsAs};

    /// The key pair of a seed under an identifier, with no leaf used. Its tree is computed here, once.
    ///
    /// Make only one signer ever from a seed and an identifier, with one parameter set: a second one would sign with
    /// the same leaves again, and the chains of both widths start at the same secrets.
    pub fn new(
        alloc: Global,
        params: Params,
        identifier: Identifier,
        seed: Seed,
    ) -> Result<Self, AllocError>
        ensures { IfOk result (λ signer. signer ≡ record {
          secret = record { params = params; identifier = identifier; seed = seed };
          used = 0;
        }) }
    {
        let tree = Tree::build(alloc, params, identifier, seed)?;
        Ok(Signer { tree, used: 0 })
    }

    /// The signature of a message with the next leaf (RFC 8554, section 5.4).
    ///
    /// `Exhausted` comes exactly if no leaf is left, and changes nothing. After `NoMemory` the leaf is used up, as
    /// after a signature: the signer counts it as used before it allocates memory.
    pub fn sign(&mut self, alloc: Global, message: &[u8]) -> Result<Vec<u8>, SignFault>
        // Which leaf signed, which leaves are used afterwards, and when each fault comes.
        ensures signs { SignsAs (λ signature. signature.items) self.old message.now result self.new }
        ensures verifies { IfOk result (λ signature.
            verifies (public_key_of self.old.secret) message.now signature.items ≡ true) }
        ensures short { IfOk result (λ signature. length signature.items ≤ max_signature_len) }
    {
        let leaf = self.used;
        if leaf >= self.tree.leaves() {
            return Err(SignFault::Exhausted);
        }
        self.used += 1;
        match self.tree.sign(alloc, leaf, message) {
            Ok(signature) => Ok(signature),
            Err(AllocError) => Err(SignFault::NoMemory),
        }
    }

    /// The number of messages that it can still sign.
    pub fn leaves_left(&self) -> u32
        ensures { self.now.used + result ≡ leaves_of self.now.secret }
    {
        self.tree.leaves() - self.used
    }

    /// The public key under which its signatures verify.
    pub fn public(&self) -> PublicKey
        ensures { result ≡ public_key_of self.now.secret }
    {
        self.tree.public()
    }
}
