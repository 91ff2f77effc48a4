//! A tree over all leaves of a key pair, with the hash of each node.
use crate::PublicKey;
use crate::nodes::{node_hash, put_leaves, sibling};
use lm_ots::{Identifier, Params, Seed, append_signature, public_hashes};
use std::alloc::{AllocError, Global};
use std::marker::Model;

/// The number of leaves that are hashed in parallel.
const ROW: u32 = 8;

/// A tree over the one-time keys of a seed. The hash of each node is computed once (RFC 8554, section 5.3).
///
/// A tree contains the secret seed, so it can't be copied or printed.
pub struct Tree {
    params: Params,
    identifier: Identifier,
    seed: Seed,
    nodes: Vec<[u8; 32]>,
}

// An own `Drop` keeps proofs short: an owner drops it by one call. See docs/WORKING.md.
impl Drop for Tree {
    fn drop(self) {
        let Tree {
            params: _params,
            identifier: _identifier,
            seed: _seed,
            nodes: _nodes,
        } = self;
    }
}

impl Model for Tree {
    ghost use Rattle.std.specs.Prelude.{◌≡◌, length};
    ghost use Rattle.lm_ots.specs.Parameters.{numbers_of};
    ghost use Rattle.lms_tree.specs.Trees.{Secret, KeepsNodes};

    ghost Value = { Secret };

    ghost view = { λ t. record { params = t.params; identifier = t.identifier; seed = t.seed } };

    ghost invariant = { λ t. (length t.identifier ≡ 16)
        × KeepsNodes (numbers_of t.params) t.identifier t.seed 1 t.nodes.items };
}

impl Tree {
    ghost use Rattle.std.specs.Prelude.{◌≡◌, ◌+◌, ◌^◌, ◌<◌, ◌≤◌, ◌++◌, true, length, IfOk};
    ghost use Rattle.ledger_model.specs.Limits.{max_signature_len};
    ghost use Rattle.ledger_model.specs.Signatures.{public_key, path, signature_of, verifies};
    ghost use Rattle.lm_ots.specs.Parameters.{numbers_of};

    /// The tree of a seed under an identifier. Use a seed and an identifier for one parameter set only, because the
    /// chains of both widths start at the same secrets. The only error is allocation failure.
    pub fn build(
        alloc: Global,
        params: Params,
        identifier: Identifier,
        seed: Seed,
    ) -> Result<Self, AllocError>
        ensures { IfOk result (λ tree.
            tree ≡ record { params = params; identifier = identifier; seed = seed }) }
    {
        let leaves = params.leaves();
        let mut nodes = vec![in alloc; [0u8; 32]; 2 * leaves as usize]?;
        for row in 0..leaves / ROW {
            let keys = public_hashes(params, &identifier, ROW * row, &seed);
            put_leaves(&mut nodes, &identifier, leaves + ROW * row, &keys);
        }
        for number in (1..leaves).rev() {
            let left = 2 * number as usize;
            nodes[number as usize] = node_hash(&identifier, number, &nodes[left], &nodes[left + 1]);
        }
        Ok(Tree {
            params,
            identifier,
            seed,
            nodes,
        })
    }

    /// Its parameter set.
    pub fn params(&self) -> Params
        ensures { result ≡ self.now.params }
    {
        self.params
    }

    /// The number of its leaves, each of which signs one message.
    pub fn leaves(&self) -> u32
        ensures { result ≡ 2 ^ (numbers_of self.now.params).height }
    {
        self.params.leaves()
    }

    /// The public key under which its signatures verify.
    pub fn public(&self) -> PublicKey
        ensures { result
            ≡ public_key (numbers_of self.now.params) self.now.identifier self.now.seed }
    {
        PublicKey::new(self.params, &self.identifier, &self.nodes[1])
    }

    /// The hashes of the siblings along the path from a leaf up to the root, 32 bytes each (RFC 8554, section 5.4).
    pub fn path(&self, alloc: Global, leaf: u32) -> Result<Vec<u8>, AllocError>
        requires { leaf < 2 ^ (numbers_of self.now.params).height }
        ensures { IfOk result (λ p. p.items
            ≡ path (numbers_of self.now.params) self.now.identifier self.now.seed
            (numbers_of self.now.params).height 0
            (2 ^ (numbers_of self.now.params).height + leaf)) }
    {
        let mut path = Vec::with_capacity(alloc, 32 * usize::from(self.params.height.levels()))?;
        self.append_path(&mut path, leaf)?;
        Ok(path)
    }

    /// Appends the path of a leaf to bytes. If memory runs out, part of the path may have been appended.
    fn append_path(&self, bytes: &mut Vec<u8>, leaf: u32) -> Result<(), AllocError>
        requires { leaf < 2 ^ (numbers_of self.now.params).height }
        ensures { IfOk result (λ _. bytes.new.items ≡ bytes.old.items
            ++ path (numbers_of self.now.params) self.now.identifier self.now.seed
            (numbers_of self.now.params).height 0
            (2 ^ (numbers_of self.now.params).height + leaf)) }
    {
        let levels = self.params.height.levels();
        let mut number = self.params.leaves() + leaf;
        for _ in 0..levels {
            bytes.extend_from_slice(&self.nodes[sibling(number) as usize])?;
            number /= 2;
        }
        Ok(())
    }

    /// The signature of a message with a leaf (RFC 8554, section 5.4).
    ///
    /// Allocates all memory before it hashes anything. A leaf must sign only one message.
    pub fn sign(&self, alloc: Global, leaf: u32, message: &[u8]) -> Result<Vec<u8>, AllocError>
        requires { leaf < 2 ^ (numbers_of self.now.params).height }
        ensures signature { IfOk result (λ signature. signature.items
            ≡ signature_of (numbers_of self.now.params) self.now.identifier self.now.seed leaf
            message.now) }
        ensures verifies { IfOk result (λ signature.
            verifies (public_key (numbers_of self.now.params) self.now.identifier self.now.seed)
            message.now signature.items ≡ true) }
        ensures short { IfOk result (λ signature. length signature.items ≤ max_signature_len) }
    {
        let mut signature = Vec::with_capacity(alloc, self.params.signature_len())?;
        signature.extend_from_slice(&leaf.to_be_bytes())?;
        append_signature(
            &mut signature,
            self.params,
            &self.identifier,
            leaf,
            &self.seed,
            message,
        );
        signature.extend_from_slice(&self.params.height.code().to_be_bytes())?;
        self.append_path(&mut signature, leaf)?;
        Ok(signature)
    }
}
