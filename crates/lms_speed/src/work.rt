//! The operations that are measured.
use crate::request::Operation;
use crate::timing::Work;
use crate::wrong::REFUSED;
use lm_ots::{Identifier, Params, Seed};
use lms_tree::{Tree, verify};
use sha2::{Digest, Sha256};
use std::alloc::{AllocError, Global};
use std::io;

/// The message that is signed.
pub const MESSAGE: [u8; 64] = *b"sixty-four bytes, a message that each leaf of a tree signs once.";

/// The identifier of the keys that are measured.
pub const IDENTIFIER: [u8; 16] = [5; 16];

/// The seed of the first key that is measured.
const SEED: [u8; 32] = [7; 32];

/// The number of digests of one block that are made between two readings of the clock.
const DIGESTS: u64 = 1000;

/// The length in bytes of a message of many blocks.
pub const LONG_MESSAGE: usize = 65536;

/// The key pair of a seed.
fn tree_of(alloc: Global, params: Params, seed: [u8; 32]) -> Result<Tree, AllocError> {
    Tree::build(alloc, params, Identifier::new(IDENTIFIER), Seed::new(seed))
}

/// The signatures of the message by the first 32 leaves of a tree.
fn signatures_of(alloc: Global, tree: &Tree) -> Result<Vec<Vec<u8>>, AllocError> {
    let mut signatures = Vec::new(alloc);
    for leaf in 0..32 {
        signatures.push(tree.sign(alloc, leaf, &MESSAGE)?)?;
    }
    Ok(signatures)
}

/// A key pair of a parameter set, with the signatures of the message by its first 32 leaves, and one of its operations.
#[derive(Drop)]
pub struct Keys {
    alloc: Global,
    pub params: Params,
    tree: Tree,
    pub signatures: Vec<Vec<u8>>,
    /// The seed of the next key generation.
    next_seed: [u8; 32],
    /// The leaf that signs next.
    next_leaf: u32,
    /// What is measured.
    pub operation: Operation,
}

impl Keys {
    /// The key pair that is measured.
    pub fn new(alloc: Global, params: Params, operation: Operation) -> Result<Keys, AllocError> {
        let tree = tree_of(alloc, params, SEED)?;
        let signatures = signatures_of(alloc, &tree)?;
        Ok(Keys {
            alloc,
            params,
            tree,
            signatures,
            next_seed: SEED,
            next_leaf: 0,
            operation,
        })
    }

    /// Generates a key pair, whose seed comes from the root of the previous one.
    fn generate(&mut self) -> io::Result<u64> {
        let tree = tree_of(self.alloc, self.params, self.next_seed)?;
        self.next_seed
            .copy_from_slice(&tree.public().as_bytes()[24..]);
        Ok(1)
    }

    /// Signs with the leaves in turn.
    fn sign(&mut self) -> io::Result<u64> {
        let leaf = self.next_leaf % self.tree.leaves();
        self.next_leaf = leaf + 1;
        let signature = self.tree.sign(self.alloc, leaf, &MESSAGE)?;
        if signature.is_empty() {
            return Err(io::Error::other(REFUSED));
        }
        Ok(1)
    }

    /// Verifies each signature.
    fn verify(&self) -> io::Result<u64> {
        let key = self.tree.public();
        for signature in &self.signatures {
            if !verify(&key, &MESSAGE, signature) {
                return Err(io::Error::other(REFUSED));
            }
        }
        Ok(self.signatures.len() as u64)
    }
}

impl Work for Keys {
    fn repeat(&mut self) -> io::Result<u64> {
        match self.operation {
            Operation::KeyGeneration => self.generate(),
            Operation::Signature => self.sign(),
            Operation::Verification => self.verify(),
        }
    }
}

/// Digests of 55 bytes, which are one padded block of SHA-256. Each hashes the previous digest.
#[derive(Drop)]
pub struct OneBlockDigests {
    pub block: [u8; 55],
}

impl Work for OneBlockDigests {
    fn repeat(&mut self) -> io::Result<u64> {
        for _ in 0..DIGESTS {
            let digest = Sha256::digest(&self.block);
            self.block[23..].copy_from_slice(&digest);
        }
        Ok(DIGESTS)
    }
}

/// Digests of a long message. Each has the previous digest at its front.
#[derive(Drop)]
pub struct LongDigests {
    pub message: Vec<u8>,
    pub digest: [u8; 32],
}

impl Work for LongDigests {
    fn repeat(&mut self) -> io::Result<u64> {
        let mut hasher = Sha256::new();
        hasher.update(&self.digest);
        hasher.update(self.message.as_slice());
        self.digest = hasher.finalize();
        Ok(1)
    }
}
