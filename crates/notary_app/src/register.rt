//! The state of the register: the digests in the order in which they came.
ghost use Rattle.std.specs.Prelude.{◌≡◌};
ghost use Rattle.notary_app.specs.Registers.{register_code, digest_number};

use app_states::{AppState, OwnApp};
use sha2::{Digest, Sha256};
use std::alloc::{AllocError, Global};
use std::marker::Model;

/// The number of bytes of a digest.
const DIGEST_LEN: usize = 32;

/// The first byte of the encoding that is hashed.
const REGISTER: u8 = 0x80;

/// The digests of documents, each once, in the order in which they came.
#[derive(Drop)]
pub struct Register {
    digests: Vec<[u8; DIGEST_LEN]>,
}

impl Model for Register {
    ghost use Rattle.std.specs.Prelude.{◌≡◌, ℕ, List, length};
    ghost use Rattle.std.specs.List.{AllByRecursion};

    ghost Value = { List (List ℕ) };

    ghost view = { λ r. r.digests.items };

    ghost invariant = { λ r. AllByRecursion (λ digest. length digest ≡ 32) r.digests.items };
}

/// The number of a digest among those that were registered.
fn number_of(digests: &[[u8; DIGEST_LEN]], digest: &[u8]) -> Option<usize>
    ensures { result ≡ digest_number digests.now digest.now }
{
    digests.iter().position(|d| d.as_slice() == digest)
}

/// The code of a transaction, after these digests were registered.
fn code_of(digests: &[[u8; DIGEST_LEN]], tx: &[u8]) -> u32
    ensures { result ≡ register_code digests.now tx.now }
{
    if tx.len() != DIGEST_LEN {
        return 1;
    }
    if number_of(digests, tx).is_some() {
        return 2;
    }
    0
}

impl AppState for Register {
    ghost use Rattle.notary_app.specs.Registers.{register, register_bytes};

    ghost meaning = { register };

    ghost state = { register_bytes };

    fn opening(alloc: Global) -> Self {
        Register {
            digests: Vec::new(alloc),
        }
    }

    fn copy(&self) -> Result<Self, AllocError> {
        Ok(Register {
            digests: self.digests.clone()?,
        })
    }

    fn deliver(&mut self, _alloc: Global, tx: &[u8]) -> Result<u32, AllocError> {
        let code = code_of(self.digests.as_slice(), tx);
        if code != 0 {
            return Ok(code);
        }
        let Ok(digest) = <[u8; DIGEST_LEN]>::try_from(tx) else {
            unreachable!()
        };
        self.digests.push(digest)?;
        Ok(0)
    }

    fn check(&self, tx: &[u8]) -> u32 {
        code_of(self.digests.as_slice(), tx)
    }

    fn held(&self, alloc: Global, key: &[u8]) -> Result<Option<Vec<u8>>, AllocError> {
        match number_of(self.digests.as_slice(), key) {
            Some(number) => {
                let bytes = (number as u64).to_be_bytes();
                Ok(Some(Vec::from_slice(alloc, &bytes[4..])?))
            }
            None => Ok(None),
        }
    }

    fn hash(&self) -> [u8; 32] {
        let mut hasher = Sha256::new();
        hasher.update([REGISTER]);
        hasher.update((self.digests.len() as u64).to_be_bytes());
        for digest in &self.digests {
            hasher.update(digest);
        }
        hasher.finalize()
    }
}

impl OwnApp for Register {
    ghost use Rattle.std.specs.Prelude.{codes};

    ghost program = { codes "notary" };

    ghost default_tx = { codes "the-digest-of-the-first-document" };

    fn program() -> &'static str {
        "notary"
    }

    /// The 32 bytes of this text, in the place of a digest.
    fn default_tx() -> &'static str {
        "the-digest-of-the-first-document"
    }
}
