//! A public key: its scheme, the identifier of its pair, and the root of its tree.
use lm_ots::{Identifier, Params, read_u32};
use std::marker::Model;
use thiserror::Error;

/// The public key of a tree: its two type codes, its identifier and its root, 56 bytes (RFC 8554, section 5.3).
///
/// Its type codes are always those of one of the four parameter sets.
#[derive(Clone, Copy, Debug, PartialEq, Eq)]
pub struct PublicKey {
    bytes: [u8; 56],
}

/// Why bytes are no public key.
#[derive(Clone, Copy, Debug, PartialEq, Eq, Error)]
pub enum KeyFault {
    /// The number of bytes is not 56.
    #[error("a public key has 56 bytes")]
    Length,
    /// The type codes of LMS and LM-OTS belong to none of the four parameter sets.
    #[error("the type codes are of no known parameter set")]
    Scheme,
}

impl Model for PublicKey {
    ghost use Rattle.std.specs.Prelude.{ℕ, List, IsSome};
    ghost use Rattle.lms_tree.specs.Keys.{scheme_of};

    ghost Value = { List ℕ };

    ghost view = { λ k. k.bytes };

    ghost invariant = { λ k. IsSome (scheme_of k.bytes) };

    ghost inverse = { λ bytes. record { bytes = bytes } };
}

impl PublicKey {
    ghost use Rattle.std.specs.Prelude.{◌≡◌, ◌≢◌, ◌↔◌, ◌++◌, IfOk, IsErrOf, Some, None, length, take, drop};
    ghost use Rattle.std.specs.Int.{w32, to_be_bytes};
    ghost use Rattle.lm_ots.specs.Parameters.{numbers_of};
    ghost use Rattle.lms_tree.specs.Keys.{scheme_of};

    /// The length of a public key in bytes.
    pub const LEN: usize = 56;

    /// The public key with these bytes.
    ///
    /// `Length` comes if there are not 56. Otherwise `Scheme` comes if the type codes belong to none of the four parameter sets.
    pub fn from_bytes(bytes: &[u8]) -> Result<Self, KeyFault>
        ensures ok { IfOk result (λ key. key ≡ bytes.now) }
        ensures length { IsErrOf result KeyFault.Length ↔ (length bytes.now ≢ 56) }
        ensures scheme { IsErrOf result KeyFault.Scheme ↔ (length bytes.now ≡ 56)
            × (scheme_of bytes.now ≡ None) }
    {
        if bytes.len() != Self::LEN {
            return Err(KeyFault::Length);
        }
        if Params::from_codes(read_u32(bytes), read_u32(&bytes[4..])).is_none() {
            return Err(KeyFault::Scheme);
        }
        let mut copied = [0; Self::LEN];
        copied.copy_from_slice(bytes);
        Ok(PublicKey { bytes: copied })
    }

    /// The public key of a tree with this root.
    pub(crate) fn new(params: Params, identifier: &Identifier, root: &[u8; 32]) -> Self
        ensures { result ≡ to_be_bytes w32 (numbers_of params).lms_code
            ++ to_be_bytes w32 (numbers_of params).ots_code ++ identifier.now ++ root.now }
    {
        let mut bytes = [0; Self::LEN];
        bytes[..4].copy_from_slice(&params.height.code().to_be_bytes());
        bytes[4..8].copy_from_slice(&params.width.code().to_be_bytes());
        bytes[8..24].copy_from_slice(identifier.as_bytes());
        bytes[24..].copy_from_slice(root);
        PublicKey { bytes }
    }

    /// Its 56 bytes.
    pub fn as_bytes(&self) -> &[u8; 56]
        ensures bytes { result.now ≡ self.now }
        ensures whole { length self.now ≡ 56 }
    {
        &self.bytes
    }

    /// Its parameter set.
    pub fn params(&self) -> Params
        ensures { scheme_of self.now ≡ Some (numbers_of result) }
    {
        match Params::from_codes(read_u32(&self.bytes), read_u32(&self.bytes[4..])) {
            Some(params) => params,
            None => unreachable!(),
        }
    }

    /// The identifier of its tree.
    pub fn identifier(&self) -> Identifier
        ensures { result ≡ take 16 (drop 8 self.now) }
    {
        let mut bytes = [0; 16];
        bytes.copy_from_slice(&self.bytes[8..24]);
        Identifier::new(bytes)
    }
}
