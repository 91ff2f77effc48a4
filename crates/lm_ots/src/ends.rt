//! The ends of a leaf's chains: for its key, and for a signature that is made or checked.
ghost use Rattle.std.specs.Prelude.{◌≡◌, ◌*◌, ◌-◌, map, length, take};
ghost use Rattle.std.specs.List.{range_with_len};
ghost use Rattle.ledger_model.specs.Signatures.{chain, chain_start, digit, last_step, part, public_value};
ghost use Rattle.lm_ots.specs.Parameters.{numbers_of};

use crate::digits::Digits;
use crate::hashing::{D_PBLC, hasher_at};
use crate::leaf_chains::{CHAINS, Chains};
use crate::{Identifier, Params, Seed};
use sha2::Digest;

/// The ends of the chains of a leaf's key (RFC 8554, section 4.3).
pub(crate) fn key_ends(
    params: Params,
    identifier: &Identifier,
    leaf: u32,
    seed: &Seed,
) -> [[u8; 32]; CHAINS]
    ensures { take (numbers_of params).chains result
        ≡ map (λ i. chain identifier.now leaf i 0 (last_step (numbers_of params))
        (chain_start identifier.now seed.now leaf i)) (range_with_len 0 (numbers_of params).chains) }
{
    let last_step = params.width.last_step();
    let mut chains = Chains::new(identifier, leaf);
    for index in 0..params.width.chains() {
        chains.begin(index, seed, last_step);
    }
    chains.ends()
}

/// The values of the chains that the signature of a digest contains (RFC 8554, section 4.5).
pub(crate) fn signed_ends(
    params: Params,
    identifier: &Identifier,
    leaf: u32,
    seed: &Seed,
    digest: &[u8; 32],
) -> [[u8; 32]; CHAINS]
    ensures { take (numbers_of params).chains result
        ≡ map (λ i. chain identifier.now leaf i 0 (digit (numbers_of params) digest.now i)
        (chain_start identifier.now seed.now leaf i)) (range_with_len 0 (numbers_of params).chains) }
{
    let digits = Digits::of(params, digest);
    let mut chains = Chains::new(identifier, leaf);
    for index in 0..params.width.chains() {
        chains.begin(index, seed, digits.at(index));
    }
    chains.ends()
}

/// The ends of the chains that the values of a signature lead to, each from its digit on (RFC 8554, section 4.6).
pub(crate) fn climbed_ends(
    params: Params,
    identifier: &Identifier,
    leaf: u32,
    digest: &[u8; 32],
    values: &[u8],
) -> [[u8; 32]; CHAINS]
    requires { length values.now ≡ 32 * (numbers_of params).chains }
    ensures { take (numbers_of params).chains result
        ≡ map (λ i. chain identifier.now leaf i (digit (numbers_of params) digest.now i)
        (last_step (numbers_of params) - digit (numbers_of params) digest.now i)
        (part values.now 0 i)) (range_with_len 0 (numbers_of params).chains) }
{
    let last_step = params.width.last_step();
    let digits = Digits::of(params, digest);
    let mut chains = Chains::new(identifier, leaf);
    for index in 0..params.width.chains() {
        let start = 32 * usize::from(index);
        chains.resume(
            index,
            digits.at(index),
            last_step,
            &values[start..start + 32],
        );
    }
    chains.ends()
}

/// The public value of a leaf with these ends (RFC 8554, section 4.3).
pub(crate) fn public_value(identifier: &Identifier, leaf: u32, ends: &[[u8; 32]]) -> [u8; 32]
    ensures { result ≡ public_value identifier.now leaf ends.now }
{
    let mut hasher = hasher_at(identifier, leaf, D_PBLC);
    for end in ends {
        hasher.update(end);
    }
    hasher.finalize()
}
