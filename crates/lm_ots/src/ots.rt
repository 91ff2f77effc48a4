//! One leaf: its public value, its signature, and the public value that a signature leads to.
ghost use Rattle.std.specs.Prelude.{List, ℕ, ◌≡◌, ◌↔◌, ◌≤◌, ◌+◌, ◌++◌, ◌*◌, ◌-◌, IfOk, IfSome, IsSome, flat_map, length, take, vec_len, vec_capacity};
ghost use Rattle.std.specs.Int.{w32, from_be_bytes};
ghost use Rattle.ledger_model.specs.Signatures.{digit, leaf_key, leaf_signature, leaf_candidate, message_digest, ots_len, randomizer, sum_up};
ghost use Rattle.lm_ots.specs.Parameters.{numbers_of};

use crate::block::{SEED_STEP, step_message};
use crate::digits::Digits;
use crate::ends::{climbed_ends, key_ends, public_value, signed_ends};
use crate::hashing::{message_digest, read_u32};
use crate::{Identifier, Params, Seed};
use sha2::{Digest, Sha256};
use std::alloc::{AllocError, Global};

/// The chain number at which the randomizer of a leaf is derived.
const RANDOMIZER: u16 = 0xfffd;

/// The public value of a leaf (RFC 8554, section 4.3, with the secrets of Appendix A).
///
/// Allocates nothing.
pub fn public_hash(params: Params, identifier: &Identifier, leaf: u32, seed: &Seed) -> [u8; 32]
    ensures { result ≡ leaf_key (numbers_of params) identifier.now seed.now leaf }
{
    let ends = key_ends(params, identifier, leaf, seed);
    public_value(
        identifier,
        leaf,
        &ends[..usize::from(params.width.chains())],
    )
}

/// The signature of a message with a leaf (RFC 8554, section 4.5). Its randomizer is derived from the seed.
///
/// Allocates all memory before it hashes anything. A leaf must sign only one message.
pub fn sign(
    alloc: Global,
    params: Params,
    identifier: &Identifier,
    leaf: u32,
    seed: &Seed,
    message: &[u8],
) -> Result<Vec<u8>, AllocError>
    ensures { IfOk result (λ signature. signature.items
        ≡ leaf_signature (numbers_of params) identifier.now seed.now leaf message.now) }
{
    let mut signature = Vec::with_capacity(alloc, params.ots_len())?;
    append_signature(&mut signature, params, identifier, leaf, seed, message);
    Ok(signature)
}

/// Appends the signature of a message with a leaf, as [`sign`] makes it, to bytes that have room for it. Allocates nothing.
pub fn append_signature(
    signature: &mut Vec<u8>,
    params: Params,
    identifier: &Identifier,
    leaf: u32,
    seed: &Seed,
    message: &[u8],
)
    requires room { vec_len signature.old + ots_len (numbers_of params) ≤ vec_capacity signature.old }
    ensures items { signature.new.items ≡ signature.old.items
        ++ leaf_signature (numbers_of params) identifier.now seed.now leaf message.now }
    ensures capacity { vec_capacity signature.old ≤ vec_capacity signature.new }
{
    let randomizer = randomizer(identifier, leaf, seed);
    append(signature, &params.width.code().to_be_bytes());
    append(signature, &randomizer);
    let digest = message_digest(identifier, leaf, &randomizer, message);
    let ends = signed_ends(params, identifier, leaf, seed, &digest);
    append_each(signature, &ends[..usize::from(params.width.chains())]);
}

/// The randomizer of a leaf's signature, which is derived from the seed like the starts of the chains.
fn randomizer(identifier: &Identifier, leaf: u32, seed: &Seed) -> [u8; 32]
    ensures { result ≡ randomizer identifier.now seed.now leaf }
{
    Sha256::digest(&step_message(identifier, leaf, RANDOMIZER, SEED_STEP, seed.as_bytes()))
}

/// Appends strings of 32 bytes to bytes that have room for them.
fn append_each(bytes: &mut Vec<u8>, parts: &[[u8; 32]])
    requires room { vec_len bytes.old + 32 * length parts.now ≤ vec_capacity bytes.old }
    ensures items { bytes.new.items ≡ bytes.old.items
        ++ flat_map (λ (bytes : List ℕ). bytes) parts.now }
    ensures capacity { vec_capacity bytes.old ≤ vec_capacity bytes.new }
{
    for part in parts {
        append(bytes, part);
    }
}

/// Appends a part to bytes that have room for it.
fn append(bytes: &mut Vec<u8>, part: &[u8])
    requires room { vec_len bytes.old + length part.now ≤ vec_capacity bytes.old }
    ensures items { bytes.new.items ≡ bytes.old.items ++ part.now }
    ensures len { vec_len bytes.new ≡ vec_len bytes.old + length part.now }
    ensures capacity { vec_capacity bytes.old ≤ vec_capacity bytes.new }
{
    if bytes.extend_from_slice(part).is_err() {
        unreachable!()
    }
}

/// The public value that a signature of a message leads to (RFC 8554, section 4.6).
///
/// `None` if the signature's length or its type code is not the parameter set's. Allocates nothing.
pub fn candidate(
    params: Params,
    identifier: &Identifier,
    leaf: u32,
    message: &[u8],
    signature: &[u8],
) -> Option<[u8; 32]>
    ensures fits { IsSome result ↔ (length signature.now ≡ ots_len (numbers_of params))
        × (from_be_bytes w32 (take 4 signature.now) ≡ (numbers_of params).ots_code) }
    ensures value { IfSome result (λ key. key
        ≡ leaf_candidate (numbers_of params) identifier.now leaf message.now signature.now) }
{
    if signature.len() != params.ots_len() {
        return None;
    }
    if read_u32(signature) != params.width.code() {
        return None;
    }
    let digest = message_digest(identifier, leaf, &signature[4..36], message);
    let ends = climbed_ends(params, identifier, leaf, &digest, &signature[36..]);
    Some(public_value(
        identifier,
        leaf,
        &ends[..usize::from(params.width.chains())],
    ))
}

/// The number of steps that all chains together took to the values that a signature contains: the sum of the digits of
/// its message's digest and of the checksum (RFC 8554, section 4.5). A verification takes the remaining steps.
///
/// Allocates nothing.
pub fn signed_steps(
    params: Params,
    identifier: &Identifier,
    leaf: u32,
    randomizer: &[u8],
    message: &[u8],
) -> u32
    ensures { result ≡ sum_up (digit (numbers_of params)
        (message_digest identifier.now leaf randomizer.now message.now)) (numbers_of params).chains }
{
    let signed = message_digest(identifier, leaf, randomizer, message);
    let digits = Digits::of(params, &signed);
    let chains = params.width.chains();
    let mut steps = 0;
    for index in 0..chains {
        steps += u32::from(digits.at(index));
    }
    steps
}
