//! A verifier answers from memory what it checked or took in before.

use super::vectors::{IDENTIFIER, MESSAGE, SEED};
use bytes::Bytes;
use key_ring::{KeyRing, Signer};
use ledger_model::ReplicaId;
use lm_ots::{Identifier, Params, Seed, TreeHeight, Width};
use lms_tree::PublicKey;
use std::alloc::Global;
use std::hash::RandomState;
use std::num::NonZeroUsize;
use std::random::RandomSource;
use std::test::Fail;
use verify_cache::Verifier;

fn signer_of(alloc: Global, width: Width) -> Option<Signer> {
    let params = Params {
        width,
        height: TreeHeight::H5,
    };
    Signer::new(alloc, params, Identifier::new(IDENTIFIER), Seed::new(SEED)).ok()
}

// A key that is no replica's signer here.
fn other_key(alloc: Global) -> Option<PublicKey> {
    Some(signer_of(alloc, Width::W8)?.public())
}

// A verifier under these keys of replicas 0 and 1.
fn verifier_under(alloc: Global, random: RandomState, keys: [PublicKey; 2]) -> Option<Verifier> {
    let ring = KeyRing::new(Vec::from_slice(alloc, &keys).ok()?);
    Verifier::new(alloc, ring, random).ok()
}

// A verifier that has the signer's key at replica 1, and another at replica 0.
fn verifier_of(alloc: Global, random: RandomState, signer: &Signer) -> Option<Verifier> {
    verifier_under(alloc, random, [other_key(alloc)?, signer.public()])
}

fn signature_of(alloc: Global, signer: &mut Signer) -> Option<Bytes> {
    Bytes::from_vec(signer.sign(alloc, MESSAGE).ok()?).ok()
}

// The verifier's answer, and how many checks it computed by then.
fn asks(verifier: &mut Verifier, signer: u8, message: &Bytes, signature: &Bytes) -> (bool, u64) {
    let answer = verifier.check(ReplicaId::new(signer), message, signature);
    (answer, verifier.computed())
}

// The same for replica 1's signature: three times under its own number, and then under another.
fn asks_again(verifier: &mut Verifier, message: &Bytes, signature: &Bytes) -> [(bool, u64); 4] {
    [
        asks(verifier, 1, message, signature),
        asks(verifier, 1, message, signature),
        asks(verifier, 1, message, signature),
        asks(verifier, 0, message, signature),
    ]
}

#[test]
fn a_check_is_computed_once(rt: HostRuntime) -> Result<(), Fail> {
    let mut signer = signer_of(rt.alloc(), Width::W4).expect(&rt, "a signer");
    let random = RandomState::new(&rt)?;
    let mut verifier = verifier_of(rt.alloc(), random, &signer).expect(&rt, "a verifier");
    let signature = signature_of(rt.alloc(), &mut signer).expect(&rt, "a signature");
    let answers = asks_again(&mut verifier, &Bytes::from_static(MESSAGE), &signature);
    assert_eq!(rt; answers, [(true, 1), (true, 1), (true, 1), (false, 2)]);
    Ok(())
}

// The same for a message of this number, with bytes that are no signature.
fn asks_of_garbage(alloc: Global, verifier: &mut Verifier, number: u16) -> Option<(bool, u64)> {
    let message = Bytes::copy_from_slice(alloc, &number.to_be_bytes()).ok()?;
    Some(asks(verifier, 0, &message, &Bytes::from_static(b"garbage")))
}

// The first of the 1,025 numbers at which the answers are wrong, if there is one.
fn first_wrong_number(alloc: Global, verifier: &mut Verifier) -> Option<u16> {
    for number in 0..1025u16 {
        if asks_of_garbage(alloc, verifier, number) != Some((false, u64::from(number) + 1)) {
            return Some(number);
        }
    }
    None
}

// The 1,025th answer takes the place of the first, which is computed again; the last is still known.
#[test]
fn a_verifier_knows_1024_answers(rt: HostRuntime) -> Result<(), Fail> {
    let signer = signer_of(rt.alloc(), Width::W4).expect(&rt, "a signer");
    let random = RandomState::new(&rt)?;
    let mut verifier = verifier_of(rt.alloc(), random, &signer).expect(&rt, "a verifier");
    assert_eq!(rt; first_wrong_number(rt.alloc(), &mut verifier), None);
    assert_eq!(rt;
        asks_of_garbage(rt.alloc(), &mut verifier, 0),
        Some((false, 1026))
    );
    assert_eq!(rt;
        asks_of_garbage(rt.alloc(), &mut verifier, 1024),
        Some((false, 1026))
    );
    Ok(())
}

// A verifier without keys that remembers two answers.
fn verifier_of_two(alloc: Global, random: RandomState) -> Option<Verifier> {
    let capacity = NonZeroUsize::new(2)?;
    Verifier::with_capacity(alloc, KeyRing::new(Vec::new(alloc)), random, capacity).ok()
}

// How many checks the verifier computed after each of these questions.
fn computed_after_each(
    alloc: Global,
    verifier: &mut Verifier,
    numbers: [u16; 6],
) -> Option<[u64; 6]> {
    let mut computed = [0; 6];
    for (place, number) in computed.iter_mut().zip(numbers) {
        *place = asks_of_garbage(alloc, verifier, number)?.1;
    }
    Some(computed)
}

// What was asked for again stays, and what was not asked for the longest goes, though it is not the oldest.
#[test]
fn the_least_recently_asked_answer_goes_first(rt: HostRuntime) -> Result<(), Fail> {
    let random = RandomState::new(&rt)?;
    let mut verifier = verifier_of_two(rt.alloc(), random).expect(&rt, "a verifier");
    let computed = computed_after_each(rt.alloc(), &mut verifier, [0, 1, 0, 2, 0, 1]);
    assert_eq!(rt; computed, Some([1, 2, 2, 3, 3, 4]));
    Ok(())
}

// Tells the verifier what replica 1's signature is worth under these keys, and then asks it.
fn asks_primed(
    verifier: &mut Verifier,
    ring: &KeyRing,
    message: &Bytes,
    signature: &Bytes,
) -> Option<(bool, u64)> {
    let signer = ReplicaId::new(1);
    let answer = ring.verifies(signer, message, signature);
    verifier.prime(ring, signer, message, signature, answer);
    Some(asks(verifier, 1, message, signature))
}

// The same for the signer's signature, where replica 1 has this key in those keys, and the signer's in the verifier's.
fn asks_primed_under<R: RandomSource>(
    rt: &R,
    alloc: Global,
    key: Option<PublicKey>,
) -> Option<(bool, u64)> {
    let mut signer = signer_of(alloc, Width::W4)?;
    let mut verifier = verifier_of(alloc, RandomState::new(rt).ok()?, &signer)?;
    let key = key.unwrap_or(signer.public());
    let ring = KeyRing::new(Vec::from_slice(alloc, &[key, key]).ok()?);
    let signature = signature_of(alloc, &mut signer)?;
    asks_primed(
        &mut verifier,
        &ring,
        &Bytes::from_static(MESSAGE),
        &signature,
    )
}

#[test]
fn a_primed_answer_is_not_computed(rt: HostRuntime) -> Result<(), Fail> {
    let answer = asks_primed_under(&rt, rt.alloc(), None);
    assert_eq!(rt; answer, Some((true, 0)));
    Ok(())
}

// The verifier leaves out an answer that was computed under a key that its ring doesn't have there.
#[test]
fn an_answer_under_another_key_is_left_out(rt: HostRuntime) -> Result<(), Fail> {
    let other = other_key(rt.alloc());
    assert_eq!(rt; other.is_some(), true);
    let answer = asks_primed_under(&rt, rt.alloc(), other);
    assert_eq!(rt; answer, Some((true, 1)));
    Ok(())
}
