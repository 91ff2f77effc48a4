//! The verifier: the ring, and the answers of its last checks.
ghost use Rattle.std.specs.Prelude.{◌≡◌, false, true, None, is_some, slice_get, map, IfOk, IfSome, OnOk, OnErr};
ghost use Rattle.std.specs.Map.{lookup};
ghost use Rattle.std.specs.NonZero.{non_zero_usize_get};
ghost use Rattle.lru.specs.LruCache.{promoted};
ghost use Rattle.ledger_model.specs.Rules.{is_signed_by};
ghost use Rattle.verify_cache.specs.Checks.{is_part_signed};
ghost use Rattle.verify_cache.specs.Same.{same, signed_of};
ghost use Rattle.verify_cache.specs.Verifiers.{new_verifier, max_known, answer_by, answer_in, is_known, one_more, added};
ghost use Rattle.verify_cache.specs.Verifiers.{check_of, has_same_key, Primes, PrimesAll, Recalls, Learns};

use crate::SignedMessage;
use bytes::Bytes;
use key_ring::KeyRing;
use ledger_model::ReplicaId;
use lru::LruCache;
use signed_frames::SignedPart;
use std::alloc::{AllocError, Global};
use std::hash::RandomState;
use std::marker::Model;
use std::num::NonZeroUsize;

/// A verifier of signatures under the keys of one ring, which remembers the answers of its last checks.
pub struct Verifier {
    ring: KeyRing,
    /// The answers, the most recently asked first.
    known: LruCache<SignedMessage, bool, RandomState>,
    /// How many checks hashed.
    computed: u64,
}

// An own `Drop` keeps proofs short: an owner drops it by one call. See docs/WORKING.md.
impl Drop for Verifier {
    fn drop(self) {
        let Verifier {
            ring: _ring,
            known: _known,
            computed: _computed,
        } = self;
    }
}

impl Model for Verifier {
    ghost use Rattle.std.specs.Prelude.{◌<◌, ◌≤◌, length};
    ghost use Rattle.verify_cache.specs.Verifiers.{VerifierView, AreAnswers};

    ghost Value = { VerifierView };

    ghost view = { λ v. record { ring = v.ring; capacity = v.known.cap; known = v.known.entries; computed = v.computed } };

    ghost invariant = { λ v. (0 < v.known.cap) × (length v.known.entries ≤ v.known.cap) × AreAnswers v.ring v.known.entries };
}

impl Verifier {
    /// The most answers that the verifier of a replica remembers.
    pub const MAX_KNOWN: usize = 1024;

    /// A verifier under the ring's keys, which knows nothing yet, and remembers up to [`Verifier::MAX_KNOWN`] answers. It
    /// hashes what it knows with these random keys. The only error is allocation failure.
    pub fn new(alloc: Global, ring: KeyRing, random: RandomState) -> Result<Self, AllocError>
        ensures { IfOk result (λ v. v ≡ new_verifier ring max_known) }
    {
        let Some(capacity) = NonZeroUsize::new(Verifier::MAX_KNOWN) else {
            unreachable!()
        };
        Verifier::with_capacity(alloc, ring, random, capacity)
    }

    /// The same, but the verifier remembers up to `capacity` answers. Reserves memory for all of them.
    pub fn with_capacity(
        alloc: Global,
        ring: KeyRing,
        random: RandomState,
        capacity: NonZeroUsize,
    ) -> Result<Self, AllocError>
        ensures { IfOk result (λ v. v ≡ new_verifier ring (non_zero_usize_get capacity)) }
    {
        Ok(Verifier {
            ring,
            known: LruCache::with_hasher(alloc, capacity, random)?,
            computed: 0,
        })
    }

    /// Whether the signature is valid for the message under the signer's key, as `KeyRing::verifies` answers.
    ///
    /// The verifier answers from memory what it knows, and hashes otherwise. Where memory for the answer is refused,
    /// what it knows stays as it is.
    pub fn check(&mut self, signer: ReplicaId, message: &Bytes, signature: &Bytes) -> bool
        ensures answer { result ≡ is_signed_by (slice_get self.old.ring signer) message.now signature.now }
        ensures ring { self.new.ring ≡ self.old.ring }
        ensures known { Recalls (signed_of signer message.now signature.now) self.old self.new }
        ensures fresh { Learns (signed_of signer message.now signature.now) self.old self.new }
    {
        let Ok(signed) = SignedMessage::sharing(signer, message, signature) else {
            return self.check_apart(signer, message, signature);
        };
        if let Some(answer) = self.recall(&signed) {
            return answer;
        }
        let answer = self.ring.verifies(signer, message, signature);
        self.computed = self.computed.saturating_add(1);
        let _ = self.keep(signed, answer);
        answer
    }

    /// The same if memory for the key is refused: the verifier compares one known check after the other, and what it
    /// knows stays as it is.
    fn check_apart(&mut self, signer: ReplicaId, message: &[u8], signature: &[u8]) -> bool
        ensures answer { result ≡ is_signed_by (slice_get self.old.ring signer) message.now signature.now }
        ensures ring { self.new.ring ≡ self.old.ring }
        ensures kept { self.new.known ≡ self.old.known }
        ensures known { is_known self.old (signed_of signer message.now signature.now) ≡ true
            → self.new.computed ≡ self.old.computed }
        ensures fresh { is_known self.old (signed_of signer message.now signature.now) ≡ false
            → self.new.computed ≡ one_more self.old.computed }
    {
        if let Some(answer) = find(&self.known, signer, message, signature) {
            return answer;
        }
        self.computed = self.computed.saturating_add(1);
        self.ring.verifies(signer, message, signature)
    }

    /// The same for a part of a frame: what is kept of it shares the frame's bytes.
    pub(crate) fn check_part(&mut self, part: &SignedPart<'_>) -> bool
        ensures answer { result ≡ is_part_signed self.old.ring part.now }
        ensures ring { self.new.ring ≡ self.old.ring }
        ensures known { Recalls (check_of part.now) self.old self.new }
        ensures fresh { Learns (check_of part.now) self.old self.new }
    {
        let (Ok(message), Ok(signature)) = (part.share_message(), part.share_signature()) else {
            return self.check_apart(part.signer(), part.message(), part.signature());
        };
        self.check(part.signer(), &message, &signature)
    }

    /// Takes in what was computed elsewhere: whether the signature is valid under this ring's keys, as `KeyRing::verifies`
    /// answers. The verifier leaves the answer out if this ring has another key of the signer than its own ring, and if
    /// memory for it is refused. Then nothing changes.
    pub fn prime(
        &mut self,
        ring: &KeyRing,
        signer: ReplicaId,
        message: &Bytes,
        signature: &Bytes,
        answer: bool,
    )
        requires { answer ≡ is_signed_by (slice_get ring.now signer) message.now signature.now }
        ensures { Primes ring.now (signed_of signer message.now signature.now) self.old self.new }
    {
        if !have_same_key(ring, &self.ring, signer) {
            return;
        }
        if let Ok(signed) = SignedMessage::sharing(signer, message, signature) {
            if self.recall(&signed).is_none() {
                let _ = self.keep(signed, answer);
            }
        }
    }

    /// Does what [`Verifier::prime`] does, for a part of a frame: what is kept of it shares the frame's bytes.
    pub fn prime_part(&mut self, ring: &KeyRing, part: &SignedPart<'_>, answer: bool)
        requires { answer ≡ is_part_signed ring.now part.now }
        ensures { Primes ring.now (check_of part.now) self.old self.new }
    {
        let (Ok(message), Ok(signature)) = (part.share_message(), part.share_signature()) else {
            return;
        };
        self.prime(ring, part.signer(), &message, &signature, answer);
    }

    /// Does what [`Verifier::prime`] does, for each of these parts of frames, in order.
    pub fn prime_all(&mut self, ring: &KeyRing, parts: &[SignedPart<'_>], answers: &[bool])
        requires { answers.now ≡ map (is_part_signed ring.now) parts.now }
        ensures primed { PrimesAll ring.now parts.now self.old self.new }
        // The keys are the same.
        ensures ring { self.new.ring ≡ self.old.ring }
    {
        for (part, answer) in parts.iter().zip(answers) {
            self.prime_part(ring, part, *answer);
        }
    }

    /// The answer, if it is known. It becomes the most recent.
    fn recall(&mut self, signed: &SignedMessage) -> Option<bool>
        ensures known { is_some result ≡ is_known self.old signed.now }
        ensures answer { IfSome result (λ answer. answer ≡ answer_by self.old.ring signed.now) }
        ensures first { self.new ≡ record self.old { known = promoted (same signed.now) self.old.known } }
        ensures kept { result ≡ None → self.new ≡ self.old }
    {
        self.known.get(signed).copied()
    }

    /// Adds a new answer as the most recent. The only error is allocation failure. It changes nothing.
    fn keep(&mut self, signed: SignedMessage, answer: bool) -> Result<(), AllocError>
        requires fresh { is_known self.old signed ≡ false }
        requires right { answer ≡ answer_by self.old.ring signed }
        ensures added { OnOk result (self.new ≡ record self.old { known = added self.old.capacity signed answer self.old.known }) }
        ensures err { OnErr result (self.new ≡ self.old) }
    {
        self.known.put(signed, answer)?;
        Ok(())
    }

    /// Whether the part is signed, if the verifier knows it. The order of its answers stays as it is.
    pub fn answer(&self, part: &SignedPart<'_>) -> Option<bool>
        ensures { result ≡ answer_in self.now (check_of part.now) }
    {
        match SignedMessage::of_part(part) {
            Ok(signed) => self.known.peek(&signed).copied(),
            Err(_) => find(&self.known, part.signer(), part.message(), part.signature()),
        }
    }

    /// Whether it knows the answer for the part, so that a check of the part doesn't hash.
    pub fn knows(&self, part: &SignedPart<'_>) -> bool
        ensures { result ≡ is_known self.now (check_of part.now) }
    {
        self.answer(part).is_some()
    }

    /// How many checks hashed. The number stays at 2^64 - 1.
    pub fn computed(&self) -> u64
        ensures { result ≡ self.now.computed }
    {
        self.computed
    }

    /// The keys.
    pub fn ring(&self) -> &KeyRing
        ensures { result.now ≡ self.now.ring }
    {
        &self.ring
    }
}

/// The answer, if it is known. The order stays as it is, and nothing is allocated.
fn find(
    known: &LruCache<SignedMessage, bool, RandomState>,
    signer: ReplicaId,
    message: &[u8],
    signature: &[u8],
) -> Option<bool>
    ensures { result ≡ lookup (same (signed_of signer message.now signature.now)) known.now.entries }
{
    for (signed, answer) in known {
        if signed.is(signer, message, signature) {
            return Some(*answer);
        }
    }
    None
}

/// Whether both rings have the same key of that replica, or none.
fn have_same_key(ring: &KeyRing, other: &KeyRing, replica: ReplicaId) -> bool
    ensures { result ≡ has_same_key ring.now other.now replica }
{
    ring.key(replica) == other.key(replica)
}
