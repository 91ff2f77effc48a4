//! Whoever checks signatures under the keys of one ring: the ring itself, or a verifier that remembers its answers.
ghost use Rattle.std.specs.Prelude.{◌≡◌, slice_get};
ghost use Rattle.ledger_model.specs.Rules.{Ring};
ghost use Rattle.verify_cache.specs.Checks.{is_part_signed};

use crate::Verifier;
use key_ring::KeyRing;
use signed_frames::SignedPart;

/// Checks signatures under the keys of one ring.
pub trait CheckSignatures {
    /// The keys.
    ghost ring: { Self → Ring };

    /// Whether the signature of the part is its signer's, as `KeyRing::verifies` answers.
    fn is_signed(&mut self, part: &SignedPart<'_>) -> bool
        ensures answer { result ≡ is_part_signed (ring self.old) part.now }
        ensures same { ring self.new ≡ ring self.old };
}

/// A ring hashes at each check.
impl<'a> CheckSignatures for &'a KeyRing {
    ghost ring = { λ r. r.now };

    fn is_signed(&mut self, part: &SignedPart<'_>) -> bool {
        self.verifies(part.signer(), part.message(), part.signature())
    }
}

/// A verifier hashes what it doesn't know. Where memory for a key of its memory is refused, it answers all the same.
impl CheckSignatures for Verifier {
    ghost ring = { λ v. v.ring };

    fn is_signed(&mut self, part: &SignedPart<'_>) -> bool {
        self.check_part(part)
    }
}
