//! A verifier that the followers of several histories share.
ghost use Rattle.std.specs.Prelude.{◌≡◌, IfOk};

use key_ring::KeyRing;
use ledger_model::History;
use std::alloc::{AllocError, Global};
use std::hash::RandomState;
use std::num::NonZeroUsize;
use verify_cache::Verifier;

/// The most answers that a shared verifier remembers.
const MAX_KNOWN: usize = 131_072;

/// The number of answers to remember: one more than there are entries, at most 131,072.
fn known_at_most(histories: &[History]) -> NonZeroUsize {
    let entries = histories
        .iter()
        .map(|history| history.entries.as_slice().len());
    let wanted = entries.fold(1_usize, |sum, len| sum.saturating_add(len));
    match NonZeroUsize::new(wanted.min(MAX_KNOWN)) {
        Some(most) => most,
        None => NonZeroUsize::MIN,
    }
}

/// A verifier that the followers of these histories take one after the other, by `Follower::swap_verifier`. It has a copy of the ring, and
/// remembers as many answers as the histories have entries, at most 131,072. It hashes what it knows with the random keys. The only
/// error is allocation failure.
pub fn shared_verifier(
    alloc: Global,
    ring: &KeyRing,
    histories: &[History],
    random: RandomState,
) -> Result<Verifier, AllocError>
    ensures { IfOk result (λ verifier. verifier.ring ≡ ring.now) }
{
    let most = known_at_most(histories);
    Verifier::with_capacity(alloc, ring.copy()?, random, most)
}
