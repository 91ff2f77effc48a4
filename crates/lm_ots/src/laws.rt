//! Laws of every one-time signature, proved from the definitions alone.
ghost use Rattle.lm_ots.specs.Laws.{SignedIsCandidate};

/// The signature of a message leads to the public value of the leaf that signed it.
pub fn signed_is_candidate()
    ensures { SignedIsCandidate }
{}
