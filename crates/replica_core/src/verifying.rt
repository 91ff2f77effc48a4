//! The verifier of a core: which signatures it knows is no part of what the core derives from its history.
use crate::replay::Replay;
use crate::replica::Core;
use abci::Application;
use key_ring::KeyRing;
use ledger_model::Ignored;
use signed_frames::{Frame, SignedPart};
use std::mem;
use verify_cache::Verifier;

impl<A: Application> Replay<A> {
    ghost use Rattle.std.specs.Prelude.{◌≡◌, map};
    ghost use Rattle.verify_cache.specs.Checks.{is_part_signed};

    /// Takes in which of the parts are signed, without any effect that contracts see.
    fn prime(&mut self, ring: &KeyRing, parts: &[SignedPart<'_>], answers: &[bool])
        requires { answers.now ≡ map (is_part_signed ring.now) parts.now }
        ensures { self.new ≡ self.old }
    {
        self.verifier.prime_all(ring, parts, answers);
    }

    /// Swaps the verifier for another one that has the same keys, without any effect that contracts see.
    pub fn swap_verifier(&mut self, verifier: &mut Verifier)
        requires { verifier.old.ring ≡ self.old.ring }
        ensures same { self.new ≡ self.old }
        ensures ring { verifier.new.ring ≡ verifier.old.ring }
    {
        mem::swap(&mut self.verifier, verifier);
    }
}

impl<A: Application> Core<A> {
    ghost use Rattle.std.specs.Prelude.{◌≡◌, List, map};
    ghost use Rattle.ledger_model.specs.declared.history.Entry.{Entry};
    ghost use Rattle.verify_cache.specs.Checks.{is_part_signed};
    ghost use Rattle.replica_core.specs.Replays.{MatchesHistory};
    ghost use Rattle.replica_core.specs.Placing.{answer_before_signature};

    /// Takes in what was computed elsewhere: whether each of these parts of frames is signed under this ring's keys, in
    /// order. A later step then doesn't hash what it finds among them. Answers under other keys than the core's are left out,
    /// and so are those for which memory is refused.
    pub fn prime(&mut self, ring: &KeyRing, parts: &[SignedPart<'_>], answers: &[bool])
        requires { answers.now ≡ map (is_part_signed ring.now) parts.now }
        ensures { self.new ≡ self.old }
    {
        self.replay.prime(ring, parts, answers);
    }

    /// The first cause for which the replica ignores the frame before it checks the signature, if one applies: the signer,
    /// the height, the round, the phase, the owner, or a repetition.
    pub fn cause_before_signature(&self, frame: &Frame) -> Result<(), Ignored>
        // This holds for every history that the core matches.
        ensures { (entries : List Entry) → MatchesHistory A.meaning self.now.replay entries
            → result ≡ answer_before_signature self.now.replay.config self.now.replay.id entries frame.now.statement }
    {
        self.replay.cause_before_signature(frame)
    }

    /// The verifier, which has the ring and knows the answers of the last checks.
    pub fn verifier(&self) -> &Verifier
        ensures { result.now.ring ≡ self.now.replay.ring }
    {
        &self.replay.verifier
    }
}
