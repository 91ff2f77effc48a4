//! Whether another replica may make what its frames contain, at each open height.
use crate::replay::Replay;
use abci::Application;
use height_row::RoundClosing;
use instance::{Instance, RoundStatement};
use signed_frames::Frame;

impl<A: Application> Replay<A> {
    ghost use Rattle.std.specs.Prelude.{◌≡◌, ◌<◌, ◌+◌, List, length, map, true, false, IsTrue};
    ghost use Rattle.std.specs.List.{AllByRecursion};
    ghost use Rattle.ledger_model.specs.declared.history.Entry.{Entry};
    ghost use Rattle.ledger_model.specs.Limits.{last_round};
    ghost use Rattle.ledger_model.specs.Notes.{Note, clock_of};
    ghost use Rattle.ledger_model.specs.Rules.{is_signed};
    ghost use Rattle.instance.specs.Plans.{IsOwnMade};
    ghost use Rattle.instance.specs.Matching.{MatchesLog};
    ghost use Rattle.replica_core.specs.Replays.{MatchesHistory, IsWithinLimits};
    ghost use Rattle.replica_core.specs.RoundEnds.{IsMadeAt, AreMade};

    /// Whether the frame's signature verifies under its signer's key.
    fn is_signed(&self, frame: &Frame) -> bool
        ensures { result ≡ is_signed self.now.ring frame.now }
    {
        let part = frame.signed_part();
        self.verifier
            .ring()
            .verifies(part.signer(), part.message(), part.signature())
    }

    /// Whether a replica that is not mute may make this at the open height as the next round opens.
    fn may_make(&self, instance: &Instance, made: &RoundStatement) -> bool
        requires clock { self.now.clock < last_round }
        // This holds for every log that the height matches.
        ensures may { (log : List Note) → MatchesLog self.now.ring instance.now log → clock_of log ≡ self.now.clock → result ≡ true
            → IsMadeAt self.now.ring false (self.now.clock + 1) instance.now made.now }
        ensures only { (log : List Note) → MatchesLog self.now.ring instance.now log → clock_of log ≡ self.now.clock
            → IsMadeAt self.now.ring false (self.now.clock + 1) instance.now made.now → result ≡ true }
        ensures own { result ≡ true → IsOwnMade instance.now.config instance.now.id made.now }
    {
        match made {
            RoundStatement::Mute => false,
            RoundStatement::Unsent => instance.may_make(self.clock, None),
            RoundStatement::Sent(own) => {
                let frame = own.frame();
                instance.may_make(self.clock, Some(frame.statement())) && self.is_signed(frame)
            }
        }
    }

    /// Whether the replica may make all this, one item for each open height, in order of heights.
    pub(crate) fn may_make_all(&self, closings: &[RoundClosing]) -> bool
        requires clock { self.now.clock < last_round }
        requires count { length closings.now ≡ length self.now.rows }
        // This holds for every history that the core state matches.
        ensures may { (entries : List Entry) → MatchesHistory A.meaning self.now entries → result ≡ true
            → AreMade self.now.ring false (self.now.clock + 1) self.now.rows (map (λ c. c.made) closings.now) }
        ensures only { (entries : List Entry) → MatchesHistory A.meaning self.now entries
            → AreMade self.now.ring false (self.now.clock + 1) self.now.rows (map (λ c. c.made) closings.now) → result ≡ true }
        ensures own { result ≡ true → AllByRecursion (λ c. IsOwnMade self.now.config self.now.id c.made) closings.now }
    {
        for (instance, closing) in self.rows.instances().zip(closings) {
            if !self.may_make(instance, &closing.made) {
                return false;
            }
        }
        true
    }
}
