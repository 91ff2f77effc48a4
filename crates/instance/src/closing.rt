//! What an instance stores as a round opens.
ghost use Rattle.std.specs.Prelude.{◌≡◌, Some, IsTrue, true};
ghost use Rattle.ledger_model.specs.Notes.{signer_of, is_report, is_ack};
ghost use Rattle.ledger_model.specs.Locks.{lock_value};

use crate::height::Instance;
use crate::reading::into_ack;
use crate::round_plan::RoundEffects;
use crate::round_statement::{OwnFrame, Reserved, RoundStatement};
use ledger_model::{Ack, Batch, Place, Signature, SignedReport, Statement, place_of};
use lock_proofs::LockFrame;
use proper_sets::Proper;
use signed_frames::Frame;

impl Instance {
    ghost use Rattle.std.specs.Prelude.{◌≡◌, ◌<◌, ◌≤◌, ◌+◌, ◌++◌, ◌∷◌, List, [], Some, IsTrue, true};
    ghost use Rattle.ledger_model.specs.Notes.{Note, clock_of, signer_of, version_of, is_report, is_ack};
    ghost use Rattle.ledger_model.specs.Rules.{Ring};
    ghost use Rattle.ledger_model.specs.Spelling.{IsFrame};
    ghost use Rattle.ledger_model.specs.Locks.{or_else, lock_value};
    ghost use Rattle.instance.specs.Matching.{MatchesLog, IsSpelledSet};
    ghost use Rattle.instance.specs.Plans.{opened_effects, made_by, unsent_frames, closed, forgotten, with_all, with_own, IsOwnMade, placed};
    ghost use Rattle.instance.specs.Laws.{MayClose, IsSignedMade, IsFrameMade, opened_by};
    ghost use Rattle.instance.specs.Reads.{IsSameHeight};
    ghost use Rattle.ledger_model.specs.Limits.{last_round};

    /// Forgets what was read and made in a phase. Allocates nothing.
    fn forget_phase(&mut self)
        ensures { self.new ≡ forgotten self.old }
    {
        self.reports.clear();
        self.acks.clear();
        self.taken = None;
        self.made = None;
    }

    /// Replaces the set of proper values. Allocates nothing.
    fn put_proper(&mut self, proper: Proper)
        requires config { proper.config ≡ self.old.config }
        requires spelled { IsSpelledSet self.old.config.frames proper.set }
        ensures { self.new ≡ record self.old { proper = proper.set } }
    {
        self.proper = proper;
    }

    /// Stores the decided value, if none was decided before. Allocates nothing.
    fn put_decided(&mut self, decided: Option<Batch>)
        ensures { self.new ≡ record self.old { decided = or_else self.old.decided decided } }
    {
        if self.decided.is_none() {
            self.decided = decided;
        }
    }

    /// Stores the replica's own report, with its signature. Allocates nothing.
    fn put_report(&mut self, frame: Frame, signature: Signature)
        requires kind { IsTrue (is_report (λ r. true) frame.statement) }
        requires signature { signature ≡ frame.signature }
        requires own { signer_of frame.statement ≡ self.old.id }
        requires version { version_of frame.statement ≡ self.old.config.frames }
        ensures { self.new ≡ with_own frame self.old }
    {
        // This call shows the proof that the frame's statement can be encoded.
        let _ = frame.statement();
        let Statement::Report(report) = frame.into_statement() else {
            unreachable!()
        };
        self.reports.add(SignedReport { report, signature });
    }

    /// Stores the replica's own lock. Its value is passed twice: as the value of the lock that was made and, if the
    /// table has a place for the lock, as the value of the lock that was taken. Allocates nothing.
    fn put_lock(&mut self, frame: Frame, made: Batch, taken: Batch)
        requires made { lock_value frame.statement ≡ Some made }
        requires taken { lock_value frame.statement ≡ Some taken }
        requires version { version_of frame.statement ≡ self.old.config.frames }
        ensures { self.new ≡ with_own frame self.old }
    {
        // This call shows the proof that the frame's statement can be encoded.
        let _ = frame.statement();
        self.made = Some(made);
        if self.locks.take(LockFrame::of_own(frame)).is_ok() {
            self.taken = Some(taken);
        }
    }

    /// Stores the replica's own acknowledgement. Allocates nothing.
    fn put_ack(&mut self, ack: Ack)
        ensures { self.new ≡ record self.old { acks = placed self.old.acks self.old.id ack } }
    {
        self.acks.add(self.id, ack);
    }

    /// Stores a signed statement of the replica's own. Allocates nothing.
    fn put_own(&mut self, own: OwnFrame)
        requires own { signer_of own.statement ≡ self.old.id }
        requires version { version_of own.statement ≡ self.old.config.frames }
        ensures after { self.new ≡ with_own own self.old }
        ensures frame { IsFrame own }
    {
        let (frame, kept) = own.into_parts();
        match kept {
            Reserved::Report(signature) => self.put_report(frame, signature),
            Reserved::Lock(made, taken) => self.put_lock(frame, made, taken),
            Reserved::Ack => self.put_ack(into_ack(frame)),
        }
    }

    /// Stores what the replica makes. Allocates nothing.
    fn put_made(&mut self, made: RoundStatement, unsent: Option<Ack>)
        requires own { IsOwnMade self.old.config self.old.id made }
        ensures after { self.new ≡ with_all (made_by unsent made) self.old }
        ensures frame { IsFrameMade made }
    {
        match made {
            RoundStatement::Mute => return,
            RoundStatement::Unsent => {}
            RoundStatement::Sent(own) => self.put_own(own),
        }
        if let Some(ack) = unsent {
            self.put_ack(ack);
        }
    }

    /// Opens the next round. `clock` is the number of the round that closes. Stores what was prepared for its end, and
    /// what the replica makes in the new round. Allocates nothing.
    #[tactic(auto, unfolding(crate::specs::Plans::closed))]
    pub fn close(&mut self, ending: RoundEffects, made: RoundStatement, clock: u32)
        requires clock { clock < last_round }
        requires ending { ending ≡ opened_effects self.old (clock + 1) }
        requires own { IsOwnMade self.old.config self.old.id made }
        ensures row { self.new ≡ closed self.old (clock + 1) ending made }
        // For every log that the instance matched and that allows what is made: the instance then matches that log,
        // continued with the round and with what is made.
        ensures matches { (ring : Ring) (log : List Note) → MatchesLog ring self.old log → clock_of log ≡ clock
            → MayClose self.old log (clock + 1) made → IsSignedMade ring made
            → MatchesLog ring self.new (opened_by self.old log (clock + 1) made) }
        ensures same { IsSameHeight self.old self.new }
    {
        // This read opens the invariant for the proof: what the instance has can be encoded.
        let _ = &self.height;
        let (proper, decided, unsent) = ending.into_parts();
        if place_of(u64::from(clock) + 1) == Place::Reports {
            self.forget_phase();
        }
        if let Some(proper) = proper {
            self.put_proper(proper);
        }
        self.put_decided(decided);
        self.put_made(made, unsent);
    }
}
