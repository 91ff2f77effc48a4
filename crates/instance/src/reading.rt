//! How an instance reads a frame of its height.
ghost use Rattle.std.specs.Prelude.{◌≡◌, ◌≤◌, true, IsTrue};
ghost use Rattle.ledger_model.specs.Notes.{is_ack};
ghost use Rattle.ledger_model.specs.Rules.{has_owner};
ghost use Rattle.instance.specs.Reads.{cause_of_fault};
ghost use Rattle.ledger_model.specs.Limits.{last_round};

use crate::height::Instance;
use key_ring::KeyRing;
use ledger_model::{
    Ack, Batch, Config, Ignored, Place, Signature, SignedReport, Statement, has_phase, has_place,
    phase_of, place_of,
};
use lock_proofs::{LockFault, LockFrame, check_lock_with};
use signed_frames::Frame;
use std::alloc::{AllocError, Global};
use verify_cache::CheckSignatures;

/// Whether the statement is no lock, or a lock of its phase's owner.
fn has_owner(config: &Config, statement: &Statement) -> bool
    ensures { result ≡ has_owner config.now statement.now }
{
    match statement {
        Statement::Lock(lock) => lock.signer == config.owner_of(lock.phase),
        Statement::Report(_) | Statement::Ack(_) => true,
    }
}

/// Why a lock that isn't valid is ignored.
fn cause_of(fault: LockFault) -> Ignored
    ensures { result ≡ cause_of_fault fault }
{
    match fault {
        LockFault::NotOwner => Ignored::NotOwner,
        LockFault::BadSignature => Ignored::BadSignature,
        LockFault::BadProof | LockFault::NotSupporting => Ignored::BadProof,
    }
}

/// The acknowledgement in a frame that contains one.
pub(crate) fn into_ack(frame: Frame) -> Ack
    requires { IsTrue (is_ack (λ a. true) frame.statement) }
    ensures { frame.statement ≡ Statement.Ack result }
{
    match frame.into_statement() {
        Statement::Ack(ack) => ack,
        Statement::Report(_) | Statement::Lock(_) => unreachable!(),
    }
}

impl Instance {
    ghost use Rattle.std.specs.Prelude.{◌≡◌, ◌==◌, ◌<◌, ◌≤◌, ◌++◌, ◌∷◌, ℕ, List, [], None, Some, slice_set, not, false, true, is_some, IsTrue, IfOk, OnOk, OnErr};
    ghost use Rattle.std.specs.Option.{option_map_or};
    ghost use Rattle.ledger_model.specs.Values.{same_value};
    ghost use Rattle.ledger_model.specs.Rounds.{phase_of, place_of, lock_place};
    ghost use Rattle.ledger_model.specs.Notes.{Note, clock_of, signer_of, version_of, is_report, is_lock, is_ack};
    ghost use Rattle.ledger_model.specs.Logs.{height_of};
    ghost use Rattle.ledger_model.specs.Rules.{Ring, first_of, place_causes, is_repeated};
    ghost use Rattle.ledger_model.specs.Spelling.{IsFrameIn};
    ghost use Rattle.ledger_model.specs.Values.{IsValueIn};
    ghost use Rattle.ledger_model.specs.Versions.{reads};
    ghost use Rattle.lock_proofs.specs.LockTables.{as_statement, with_lock, has_four_others, released};
    ghost use Rattle.tally.specs.Tallies.{read_of};
    ghost use Rattle.instance.specs.Matching.{MatchesLog};
    ghost use Rattle.instance.specs.ReadFrames.{AnswersFrame, NotesFrame};
    ghost use Rattle.instance.specs.Reads.{round_causes, row_causes, report_causes, room_causes, lock_causes, ack_causes, is_kept_already, after_read, if_accepted, IsSameHeight};
    ghost use Rattle.ledger_model.specs.Limits.{last_round};

    /// Whether the instance already has such a statement.
    fn is_kept_already(&self, statement: &Statement, round: u32) -> bool
        requires { round ≤ last_round }
        ensures { result ≡ is_kept_already self.now round statement.now }
    {
        match statement {
            Statement::Report(report) => self.reports.get(report.signer).is_some(),
            Statement::Lock(_) => place_of(u64::from(round)) == Place::Lock && self.taken.is_some(),
            Statement::Ack(ack) => self.acks.get(ack.signer).is_some(),
        }
    }

    /// The first cause that depends on the statement and the round alone, if one applies.
    fn judge_round(&self, statement: &Statement, round: u32) -> Result<(), Ignored>
        requires { round ≤ last_round }
        ensures { result ≡ first_of (round_causes self.now round statement.now) }
    {
        if round == 0 || !has_place(place_of(u64::from(round)), statement) {
            return Err(Ignored::WrongRound);
        }
        if !has_phase(u64::from(round), statement) {
            return Err(Ignored::WrongPhase);
        }
        if !has_owner(&self.config, statement) {
            return Err(Ignored::NotOwner);
        }
        if self.is_kept_already(statement, round) {
            return Err(Ignored::Repeated);
        }
        Ok(())
    }

    /// Stores the first report of its signer in this phase, with its signature. Allocates nothing.
    fn put_read_report(&mut self, frame: Frame, signature: Signature)
        requires kind { IsTrue (is_report (λ r. true) frame.statement) }
        requires signer { signer_of frame.statement < self.old.config.replicas }
        requires first { read_of self.old.reports (signer_of frame.statement) ≡ None }
        requires frame { IsFrameIn self.old.config.frames frame }
        requires signature { signature ≡ frame.signature }
        ensures { (round : ℕ) → self.new ≡ after_read self.old round frame }
    {
        let Statement::Report(report) = frame.into_statement() else {
            unreachable!()
        };
        self.reports.add(SignedReport { report, signature });
    }

    /// Stores the first report of its signer in this phase, whose signature verifies.
    fn take_report(&mut self, alloc: Global, frame: Frame) -> Result<(), AllocError>
        requires kind { IsTrue (is_report (λ r. true) frame.statement) }
        requires signer { signer_of frame.statement < self.old.config.replicas }
        requires first { read_of self.old.reports (signer_of frame.statement) ≡ None }
        requires frame { IsFrameIn self.old.config.frames frame }
        ensures after { (round : ℕ) → OnOk result (self.new ≡ after_read self.old round frame) }
        ensures err { OnErr result (self.new ≡ self.old) }
    {
        let signature = Signature::new(Vec::from_slice(alloc, frame.signature())?);
        self.put_read_report(frame, signature);
        Ok(())
    }

    /// Reads the first report of its signer in this phase, if its signature verifies.
    fn read_report<C: CheckSignatures>(
        &mut self,
        alloc: Global,
        checks: &mut C,
        frame: Frame,
    ) -> Result<Result<(), Ignored>, AllocError>
        requires kind { IsTrue (is_report (λ r. true) frame.statement) }
        requires signer { signer_of frame.statement < self.old.config.replicas }
        requires first { read_of self.old.reports (signer_of frame.statement) ≡ None }
        requires frame { IsFrameIn self.old.config.frames frame }
        ensures answer { IfOk result (λ r. r ≡ first_of (report_causes (C.ring checks.old) frame)) }
        ensures after { (round : ℕ) → IfOk result (λ r. self.new ≡ if_accepted r (after_read self.old round frame) self.old) }
        ensures err { OnErr result (self.new ≡ self.old) }
        ensures keys { C.ring checks.new ≡ C.ring checks.old }
    {
        if !checks.is_signed(&frame.signed_part()) {
            return Ok(Err(Ignored::BadSignature));
        }
        self.take_report(alloc, frame)?;
        Ok(Ok(()))
    }

    /// Whether the acknowledgement is of the lock that this replica made in the phase.
    fn is_of_own_lock(&self, ack: &Ack) -> bool
        ensures { result ≡ option_map_or (same_value ack.now.value) self.now.made false }
    {
        self.made.as_ref().is_some_and(|value| ack.value == *value)
    }

    /// Stores the first acknowledgement of its signer in this phase. Allocates nothing.
    fn put_read_ack(&mut self, ack: Ack)
        requires signer { ack.signer < self.old.config.replicas }
        requires first { read_of self.old.acks ack.signer ≡ None }
        ensures { self.new ≡ record self.old { acks = slice_set self.old.acks ack.signer (Some ack) } }
    {
        self.acks.add(ack.signer, ack);
    }

    /// Reads the first acknowledgement of its signer in this phase, if its signature verifies and it is of this replica's own lock.
    fn read_ack<C: CheckSignatures>(&mut self, checks: &mut C, frame: Frame) -> Result<(), Ignored>
        requires kind { IsTrue (is_ack (λ a. true) frame.statement) }
        requires signer { signer_of frame.statement < self.old.config.replicas }
        requires first { read_of self.old.acks (signer_of frame.statement) ≡ None }
        ensures answer { result ≡ first_of (ack_causes self.old (C.ring checks.old) frame) }
        ensures after { (round : ℕ) → self.new ≡ if_accepted result (after_read self.old round frame) self.old }
        ensures keys { C.ring checks.new ≡ C.ring checks.old }
    {
        if !checks.is_signed(&frame.signed_part()) {
            return Err(Ignored::BadSignature);
        }
        let ack = into_ack(frame);
        if !self.is_of_own_lock(&ack) {
            return Err(Ignored::NotMine);
        }
        self.put_read_ack(ack);
        Ok(())
    }

    /// Stores a lock for which the table has a place, and its value as that of the lock that was taken. Allocates nothing.
    fn put_taken(&mut self, lock: LockFrame, value: Batch)
        requires fits { IsValueIn self.old.config.frames lock.lock.value }
        requires value { value ≡ lock.lock.value }
        requires room { has_four_others lock.lock.value self.old.table ≡ false }
        ensures { self.new ≡ record self.old { table = with_lock lock self.old.table; taken = Some lock.lock.value } }
    {
        let Ok(()) = self.locks.take(lock) else {
            unreachable!()
        };
        self.taken = Some(value);
    }

    /// Whether the table has a place for a lock on the value.
    fn has_room_for(&self, value: &Batch) -> bool
        ensures { result ≡ not (has_four_others value.now self.now.table) }
    {
        self.locks.has_room_for(value)
    }

    /// Takes a valid lock, if the table has a place for it.
    fn take_lock(&mut self, lock: LockFrame) -> Result<Result<(), Ignored>, AllocError>
        requires fits { IsValueIn self.old.config.frames lock.lock.value }
        ensures answer { IfOk result (λ r. r ≡ first_of (room_causes true self.old lock.lock.value)) }
        ensures after { IfOk result (λ r. self.new
            ≡ if_accepted r (record self.old { table = with_lock lock self.old.table; taken = Some lock.lock.value }) self.old) }
        ensures err { OnErr result (self.new ≡ self.old) }
    {
        if !self.has_room_for(lock.value()) {
            return Ok(Err(Ignored::TableFull));
        }
        let value = lock.value().copy()?;
        self.put_taken(lock, value);
        Ok(Ok(()))
    }

    /// Releases locks on other values, by a lock that was read in a lock-release round.
    fn release_by(&mut self, lock: &LockFrame, round: u32)
        requires { round ≤ last_round }
        ensures { self.new ≡ record self.old { table = released (phase_of round) lock.now.lock self.old.table } }
    {
        self.locks.release(lock, phase_of(round));
    }

    /// Reads a valid lock of its phase's owner: takes it in the round of locks, and lets it release others in a lock-release round.
    fn read_valid(&mut self, lock: LockFrame, round: u32) -> Result<Result<(), Ignored>, AllocError>
        requires round { round ≤ last_round }
        requires fits { IsValueIn self.old.config.frames lock.lock.value }
        ensures answer { IfOk result (λ r. r ≡ first_of (room_causes (place_of round == lock_place) self.old lock.lock.value)) }
        ensures after { IfOk result (λ r. self.new ≡ if_accepted r (after_read self.old round (as_statement lock)) self.old) }
        ensures err { OnErr result (self.new ≡ self.old) }
    {
        if place_of(u64::from(round)) == Place::Lock {
            return self.take_lock(lock);
        }
        self.release_by(&lock, round);
        Ok(Ok(()))
    }

    /// Reads a lock of its phase's owner, if it is valid: takes it in the round of locks, and lets it release others in
    /// a lock-release round.
    fn read_lock<C: CheckSignatures>(
        &mut self,
        checks: &mut C,
        frame: Frame,
        round: u32,
    ) -> Result<Result<(), Ignored>, AllocError>
        requires kind { IsTrue (is_lock (λ l. true) frame.statement) }
        requires round { round ≤ last_round }
        requires owner { has_owner self.old.config frame.statement ≡ true }
        requires frame { IsFrameIn self.old.config.frames frame }
        ensures answer { IfOk result (λ r. r ≡ first_of (lock_causes self.old (C.ring checks.old) round frame)) }
        ensures after { IfOk result (λ r. self.new ≡ if_accepted r (after_read self.old round frame) self.old) }
        ensures err { OnErr result (self.new ≡ self.old) }
        ensures keys { C.ring checks.new ≡ C.ring checks.old }
    {
        match check_lock_with(&self.config, checks, frame) {
            Ok(lock) => self.read_valid(lock, round),
            Err(fault) => Ok(Err(cause_of(fault))),
        }
    }

    /// The first cause for which a frame with the statement is ignored before its signature is checked, if one applies while
    /// round `clock` is open: the round, the phase, the owner, or a repetition. Allocates nothing.
    pub fn judge(&self, statement: &Statement, clock: u32) -> Result<(), Ignored>
        requires { clock ≤ last_round }
        // It is that of the definitions, by every log that the instance matches.
        ensures { (ring : Ring) (log : List Note) → MatchesLog ring self.now log → clock_of log ≡ clock
            → result ≡ first_of (place_causes self.now.config clock (is_repeated log statement.now) statement.now []) }
    {
        self.judge_round(statement, clock)
    }

    /// Reads or ignores a frame of this height and of a version that the cluster's frames carry, whose signer is in the cluster, while round `clock` is open. A frame is
    /// ignored with the first cause that applies, and then nothing changes.
    ///
    /// If memory runs out, nothing changes either.
    pub fn read(
        &mut self,
        alloc: Global,
        ring: &KeyRing,
        frame: Frame,
        clock: u32,
    ) -> Result<Result<(), Ignored>, AllocError>
        requires signer { signer_of frame.statement < self.old.config.replicas }
        requires height { height_of frame.statement ≡ self.old.height }
        requires version { IsTrue (reads self.old.config.frames (version_of frame.statement)) }
        requires clock { clock ≤ last_round }
        // The answer and its effect are those of the definitions, on every log that the instance matches.
        ensures answer { AnswersFrame ring.now self.old frame clock result }
        ensures read { NotesFrame ring.now self.old frame clock result self.new }
        ensures ignored { IfOk result (λ r. OnErr r (self.new ≡ self.old)) }
        ensures err { OnErr result (self.new ≡ self.old) }
        ensures same { IsSameHeight self.old self.new }
    {
        let mut checks = ring;
        self.read_with(alloc, &mut checks, frame, clock)
    }

    /// Does what [`Instance::read`] does, under the keys of the caller that checks signatures.
    pub fn read_with<C: CheckSignatures>(
        &mut self,
        alloc: Global,
        checks: &mut C,
        frame: Frame,
        clock: u32,
    ) -> Result<Result<(), Ignored>, AllocError>
        requires signer { signer_of frame.statement < self.old.config.replicas }
        requires height { height_of frame.statement ≡ self.old.height }
        requires version { IsTrue (reads self.old.config.frames (version_of frame.statement)) }
        requires clock { clock ≤ last_round }
        // The answer and its effect are those of the definitions, on every log that the instance matches.
        ensures answer { AnswersFrame (C.ring checks.old) self.old frame clock result }
        ensures read { NotesFrame (C.ring checks.old) self.old frame clock result self.new }
        ensures ignored { IfOk result (λ r. OnErr r (self.new ≡ self.old)) }
        ensures err { OnErr result (self.new ≡ self.old) }
        ensures same { IsSameHeight self.old self.new }
        // The keys are the same.
        ensures keys { C.ring checks.new ≡ C.ring checks.old }
    {
        if let Err(cause) = self.judge_round(frame.statement(), clock) {
            return Ok(Err(cause));
        }
        match frame.statement() {
            Statement::Report(_) => self.read_report(alloc, checks, frame),
            Statement::Lock(_) => self.read_lock(checks, frame, clock),
            Statement::Ack(_) => Ok(self.read_ack(checks, frame)),
        }
    }
}
