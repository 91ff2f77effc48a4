//! What a replica makes as a round opens.
ghost use Rattle.std.specs.Prelude.{◌≡◌, map, filter, take, IfOk};
ghost use Rattle.ledger_model.specs.Locks.{finds};
ghost use Rattle.ledger_model.specs.Spelling.{frame_bytes};
ghost use Rattle.tally.specs.Tallies.{all_read};
ghost use Rattle.lock_proofs.specs.LockTables.{as_statement};
ghost use Rattle.lock_proofs.specs.Tables.{values_of};

use crate::height::Instance;
use crate::round_plan::{RoundEffects, RoundPlan};
use bytes::Bytes;
use ledger_model::{
    Ack, Batch, Batches, Lock, LockProof, Phase, Place, Report, SignedReport, Statement, phase_of,
    place_of,
};
use lock_proofs::LockFrame;
use phase_core::{choose, is_acknowledged};
use proper_sets::Proper;
use std::alloc::{AllocError, Global};

impl Instance {
    ghost use Rattle.std.specs.Prelude.{◌≡◌, ◌<◌, ◌≤◌, ◌+◌, List, map, filter, take, Some, IfOk, IfSome, IsTrue, true};
    ghost use Rattle.std.specs.List.{AllByRecursion};
    ghost use Rattle.ledger_model.specs.Rounds.{phase_of, place_of, quorum, release_place};
    ghost use Rattle.ledger_model.specs.Notes.{Note, clock_of};
    ghost use Rattle.ledger_model.specs.Locks.{finds};
    ghost use Rattle.ledger_model.specs.Rules.{Ring};
    ghost use Rattle.ledger_model.specs.Lawful.{held_locks, are_signed_reports};
    ghost use Rattle.ledger_model.specs.Spelling.{IsStatement, frame_bytes};
    ghost use Rattle.proper_sets.specs.Propriety.{absorbed};
    ghost use Rattle.tally.specs.Readings.{reports_of};
    ghost use Rattle.tally.specs.Tallies.{all_read};
    ghost use Rattle.lock_proofs.specs.LockTables.{as_statement};
    ghost use Rattle.lock_proofs.specs.Tables.{values_of};
    ghost use Rattle.instance.specs.Matching.{MatchesLog};
    ghost use Rattle.instance.specs.Plans.{own_report, own_lock, locking_of, chosen_lock, own_acks, sent_ack, unsent_ack, decides_now, decides_first, chosen_statement, opened_effects, nothing_ends, IsOwnStatement};
    ghost use Rattle.instance.specs.Laws.{MayBeSent, IsLockSentOn};
    ghost use Rattle.ledger_model.specs.Limits.{last_round};

    /// The values on which locks are held, ascending.
    fn held_values(&self, alloc: Global) -> Result<Vec<Batch>, AllocError>
        ensures { IfOk result (λ values. values.items ≡ values_of self.now.table) }
    {
        copied_values(alloc, self.locks.held())
    }

    /// The replica's own report of a phase: the proper values, and those on which locks are held.
    fn own_report(&self, alloc: Global, phase: Phase) -> Result<Report, AllocError>
        ensures { IfOk result (λ report. report ≡ own_report self.now phase) }
    {
        let locked = Batches::new(self.held_values(alloc)?);
        let (initial, proper) = copies_of(alloc, &self.proper)?;
        Ok(Report {
            version: self.config.frames,
            height: self.height,
            phase,
            signer: self.id,
            all: self.proper.all(),
            initial,
            proper,
            locked,
        })
    }

    /// The reports that find the value, from the lowest signers: as many as a lock needs.
    fn proof(&self, alloc: Global, value: &Batch) -> Result<Vec<SignedReport>, AllocError>
        ensures { IfOk result (λ proof. proof.items
            ≡ take (quorum self.now.config) (filter (λ s. finds s.report value.now) (all_read self.now.reports))) }
    {
        let quorum = usize::from(self.config.quorum());
        lowest_finding(alloc, self.reports.places(), value, quorum)
    }

    /// The replica's own lock of a phase on a value.
    fn own_lock(&self, alloc: Global, phase: Phase, value: Batch) -> Result<Lock, AllocError>
        ensures { IfOk result (λ lock. lock ≡ own_lock self.now phase value) }
    {
        let proof = LockProof::new(self.proof(alloc, &value)?);
        Ok(Lock {
            version: self.config.frames,
            height: self.height,
            phase,
            signer: self.id,
            value,
            proof,
        })
    }

    /// The value that this replica locks, if it owns the phase and may lock one.
    fn locking(&self, phase: Phase) -> Result<Option<Batch>, AllocError>
        ensures { IfOk result (λ value. value ≡ locking_of self.now phase) }
    {
        if self.id != self.config.owner_of(phase) {
            return Ok(None);
        }
        choose(&self.config, &self.reports, self.proper.own())
    }

    /// The replica's own lock of a phase, if it owns the phase and may lock a value.
    fn chosen_lock(&self, alloc: Global, phase: Phase) -> Result<Option<Statement>, AllocError>
        ensures { IfOk result (λ chosen. chosen ≡ chosen_lock self.now phase (locking_of self.now phase)) }
    {
        match self.locking(phase)? {
            None => Ok(None),
            Some(value) => Ok(Some(Statement::Lock(self.own_lock(alloc, phase, value)?))),
        }
    }

    /// The acknowledgement of the lock that was taken, if one was.
    fn own_ack(&self, phase: Phase) -> Result<Option<Ack>, AllocError>
        ensures { IfOk result (λ ack. ack ≡ own_acks self.now phase self.now.taken) }
    {
        match &self.taken {
            None => Ok(None),
            Some(value) => Ok(Some(Ack {
                version: self.config.frames,
                height: self.height,
                phase,
                signer: self.id,
                value: value.copy()?,
            })),
        }
    }

    /// The acknowledgement that the replica sends to the owner of the phase; `None` if it is the owner, or took no lock.
    fn sent_ack(&self, phase: Phase) -> Result<Option<Statement>, AllocError>
        ensures { IfOk result (λ sent. sent ≡ sent_ack self.now phase self.now.taken) }
    {
        if self.config.owner_of(phase) == self.id {
            return Ok(None);
        }
        match self.own_ack(phase)? {
            None => Ok(None),
            Some(ack) => Ok(Some(Statement::Ack(ack))),
        }
    }

    /// An owner's acknowledgement of its own lock, which it makes and doesn't send.
    fn unsent_ack(&self, phase: Phase) -> Result<Option<Ack>, AllocError>
        ensures { IfOk result (λ unsent. unsent ≡ unsent_ack self.now phase self.now.taken) }
    {
        if self.config.owner_of(phase) != self.id {
            return Ok(None);
        }
        self.own_ack(phase)
    }

    /// The statement that this replica chooses to send as a round opens.
    #[tactic(auto, unfolding(crate::specs::Plans::chosen_statement))]
    fn chosen_statement(&self, alloc: Global, round: u32) -> Result<Option<Statement>, AllocError>
        requires { (1 ≤ round) × (round ≤ last_round) }
        ensures { IfOk result (λ chosen. chosen ≡ chosen_statement self.now round) }
    {
        let phase = phase_of(round);
        match place_of(u64::from(round)) {
            Place::Reports => Ok(Some(Statement::Report(self.own_report(alloc, phase)?))),
            Place::Lock => self.chosen_lock(alloc, phase),
            Place::Acknowledgements => self.sent_ack(phase),
            Place::Release => Ok(None),
        }
    }

    /// The set of proper values after the reports of the phase are absorbed.
    fn absorbed(&self) -> Result<Proper, AllocError>
        ensures config { IfOk result (λ proper. proper.config ≡ self.now.config) }
        ensures set { IfOk result (λ proper. proper.set
            ≡ absorbed self.now.config self.now.id (reports_of (all_read self.now.reports)) self.now.proper) }
    {
        let mut proper = self.proper.copy()?;
        proper.absorb(self.id, &self.reports)?;
        Ok(proper)
    }

    /// The value of the replica's own lock of the phase, if the acknowledgements decide it.
    fn decides_now(&self, phase: Phase) -> Result<Option<Batch>, AllocError>
        ensures { IfOk result (λ value. value ≡ decides_now self.now phase self.now.made) }
    {
        match &self.made {
            Some(value) if is_acknowledged(&self.config, &self.acks, phase, value) => {
                Ok(Some(value.copy()?))
            }
            _ => Ok(None),
        }
    }

    /// The value that the phase decides, unless one was decided before.
    fn decides_first(&self, phase: Phase) -> Result<Option<Batch>, AllocError>
        ensures { IfOk result (λ value. value ≡ decides_first self.now phase) }
    {
        if self.decided.is_some() {
            return Ok(None);
        }
        self.decides_now(phase)
    }

    /// The frames of the held locks, ascending by value.
    fn held_frames(&self, alloc: Global) -> Result<Vec<Bytes>, AllocError>
        ensures { IfOk result (λ frames. frames.items ≡ map (λ s. frame_bytes (as_statement s)) self.now.table) }
    {
        shared_frames(alloc, self.locks.held())
    }

    /// The effects of opening the lock-release round of a phase: the held locks are sent on, and a value may be decided.
    fn release_ending(&self, alloc: Global, phase: Phase) -> Result<RoundEffects, AllocError>
        ensures { IfOk result (λ ending. ending ≡ record nothing_ends {
          sends_on = map (λ s. frame_bytes (as_statement s)) self.now.table;
          decided = decides_first self.now phase;
        }) }
    {
        let sends_on = self.held_frames(alloc)?;
        let decided = self.decides_first(phase)?;
        Ok(RoundEffects::releasing(sends_on, decided))
    }

    /// The effects of opening a round, which don't depend on what is sent.
    #[tactic(auto, unfolding(crate::specs::Plans::opened_effects))]
    fn ending(&self, alloc: Global, round: u32) -> Result<RoundEffects, AllocError>
        requires { (1 ≤ round) × (round ≤ last_round) }
        ensures { IfOk result (λ ending. ending ≡ opened_effects self.now round) }
    {
        let phase = phase_of(round);
        match place_of(u64::from(round)) {
            Place::Reports => Ok(RoundEffects::nothing(alloc)),
            Place::Lock => Ok(RoundEffects::absorbing(alloc, self.absorbed()?)),
            Place::Acknowledgements => Ok(RoundEffects::acknowledging(
                alloc,
                self.unsent_ack(phase)?,
            )),
            Place::Release => self.release_ending(alloc, phase),
        }
    }

    /// The effects of opening the next round, which don't depend on what is sent. `clock` is the number of the round
    /// that closes. Changes nothing yet.
    pub fn prepare_end(&self, alloc: Global, clock: u32) -> Result<RoundEffects, AllocError>
        requires clock { clock < last_round }
        ensures ending { IfOk result (λ ending. ending ≡ opened_effects self.now (clock + 1)) }
        // In a lock-release round the replica sends on the locks that it holds.
        ensures sends_on { IfOk result (λ ending. (ring : Ring) (log : List Note) → MatchesLog ring self.now log → clock_of log ≡ clock
            → place_of (clock + 1) ≡ release_place → ending.sends_on ≡ map frame_bytes (held_locks log)) }
        // Each of those frames reads back as a signed lock of this height.
        ensures readable { IfOk result (λ ending. (ring : Ring) (log : List Note) → MatchesLog ring self.now log
            → AllByRecursion (IsLockSentOn ring self.now.height) ending.sends_on) }
    {
        self.ending(alloc, clock + 1)
    }

    /// The plan for opening the next round: the statement to send, and all other effects. `clock` is the number of the
    /// round that closes. Changes nothing yet.
    pub fn plan_end(&self, alloc: Global, clock: u32) -> Result<RoundPlan, AllocError>
        requires clock { clock < last_round }
        ensures statement { IfOk result (λ plan. plan.statement ≡ chosen_statement self.now (clock + 1)) }
        ensures ending { IfOk result (λ plan. plan.ending ≡ opened_effects self.now (clock + 1)) }
        // It chooses only what every log that the instance matches allows.
        ensures may { IfOk result (λ plan. (ring : Ring) (log : List Note) → MatchesLog ring self.now log → clock_of log ≡ clock
            → MayBeSent self.now log (clock + 1) plan.statement) }
        // If the statement is a lock, the reports in its proof are signed.
        ensures proofs { IfOk result (λ plan. (ring : Ring) (log : List Note) → MatchesLog ring self.now log → clock_of log ≡ clock
            → IfSome plan.statement (λ s. IsTrue (are_signed_reports ring s))) }
        // The statement is the replica's own, of this height, and can be encoded, whatever the log is.
        ensures own { IfOk result (λ plan. IfSome plan.statement (IsOwnStatement self.now)) }
        ensures spelled { IfOk result (λ plan. IfSome plan.statement IsStatement) }
        // In a lock-release round the replica sends on the locks that it holds.
        ensures sends_on { IfOk result (λ plan. (ring : Ring) (log : List Note) → MatchesLog ring self.now log → clock_of log ≡ clock
            → place_of (clock + 1) ≡ release_place → plan.ending.sends_on ≡ map frame_bytes (held_locks log)) }
        // Each of those frames reads back as a signed lock of this height.
        ensures readable { IfOk result (λ plan. (ring : Ring) (log : List Note) → MatchesLog ring self.now log
            → AllByRecursion (IsLockSentOn ring self.now.height) plan.ending.sends_on) }
    {
        // This read opens the invariant for the proof: what the instance has can be encoded.
        let _ = &self.height;
        Ok(RoundPlan {
            statement: self.chosen_statement(alloc, clock + 1)?,
            ending: self.prepare_end(alloc, clock)?,
        })
    }
}

/// The own initial value, and the values that are proper by name.
fn copies_of(alloc: Global, proper: &Proper) -> Result<(Batch, Batches), AllocError>
    ensures own { IfOk result (λ copies. copies.0 ≡ proper.now.set.own) }
    ensures explicit { IfOk result (λ copies. copies.1 ≡ proper.now.set.explicit) }
{
    let own = proper.own().copy()?;
    let explicit = Batches::from_slice(alloc, proper.explicit())?;
    Ok((own, explicit))
}

/// The values of the locks, in order.
fn copied_values(alloc: Global, locks: &[LockFrame]) -> Result<Vec<Batch>, AllocError>
    ensures { IfOk result (λ values. values.items ≡ values_of locks.now) }
{
    let mut values = Vec::with_capacity(alloc, locks.len())?;
    for lock in locks {
        values.push(lock.value().copy()?)?;
    }
    Ok(values)
}

/// The reports that find the value, from the lowest signers: at most `count`.
fn lowest_finding(
    alloc: Global,
    places: &[Option<SignedReport>],
    value: &Batch,
    count: usize,
) -> Result<Vec<SignedReport>, AllocError>
    ensures { IfOk result (λ found. found.items ≡ take count (filter (λ s. finds s.report value.now) (all_read places.now))) }
{
    let mut found = Vec::with_capacity(alloc, count)?;
    for place in places {
        if let Some(signed) = place
            && found.len() < count
            && signed.report.finds(value)
        {
            found.push(signed.copy()?)?;
        }
    }
    Ok(found)
}

/// The frames of the locks, in order, which share their bytes.
fn shared_frames(alloc: Global, locks: &[LockFrame]) -> Result<Vec<Bytes>, AllocError>
    ensures { IfOk result (λ frames. frames.items ≡ map (λ s. frame_bytes (as_statement s)) locks.now) }
{
    let mut frames = Vec::with_capacity(alloc, locks.len())?;
    for lock in locks {
        frames.push(lock.frame().share()?)?;
    }
    Ok(frames)
}
