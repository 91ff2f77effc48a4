//! A round ends, and the next one opens: the end is prepared, which may take memory and leaves, and then finished, which takes neither.
use crate::closings::make_nothing;
use crate::prepared::Prepared;
use crate::replay::Replay;
use crate::replica::Core;
use crate::sending::frames_to_send;
use crate::signing::{count_due, make_all};
use abci::Application;
use height_row::RoundClosing;
use instance::{RoundEffects, RoundPlan};
use ledger_model::{LastRound, RoundEnded, SentFrames};
use std::alloc::{AllocError, Global};

impl<A: Application> Replay<A> {
    ghost use Rattle.std.specs.Prelude.{◌≡◌, ◌<◌, ◌+◌, map, false, true, IfOk, IfSome};
    ghost use Rattle.std.specs.List.{AllByRecursion};
    ghost use Rattle.ledger_model.specs.Limits.{last_round};
    ghost use Rattle.ledger_model.specs.Spelling.{IsStatement};
    ghost use Rattle.instance.specs.Plans.{opened_effects, IsOwnMade};
    ghost use Rattle.height_row.specs.Heights.{height_plan};
    ghost use Rattle.replica_core.specs.Replays.{IsWithinLimits};
    ghost use Rattle.replica_core.specs.PreparedEnds.{IsPreparedFor, prepared_of, after_prepared};

    /// Prepares the end of the open round at each open height, without choosing a statement.
    pub(crate) fn prepare_ends(&self, alloc: Global) -> Result<Vec<RoundEffects>, AllocError>
        requires clock { self.now.clock < last_round }
        ensures endings { IfOk result (λ endings. endings.items ≡ map (λ row. opened_effects row (self.now.clock + 1)) self.now.rows) }
        ensures limits { IsWithinLimits self.now }
    {
        self.rows.prepare_ends(alloc, self.clock)
    }

    /// Plans the end of the open round at each open height: chooses the statement to send, and prepares the rest.
    pub(crate) fn plan_ends(&self, alloc: Global) -> Result<Vec<RoundPlan>, AllocError>
        requires clock { self.now.clock < last_round }
        ensures plans { IfOk result (λ plans. plans.items ≡ map (height_plan (self.now.clock + 1)) self.now.rows) }
        ensures spelled { IfOk result (λ plans. AllByRecursion (λ plan. IfSome plan.statement IsStatement) plans.items) }
        ensures limits { IsWithinLimits self.now }
    {
        self.rows.plan_ends(alloc, self.clock)
    }

    /// Whether the last round is open.
    pub(crate) fn is_over(&self) -> bool
        ensures over { result ≡ true → self.now.clock ≡ last_round }
        ensures goes_on { result ≡ false → self.now.clock < last_round }
    {
        self.clock >= LastRound::NUMBER
    }

    /// Prepares the end of the open round: the reply with its frames, if each height closes its round as given.
    pub(crate) fn prepare_round(
        &self,
        alloc: Global,
        closings: Vec<RoundClosing>,
        mute: bool,
    ) -> Result<Prepared, AllocError>
        requires clock { self.now.clock < last_round }
        requires endings { map (λ c. c.ending) closings.items ≡ map (λ row. opened_effects row (self.now.clock + 1)) self.now.rows }
        requires own { AllByRecursion (λ c. IsOwnMade self.now.config self.now.id c.made) closings.items }
        ensures prepared { IfOk result (λ p. p ≡ prepared_of self.now mute closings.items) }
        ensures ready { IfOk result (IsPreparedFor self.now) }
    {
        let frames = frames_to_send(alloc, &self.config, &closings)?;
        let ended = RoundEnded {
            mute,
            frames: SentFrames::new(frames),
        };
        Ok(Prepared { closings, ended })
    }

    /// Opens the next round, which closes the open round of each height as prepared. Returns the reply. Allocates nothing.
    pub(crate) fn finish_round(&mut self, prepared: Prepared) -> RoundEnded
        requires { IsPreparedFor self.old prepared }
        ensures reply { result ≡ prepared.ended }
        ensures after { self.new ≡ after_prepared self.old prepared }
    {
        let (closings, ended) = prepared.into_parts();
        self.rows.close_all(closings, self.clock);
        self.clock += 1;
        self.mute = ended.mute;
        ended
    }
}

impl<A: Application> Core<A> {
    ghost use Rattle.std.specs.Prelude.{◌≡◌, ◌<◌, ◌≤◌, ◌+◌, nat_lt, map, false, true, IfOk, IfSome, OnErr, Ok};
    ghost use Rattle.std.specs.List.{AllByRecursion};
    ghost use Rattle.ledger_model.specs.declared.event.Event.TheVariants as event;
    ghost use Rattle.ledger_model.specs.declared.reply.Reply.TheVariants as reply;
    ghost use Rattle.ledger_model.specs.Limits.{last_round};
    ghost use Rattle.ledger_model.specs.Spelling.{IsStatement};
    ghost use Rattle.key_ring.specs.Signers.{leaves_of};
    ghost use Rattle.height_row.specs.Heights.{height_plan};
    ghost use Rattle.replica_core.specs.Replays.{IsWithinLimits};
    ghost use Rattle.replica_core.specs.Steps.{IsStep, UsesLeaves};
    ghost use Rattle.replica_core.specs.PreparedEnds.{IsPreparedFor, IsEndPrepared, UsesAtMost, after_prepared, prepared_reply, after_prepared_reply};
    ghost use Rattle.replica_core.specs.Cores.{IsSameReplica, due_then, is_mute_next, is_mute_then, leaves_due, signed_next};

    /// Prepares the end of a round that is not the last one, after which the replica is mute: it signs nothing, and so chooses no
    /// statement.
    fn prepare_mute(&self, alloc: Global) -> Result<Prepared, AllocError>
        requires clock { self.now.replay.clock < last_round }
        ensures prepared { IfOk result (λ p. IsEndPrepared A.meaning self.now p self.now.keys) }
        ensures mute { IfOk result (λ p. p.ended.mute ≡ true) }
    {
        let endings = self.replay.prepare_ends(alloc)?;
        let closings = make_nothing(alloc, endings, true)?;
        self.replay.prepare_round(alloc, closings, true)
    }

    /// Prepares the end of a round at which the replica signs each statement that is due, for which it has the leaves.
    fn prepare_signed(
        &mut self,
        alloc: Global,
        plans: Vec<RoundPlan>,
    ) -> Result<Prepared, AllocError>
        requires clock { self.old.replay.clock < last_round }
        requires limits { IsWithinLimits self.old.replay }
        requires plans { plans.items ≡ map (height_plan (self.old.replay.clock + 1)) self.old.replay.rows }
        requires spelled { AllByRecursion (λ plan. IfSome plan.statement IsStatement) plans.items }
        requires loud { self.old.replay.mute ≡ false }
        requires leaves { self.old.keys.used + due_then self.old ≤ leaves_of self.old.keys.secret }
        ensures prepared { IfOk result (λ p. IsEndPrepared A.meaning self.old p self.new.keys) }
        ensures mute { IfOk result (λ p. p.ended.mute ≡ false) }
        ensures uses { UsesAtMost self.old self.new (due_then self.old) }
    {
        let closings = make_all(alloc, &mut self.signer, plans)?;
        self.replay.prepare_round(alloc, closings, false)
    }

    /// The plan for each open height as the next round opens.
    fn plan_ends(&self, alloc: Global) -> Result<Vec<RoundPlan>, AllocError>
        requires clock { self.now.replay.clock < last_round }
        ensures plans { IfOk result (λ plans. plans.items ≡ map (height_plan (self.now.replay.clock + 1)) self.now.replay.rows) }
        ensures spelled { IfOk result (λ plans. AllByRecursion (λ plan. IfSome plan.statement IsStatement) plans.items) }
        ensures limits { IsWithinLimits self.now.replay }
    {
        self.replay.plan_ends(alloc)
    }

    /// Whether fewer leaves are left than there are statements in the plans.
    fn lacks_leaves(&self, plans: &[RoundPlan]) -> bool
        requires plans { plans.now ≡ map (height_plan (self.now.replay.clock + 1)) self.now.replay.rows }
        ensures lacks { result ≡ nat_lt (leaves_of self.now.keys.secret) (self.now.keys.used + due_then self.now) }
        ensures leaves { result ≡ false → self.now.keys.used + due_then self.now ≤ leaves_of self.now.keys.secret }
    {
        let left = self.signer.leaves_left() as usize;
        left < count_due(plans)
    }

    /// Whether the last round is open.
    fn is_over(&self) -> bool
        ensures over { result ≡ true → self.now.replay.clock ≡ last_round }
        ensures goes_on { result ≡ false → self.now.replay.clock < last_round }
    {
        self.replay.is_over()
    }

    /// Prepares the end of a round that is not the last one, at a replica that is not mute: it signs the statements that are due,
    /// or becomes mute if too few leaves are left.
    fn prepare_loud(&mut self, alloc: Global) -> Result<Prepared, AllocError>
        requires clock { self.old.replay.clock < last_round }
        requires loud { self.old.replay.mute ≡ false }
        ensures prepared { IfOk result (λ p. IsEndPrepared A.meaning self.old p self.new.keys) }
        ensures mute { IfOk result (λ p. p.ended.mute ≡ is_mute_next self.old) }
        // A replica that is mute then uses none.
        ensures uses { UsesAtMost self.old self.new (signed_next self.old) }
    {
        let plans = self.plan_ends(alloc)?;
        if self.lacks_leaves(&plans) {
            self.prepare_mute(alloc)
        } else {
            self.prepare_signed(alloc, plans)
        }
    }

    /// Prepares the end of a round that is not the last one: the replica signs the statements that are due, or is mute from now on.
    fn prepare_open(&mut self, alloc: Global) -> Result<Prepared, AllocError>
        requires clock { self.old.replay.clock < last_round }
        ensures prepared { IfOk result (λ p. IsEndPrepared A.meaning self.old p self.new.keys) }
        ensures mute { IfOk result (λ p. p.ended.mute ≡ is_mute_next self.old) }
        ensures uses { UsesAtMost self.old self.new (signed_next self.old) }
    {
        if self.is_mute() {
            self.prepare_mute(alloc)
        } else {
            self.prepare_loud(alloc)
        }
    }

    /// Prepares the end of the open round: signs the statements that are due, and builds the reply with its frames. Nothing changes
    /// but the leaves that are used. Returns `LastRound` if the last round is open.
    ///
    /// [`finish_end`](Core::finish_end) then ends the round. The only error is allocation failure, after which some leaves may be used.
    pub fn prepare_end(&mut self, alloc: Global) -> Result<Result<Prepared, LastRound>, AllocError>
        // It is prepared for the core as it is now.
        ensures ready { IfOk result (λ r. IfOk r (IsPreparedFor self.new.replay)) }
        // After every history that the core matches, the reply is lawful and signed, and what the core becomes then matches the
        // history with this entry.
        ensures step { IfOk result (λ r. IsStep A.meaning self.old.replay event.RoundEnd (reply.RoundEnded (prepared_reply r))
            (after_prepared_reply self.old.replay r)) }
        // Which leaves sign the statements, in which order.
        ensures leaves { IfOk result (λ r. UsesLeaves self.old.keys self.old.replay.clock (reply.RoundEnded (prepared_reply r)) self.new.keys) }
        // The core is mute then if it was before, or if it had more statements to sign than leaves were left.
        ensures mute { IfOk result (λ r. (after_prepared_reply self.old.replay r).mute ≡ is_mute_then self.old event.RoundEnd) }
        ensures uses { UsesAtMost self.old self.new (leaves_due self.old event.RoundEnd) }
    {
        if self.is_over() {
            return Ok(Err(LastRound));
        }
        Ok(Ok(self.prepare_open(alloc)?))
    }

    /// Ends the round as prepared, and opens the next one. Returns the reply. It takes the end that this core prepared, if nothing
    /// changed the core since. Allocates nothing.
    pub fn finish_end(&mut self, prepared: Prepared) -> RoundEnded
        requires { IsPreparedFor self.old.replay prepared }
        ensures reply { result ≡ prepared.ended }
        ensures after { self.new ≡ record self.old { replay = after_prepared self.old.replay prepared } }
    {
        self.replay.finish_round(prepared)
    }

    /// Ends a round and opens the next one: the replica signs the statements that are due, or is mute from now on.
    pub(crate) fn end_round(
        &mut self,
        alloc: Global,
    ) -> Result<Result<RoundEnded, LastRound>, AllocError>
        ensures step { IfOk result (λ r. IsStep A.meaning self.old.replay event.RoundEnd (reply.RoundEnded r) self.new.replay) }
        ensures leaves { IfOk result (λ r. UsesLeaves self.old.keys self.old.replay.clock (reply.RoundEnded r) self.new.keys) }
        ensures mute { IfOk result (λ _. self.new.replay.mute ≡ is_mute_then self.old event.RoundEnd) }
        ensures err { OnErr result (self.new ≡ record self.old { keys = self.new.keys }) }
        ensures least { self.old.keys.used ≤ self.new.keys.used }
        ensures most { self.new.keys.used ≤ self.old.keys.used + leaves_due self.old event.RoundEnd }
        ensures same { IsSameReplica self.old self.new }
    {
        match self.prepare_end(alloc)? {
            Ok(prepared) => Ok(Ok(self.finish_end(prepared))),
            Err(last) => Ok(Err(last)),
        }
    }
}
