//! Takes one step of a simulation, and prints it.
ghost use Rattle.std.specs.Prelude.{◌≡◌, slice_get};
ghost use Rattle.simulation.specs.Playing.{target, was_accepted};

use crate::simulation::Simulation;
use abci::Application;
use ledger_model::{ReplicaId, WorldReply, WorldStep};
use locked_replica::{ReplyView, State};
use printed_lines::{Text, add_entry, add_refusal, undecided_heights};
use std::alloc::AllocError;
use std::slice;

/// The replica that a step addresses.
fn target(step: &WorldStep) -> ReplicaId
    ensures { result ≡ target step.now }
{
    match step {
        WorldStep::Submit(replica, _)
        | WorldStep::Propose(replica, _)
        | WorldStep::RoundEnd(replica)
        | WorldStep::Execute(replica)
        | WorldStep::Query(replica, _, _)
        | WorldStep::Retire(replica, _) => *replica,
        WorldStep::Pass { to, .. } | WorldStep::Inject { to, .. } => *to,
    }
}

/// Whether the entry at this index delivers a frame that was accepted.
fn is_accepted<A: Application>(state: &State<A>, index: usize) -> bool
    ensures { result ≡ was_accepted (slice_get state.now.entries index) }
{
    match state.entry(index) {
        Some(entry) => matches!(entry.reply(), ReplyView::Delivered(Ok(()))),
        None => false,
    }
}

impl<A: Application> Simulation<A> {
    ghost use Rattle.std.specs.Prelude.{◌++◌, true, IfOk, OnOk};
    ghost use Rattle.ledger_model.specs.Groups.{is_correct};
    ghost use Rattle.ledger_model.specs.Worlds.{entries_in};
    ghost use Rattle.adversary_net.specs.WorldViews.{world_of};
    ghost use Rattle.adversary_net.specs.Leaves.{IsAnswered};
    ghost use Rattle.printed_lines.specs.Lines.{undecided, step_text};
    ghost use Rattle.simulation.specs.Playing.{PrintsStep, IsReachedByRun, answer_text, pass_text, is_accepting};

    /// The heights that a replica may have open and hasn't decided; none if the replica is not correct.
    fn undecided(&self, replica: ReplicaId) -> Result<Vec<u32>, AllocError>
        ensures { IfOk result (λ heights. is_correct (world_of self.now.cluster).histories replica ≡ true
            → heights.items ≡ undecided self.now.cluster.config replica (entries_in (world_of self.now.cluster) replica)) }
    {
        match self.world.state(replica) {
            Some(state) => undecided_heights(self.allocator(), state),
            None => Ok(Vec::new(self.allocator())),
        }
    }

    /// Takes a step, and returns its reply. After an error nothing has changed.
    fn take(&mut self, step: &WorldStep) -> Result<WorldReply, AllocError>
        ensures taken { IfOk result (λ answer. IsAnswered A.meaning self.old.cluster step.now answer self.new.cluster) }
        ensures lies { self.new.lies ≡ self.old.lies }
        ensures goes_on { IsReachedByRun A.meaning self.old.cluster self.new.cluster }
    {
        match self.world.run(slice::from_ref(step))?.first() {
            Some(answer) => Ok(*answer),
            None => unreachable!(),
        }
    }

    /// Whether the reply is that a delivered frame was accepted.
    fn is_accepted(&self, answer: &WorldReply) -> bool
        ensures { result ≡ is_accepting answer.now (world_of self.now.cluster) }
    {
        match answer {
            WorldReply::Done(replica, index) => match self.world.state(*replica) {
                Some(state) => is_accepted(state, *index),
                None => false,
            },
            WorldReply::Refused(_) => false,
        }
    }

    /// Appends the lines of a reply.
    fn add_answer(
        &self,
        out: &mut Text,
        undecided: &[u32],
        answer: &WorldReply,
    ) -> Result<(), AllocError>
        ensures { OnOk result (out.new ≡ out.old ++ answer_text self.now.cluster.config undecided.now answer.now (world_of self.now.cluster)) }
    {
        match answer {
            WorldReply::Done(replica, index) => match self.world.state(*replica) {
                Some(state) => add_entry(out, state, undecided, *index),
                None => Ok(()),
            },
            WorldReply::Refused(refusal) => add_refusal(out, *refusal),
        }
    }

    /// Takes a pass within a round, and appends its lines: none if the frame is accepted.
    #[tactic(auto, using(crate::proofs::StepLemmas::stays))]
    pub(crate) fn pass(&mut self, step: &WorldStep, out: &mut Text) -> Result<(), AllocError>
        ensures done { OnOk result ((given : WorldReply) × PrintsStep A.meaning pass_text self.old.cluster step.now given self.new.cluster
            out.old out.new) }
        ensures lies { self.new.lies ≡ self.old.lies }
        ensures goes_on { IsReachedByRun A.meaning self.old.cluster self.new.cluster }
    {
        let undecided = self.undecided(target(step))?;
        let answer = self.take(step)?;
        if self.is_accepted(&answer) {
            return Ok(());
        }
        self.add_answer(out, &undecided, &answer)
    }

    /// Takes a step, and appends its lines. Returns the reply.
    #[tactic(auto, using(crate::proofs::StepLemmas::stays))]
    pub(crate) fn step(
        &mut self,
        step: &WorldStep,
        out: &mut Text,
    ) -> Result<WorldReply, AllocError>
        ensures done { IfOk result (λ answer. PrintsStep A.meaning step_text self.old.cluster step.now answer self.new.cluster out.old
            out.new) }
        ensures lies { self.new.lies ≡ self.old.lies }
        ensures goes_on { IsReachedByRun A.meaning self.old.cluster self.new.cluster }
    {
        let undecided = self.undecided(target(step))?;
        let answer = self.take(step)?;
        self.add_answer(out, &undecided, &answer)?;
        Ok(answer)
    }
}
