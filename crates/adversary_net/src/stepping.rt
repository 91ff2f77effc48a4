//! The steps of a world.
ghost use Rattle.std.specs.Prelude.{◌≡◌, ◌<◌, length, IfSome, IsSomeAnd, IfOk, OnErr};
ghost use Rattle.adversary_net.specs.WorldViews.{state_in};
ghost use Rattle.adversary_net.specs.Steps.{AppliesTo, StaysAs, answered};
ghost use Rattle.ledger_model.specs.Limits.{max_history_len};

use crate::correct::CorrectReplica;
use crate::party::Party;
use crate::world::World;
use abci::Application;
use ledger_model::{Event, ReplicaId, WorldRefusal, WorldReply, WorldStep};
use locked_replica::MAX_ENTRIES;
use std::alloc::AllocError;

/// Applies one event to a correct replica, whose history has room.
fn apply_to<A: Application>(
    party: &mut Party<CorrectReplica<A>>,
    event: Event,
) -> Result<usize, AllocError>
    requires room { IsSomeAnd (state_in party.old) (λ s. length s.entries < max_history_len) }
    ensures applied { IfOk result (λ index. IfSome (state_in party.old) (λ s. AppliesTo A.meaning s event index party.new)) }
    ensures err { OnErr result (IfSome (state_in party.old) (λ s. StaysAs s event party.new)) }
{
    let Party::Correct(replica) = party else {
        unreachable!();
    };
    replica.apply(event)
}

/// The reply to a step.
fn reply_of(outcome: Result<(ReplicaId, usize), WorldRefusal>) -> WorldReply
    ensures { result ≡ answered outcome }
{
    match outcome {
        Ok((replica, index)) => WorldReply::Done(replica, index),
        Err(refusal) => WorldReply::Refused(refusal),
    }
}

impl<A: Application> World<A> {
    ghost use Rattle.std.specs.Prelude.{◌+◌, ◌≤◌, None, Some, [], vec_len, IfErr, OnOk};
    ghost use Rattle.std.specs.Vec.{vec_capacity};
    ghost use Rattle.ledger_model.specs.declared.event.Event.{Event};
    ghost use Rattle.ledger_model.specs.Timelines.{AreReplicas};
    ghost use Rattle.ledger_model.specs.Worlds.{entries_in, asks, passes, fault_of_two, Runs, OwnMachines};
    ghost use Rattle.adversary_net.specs.WorldViews.{world_of, correct_of, machine_in, AllAccountForLeaves, AllReplay, HasRun, IsCluster, IsSameCluster, EachSignsOnce, OwnReplies, UsesAsAnswered};
    ghost use Rattle.adversary_net.specs.Headline.{IsUnforgedRun, IsOneLedger};
    ghost use Rattle.adversary_net.specs.Leaves.{AreAnswered};
    ghost use Rattle.adversary_net.specs.Steps.{Refused, IsReady, ResolvesTo, Went};

    /// Why the replica can't take an event, if it can't: the cluster lacks it, it is a liar, or its history is full.
    fn room(&self, replica: ReplicaId) -> Result<(), WorldRefusal>
        ensures ready { OnOk result ((event : Event) → IsReady self.now (asks self.now.config (world_of self.now) replica event) replica event) }
        ensures refused { IfErr result (λ fault. (event : Event)
            → Refused A.meaning self.now (asks self.now.config (world_of self.now) replica event) fault) }
    {
        if self.correct(replica)?.state().len() >= MAX_ENTRIES {
            return Err(WorldRefusal::HistoryFull);
        }
        Ok(())
    }

    /// Two correct replicas, or why a step may not name them.
    fn pair(
        &self,
        from: ReplicaId,
        to: ReplicaId,
    ) -> Result<(&CorrectReplica<A>, &CorrectReplica<A>), WorldRefusal>
        ensures from { IfOk result (λ pair. entries_in (world_of self.now) from ≡ pair.0.now.entries) }
        ensures to { IfOk result (λ pair. entries_in (world_of self.now) to ≡ pair.1.now.entries) }
        ensures no_fault { OnOk result (fault_of_two self.now.config (world_of self.now) from to ≡ None) }
        ensures fault { IfErr result (λ fault. fault_of_two self.now.config (world_of self.now) from to ≡ Some fault) }
    {
        if from.number() >= self.config.replicas || to.number() >= self.config.replicas {
            return Err(WorldRefusal::NoSuchReplica);
        }
        Ok((self.correct(from)?, self.correct(to)?))
    }

    /// The event that delivers a frame of one correct replica to another.
    fn delivery(&self, from: ReplicaId, index: usize, to: ReplicaId) -> Result<Event, WorldRefusal>
        ensures ready { IfOk result (λ event. IsReady self.now (passes self.now.config (world_of self.now) from index to) to event) }
        ensures refused { IfErr result (λ fault. Refused A.meaning self.now
            (passes self.now.config (world_of self.now) from index to) fault) }
    {
        let (sender, receiver) = self.pair(from, to)?;
        match sender.frame(index) {
            None => Err(WorldRefusal::NoSuchFrame),
            Some(_) if receiver.state().len() >= MAX_ENTRIES => Err(WorldRefusal::HistoryFull),
            Some(frame) => match frame.clone() {
                Ok(bytes) => Ok(Event::Deliver(bytes)),
                Err(_) => Err(WorldRefusal::NoMemory),
            },
        }
    }

    /// The event of a step and the replica that takes it, whose history has room; or why the step is refused.
    fn event_of(&self, step: &WorldStep) -> Result<(ReplicaId, Event), WorldRefusal>
        ensures { ResolvesTo A.meaning self.now step.now result }
    {
        match step {
            WorldStep::Submit(replica, bytes) => {
                self.room(*replica)?;
                let Ok(bytes) = bytes.clone() else {
                    return Err(WorldRefusal::NoMemory);
                };
                Ok((*replica, Event::Submit(bytes)))
            }
            WorldStep::Propose(replica, height) => {
                self.room(*replica)?;
                Ok((*replica, Event::Propose(*height)))
            }
            WorldStep::RoundEnd(replica) => {
                self.room(*replica)?;
                Ok((*replica, Event::RoundEnd))
            }
            WorldStep::Execute(replica) => {
                self.room(*replica)?;
                Ok((*replica, Event::Execute))
            }
            WorldStep::Query(replica, key, height) => {
                self.room(*replica)?;
                let Ok(key) = key.copy() else {
                    return Err(WorldRefusal::NoMemory);
                };
                Ok((*replica, Event::Query(key, *height)))
            }
            WorldStep::Retire(replica, floor) => {
                self.room(*replica)?;
                Ok((*replica, Event::Retire(*floor)))
            }
            WorldStep::Pass { from, index, to } => Ok((*to, self.delivery(*from, *index, *to)?)),
            WorldStep::Inject { to, bytes } => {
                self.room(*to)?;
                let Ok(bytes) = bytes.clone() else {
                    return Err(WorldRefusal::NoMemory);
                };
                Ok((*to, Event::Deliver(bytes)))
            }
        }
    }

    /// Takes one step. Returns the replica, and the index of the entry that was added to its history.
    fn step(&mut self, step: &WorldStep) -> Result<(ReplicaId, usize), WorldRefusal>
        ensures { Went A.meaning self.old self.new step.now (answered result) }
    {
        let (replica, event) = self.event_of(step)?;
        if self.order.reserve(1).is_err() {
            return Err(WorldRefusal::NoMemory);
        }
        let party = &mut self.parties[usize::from(replica.number())];
        let Ok(index) = apply_to(party, event) else {
            return Err(WorldRefusal::NoMemory);
        };
        match self.order.push(replica) {
            Ok(()) => Ok((replica, index)),
            Err(_) => unreachable!(),
        }
    }

    /// Takes each step and appends its reply, for which there is room.
    fn run_each(&mut self, steps: &[WorldStep], answers: &mut Vec<WorldReply>)
        requires room { vec_len answers.old + length steps.now ≤ vec_capacity answers.old }
        requires none { answers.old.items ≡ [] }
        requires cluster { IsCluster A.meaning self.old }
        ensures runs { Runs A.meaning self.old.config self.old.ring (world_of self.old) steps.now answers.new.items (world_of self.new) }
        ensures same { IsSameCluster self.old self.new }
        ensures cluster { IsCluster A.meaning self.new }
        ensures leaves { UsesAsAnswered self.old answers.new.items self.new }
        ensures each { AreAnswered A.meaning self.old steps.now answers.new.items self.new }
    {
        for step in steps {
            let outcome = self.step(step);
            let answer = reply_of(outcome);
            match answers.push(answer) {
                Ok(()) => {}
                Err(_) => unreachable!(),
            }
        }
    }

    /// Takes the steps in order, and returns a reply to each.
    ///
    /// Refusals are tested in this order: `NoSuchReplica` if the step names a replica that is not in the cluster;
    /// `Liar` if it names a liar; `NoSuchFrame` if it passes a frame that was not sent; `HistoryFull` if the history
    /// has 65,536 entries. `NoMemory` may refuse any other step, which then may have used leaves. The call itself fails
    /// only by allocation failure: it reserves the room for all replies and for the order before the first step.
    pub fn run(&mut self, steps: &[WorldStep]) -> Result<Vec<WorldReply>, AllocError>
        // What happens is a run in the sense of the definitions.
        ensures runs { IfOk result (λ answers.
            Runs A.meaning self.old.config self.old.ring (world_of self.old) steps.now answers.items (world_of self.new)) }
        ensures err { OnErr result (self.new ≡ self.old) }
        // So is everything that happened since the world was made.
        ensures since { HasRun A.meaning self.new }
        // If nothing that was accepted was forged, all of it is a run of one sequential ledger.
        ensures one_ledger { IsUnforgedRun self.new → IsOneLedger A.meaning self.new }
        ensures replicas { AreReplicas self.new.config (correct_of self.new) }
        // Each application, and each of its replies, is what it is when it runs alone on its replica's blocks.
        ensures machines { OwnMachines A.meaning self.new.config (world_of self.new).histories (machine_in A.meaning self.new) }
        ensures replies { OwnReplies A.meaning self.new.config (world_of self.new).histories }
        ensures same { IsSameCluster self.old self.new }
        // Each entry of a correct replica is lawful after those before it, and what it sends is signed.
        ensures replay { AllReplay A.meaning self.new }
        // A correct replica is mute only if too few leaves were left.
        ensures account { AllAccountForLeaves self.new }
        // In any run, no leaf signs two of the statements that a correct replica sends.
        ensures once { EachSignsOnce self.new }
        // If memory didn't run out, each replica used one leaf for each statement of its own that it sent, and no other.
        ensures leaves { IfOk result (λ answers. UsesAsAnswered self.old answers.items self.new) }
        // Step by step: if memory ran out, the replica whose round was to end may have lost as many leaves as it was to sign then,
        // and no other lost one.
        ensures each { IfOk result (λ answers. AreAnswered A.meaning self.old steps.now answers.items self.new) }
    {
        let alloc = *self.order.allocator();
        let mut answers = Vec::with_capacity(alloc, steps.len())?;
        self.order.reserve(steps.len())?;
        self.run_each(steps, &mut answers);
        Ok(answers)
    }
}
