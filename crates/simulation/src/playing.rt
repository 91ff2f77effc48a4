//! Plays a scenario's commands, one by one.
ghost use Rattle.std.specs.Prelude.{◌≡◌, IfOk};
ghost use Rattle.simulation.specs.Playing.{step_of};

use crate::simulation::Simulation;
use crate::telling::named;
use abci::Application;
use ledger_model::{Height, ReplicaId, WorldStep};
use printed_lines::{Text, add_info, add_refusal};
use scenario_texts::Command;
use std::alloc::AllocError;

/// The step of the world that the command stands for, if it stands for one.
fn step_of(command: &Command) -> Result<Option<WorldStep>, AllocError>
    ensures { IfOk result (λ step. step ≡ step_of command.now) }
{
    Ok(match command {
        Command::Submit { replica, bytes } => {
            Some(WorldStep::Submit(named(*replica), bytes.clone()?))
        }
        Command::Propose { replica, height } => {
            Some(WorldStep::Propose(named(*replica), *height))
        }
        Command::End { replica } => Some(WorldStep::RoundEnd(named(*replica))),
        Command::Pass { from, index, to } => Some(WorldStep::Pass {
            from: named(*from),
            index: *index as usize,
            to: named(*to),
        }),
        Command::Inject { to, bytes } => Some(WorldStep::Inject {
            to: named(*to),
            bytes: bytes.clone()?,
        }),
        Command::Execute { replica } => Some(WorldStep::Execute(named(*replica))),
        Command::Query { replica, key } => {
            let last = Height::new(0);
            Some(WorldStep::Query(named(*replica), key.copy()?, last))
        }
        Command::Retire { replica, floor } => { Some(WorldStep::Retire(named(*replica), *floor)) }
        _ => None,
    })
}

impl<A: Application> Simulation<A> {
    ghost use Rattle.std.specs.Prelude.{◌++◌, None, ℕ, List, OnOk};
    ghost use Rattle.printed_lines.specs.Lines.{step_text};
    ghost use Rattle.adversary_net.specs.WorldViews.{world_of};
    ghost use Rattle.simulation.specs.Playing.{Plays, PlaysStep, PlaysOther, IsReachedByRun, info_text};

    /// Takes a step, and appends its lines.
    fn play_step(&mut self, step: &WorldStep, out: &mut Text) -> Result<(), AllocError>
        ensures done { OnOk result ((text : List ℕ) × (PlaysStep A.meaning self.old step.now text self.new × (out.new ≡ out.old ++ text))) }
        ensures goes_on { IsReachedByRun A.meaning self.old.cluster self.new.cluster }
    {
        self.step(step, out)?;
        Ok(())
    }

    /// Appends the line about a replica's application.
    fn add_info(&self, replica: ReplicaId, out: &mut Text) -> Result<(), AllocError>
        ensures { OnOk result (out.new ≡ out.old ++ info_text A.meaning self.now.cluster.config (world_of self.now.cluster) replica) }
    {
        match self.world.info(replica) {
            Ok(info) => add_info(out, replica, &info),
            Err(refusal) => add_refusal(out, refusal),
        }
    }

    /// Plays a command that stands for no step, and appends its lines.
    #[tactic(auto, using(crate::proofs::StepLemmas::stays))]
    fn play_other(&mut self, command: &Command, out: &mut Text) -> Result<(), AllocError>
        requires { step_of command.now ≡ None }
        ensures done { OnOk result ((text : List ℕ) × (PlaysOther A.meaning self.old command.now text self.new
            × (out.new ≡ out.old ++ text))) }
        ensures goes_on { IsReachedByRun A.meaning self.old.cluster self.new.cluster }
    {
        match command {
            Command::Info { replica } => self.add_info(named(*replica), out),
            Command::Silent => self.play_silent(out),
            Command::Round => self.play_round(out),
            Command::LieReport(lie) => self.tell_report(lie, out),
            Command::LieLock(lie) => self.tell_lock(lie, lie.phase, "lie-lock cannot\n", out),
            Command::LieStale { lie, source } => {
                self.tell_lock(lie, *source, "lie-stale cannot\n", out)
            }
            Command::LieAck(lie) => self.tell_ack(lie, out),
            _ => unreachable!(),
        }
    }

    /// Plays a command, and appends its lines.
    #[tactic(auto, using(crate::proofs::StepLemmas::stays))]
    fn play_into(&mut self, command: &Command, out: &mut Text) -> Result<(), AllocError>
        ensures done { OnOk result ((text : List ℕ) × (Plays A.meaning self.old command.now text self.new × (out.new ≡ out.old ++ text))) }
        ensures goes_on { IsReachedByRun A.meaning self.old.cluster self.new.cluster }
    {
        match step_of(command)? {
            Some(step) => self.play_step(&step, out),
            None => self.play_other(command, out),
        }
    }

    /// Plays a command, and returns its lines, each with a line feed.
    ///
    /// The only error is allocation failure. The steps that were taken before it stay taken.
    pub fn play(&mut self, command: &Command) -> Result<Text, AllocError>
        ensures plays { IfOk result (λ text. Plays A.meaning self.old command.now text self.new) }
        // Whatever is returned, steps of the definitions lead from the old world to the new one.
        ensures goes_on { IsReachedByRun A.meaning self.old.cluster self.new.cluster }
    {
        let mut text = Text::new(self.allocator());
        self.play_into(command, &mut text)?;
        Ok(text)
    }
}
