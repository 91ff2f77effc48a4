//! Plays the commands of a scenario one by one, and writes the lines of each.
ghost use Rattle.std.specs.Prelude.{[], ◌∷◌, not, MatchResult, if◌then◌else◌, IfErr};
ghost use Rattle.std.specs.List.{flat_map};
ghost use Rattle.history_bytes.specs.Histories.{history_bytes};
ghost use Rattle.scenario_texts.specs.Lawful.{IsPlan};
ghost use Rattle.scenario_texts.specs.Plans.{plan_of};
ghost use Rattle.byte_streams.specs.Writing.{Writes};
ghost use Rattle.byte_streams.specs.Faults.{IsMemoryOrAsked};
ghost use Rattle.program.specs.Simulating.{PlansWritten, PlaysWritten, PlaysWrittenSome, histories_of};

use crate::opening::new_simulation;
use abci::Application;
use adversary_net::World;
use app_states::Opening;
use byte_streams::{ProgramFault, write_output};
use cluster_setup::SimulateSettings;
use history_bytes::history_bytes;
use ledger_model::History;
use scenario_texts::{Command, Scenario};
use simulation::Simulation;
use std::alloc::Global;
use std::io::Write;
use std::random::RandomSource;

/// Plays a command, and writes its lines if they are wanted.
fn play_command<A: Application, W: Write>(
    simulation: &mut Simulation<A>,
    command: &Command,
    has_lines: bool,
    writer: &mut W,
) -> Result<(), ProgramFault>
    ensures plays { MatchResult result
        (λ _. PlaysWritten A.meaning has_lines simulation.old (command.now ∷ []) simulation.new (W.contents writer.old)
        (W.contents writer.new))
        (λ _. PlaysWrittenSome A.meaning has_lines simulation.old (command.now ∷ []) (W.contents writer.old) (W.contents writer.new)) }
    ensures fault { IfErr result IsMemoryOrAsked }
{
    let lines = simulation.play(command)?;
    if has_lines {
        write_output(writer, lines.as_bytes())?;
    }
    Ok(())
}

/// Plays the commands in order, and writes the lines of each if they are wanted.
fn play_all<A: Application, W: Write>(
    simulation: &mut Simulation<A>,
    commands: &[Command],
    has_lines: bool,
    writer: &mut W,
) -> Result<(), ProgramFault>
    ensures plays { MatchResult result
        (λ _. PlaysWritten A.meaning has_lines simulation.old commands.now simulation.new (W.contents writer.old) (W.contents writer.new))
        (λ _. PlaysWrittenSome A.meaning has_lines simulation.old commands.now (W.contents writer.old) (W.contents writer.new)) }
    ensures fault { IfErr result IsMemoryOrAsked }
{
    for command in commands {
        play_command(simulation, command, has_lines, writer)?;
    }
    Ok(())
}

/// Writes each history as its bytes.
fn write_histories<W: Write>(
    alloc: Global,
    histories: &[History],
    writer: &mut W,
) -> Result<(), ProgramFault>
    ensures written { Writes result (W.contents writer.old) (W.contents writer.new) (flat_map history_bytes histories.now) }
    ensures fault { IfErr result IsMemoryOrAsked }
{
    for history in histories {
        let bytes = history_bytes(alloc, history)?;
        write_output(writer, &bytes)?;
    }
    Ok(())
}

/// Writes the histories of the correct replicas if they are wanted.
fn write_end<A: Application, W: Write>(
    alloc: Global,
    world: &World<A>,
    has_histories: bool,
    writer: &mut W,
) -> Result<(), ProgramFault>
    ensures written { Writes result (W.contents writer.old) (W.contents writer.new) (if has_histories then histories_of world.now else []) }
    ensures fault { IfErr result IsMemoryOrAsked }
{
    if !has_histories {
        return Ok(());
    }
    let histories = world.histories()?;
    write_histories(alloc, &histories, writer)
}

/// Plays a scenario, and writes either its lines, or the histories at its end.
pub(crate) fn play<A: Opening, S: RandomSource, W: Write>(
    source: &S,
    alloc: Global,
    settings: &SimulateSettings,
    scenario: &Scenario,
    writer: &mut W,
) -> Result<(), ProgramFault>
    requires { IsPlan A.words.kinds (plan_of scenario.now) }
    ensures plays { PlansWritten A.meaning result settings.now (plan_of scenario.now) (W.contents writer.old) (W.contents writer.new) }
    ensures fault { IfErr result IsMemoryOrAsked }
{
    let mut simulation = new_simulation::<A, S>(source, alloc, settings, scenario)?;
    play_all(
        &mut simulation,
        &scenario.commands,
        !settings.histories,
        writer,
    )?;
    write_end(alloc, simulation.world(), settings.histories, writer)
}
