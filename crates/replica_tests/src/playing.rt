//! Plays scenarios on a cluster, and returns the histories at their end.
ghost use Rattle.std.specs.Prelude.{◌≡◌, [], vec_len, length, All, IfOk};
ghost use Rattle.ledger_model.specs.Applications.{run};
ghost use Rattle.adversary_net.specs.Openings.{correct_without};

use crate::fault::Fault;
use crate::scripts::{Script, text_of};
use abci::Application;
use adversary_net::count_correct;
use app_kinds::AnyKind;
use app_states::new_apps;
use cluster_setup::ClusterSeed;
use ledger_model::{AppKinds, ReplicaId};
use locked_replica::Snapshot;
use scenario_texts::{Command, Scenario, Setup, read};
use simulation::Simulation;
use std::alloc::{AllocError, Global};
use std::hash::RandomState;

/// The random keys for the hashes of `count` replicas.
pub(crate) fn new_randoms(
    alloc: Global,
    random: RandomState,
    count: usize,
) -> Result<Vec<[RandomState; 2]>, AllocError>
    ensures { IfOk result (λ randoms. vec_len randoms ≡ count) }
{
    vec![in alloc; [random, random]; count]
}

/// The cluster of a scenario, with the keys of the seed of zeros.
pub(crate) fn cluster_of(setup: &Setup) -> ClusterSeed
    ensures { result.config ≡ setup.now.config }
{
    ClusterSeed {
        config: setup.config,
        params: setup.params(),
        seed: [0; 32],
    }
}

/// The number of correct replicas of a scenario.
pub(crate) fn correct_of(setup: &Setup) -> usize
    ensures { result ≡ length (correct_without setup.now.config setup.now.liars.items) }
{
    count_correct(&setup.config, &setup.liars)
}

/// The simulation of a scenario with these applications, at its start.
pub(crate) fn new_simulation<A: Application>(
    alloc: Global,
    random: RandomState,
    setup: &Setup,
    apps: Vec<A>,
) -> Result<Simulation<A>, Fault>
    requires apps { vec_len apps ≡ length (correct_without setup.now.config setup.now.liars.items) }
    requires opening { All (λ app. A.machine app ≡ run A.meaning setup.now.config.kind []) apps.items }
{
    let cluster = cluster_of(setup);
    let randoms = new_randoms(alloc, random, correct_of(setup))?;
    Ok(Simulation::new(alloc, &cluster, &setup.liars, apps, randoms)?)
}

/// The simulation of a scenario with the applications of its kind, at its start.
fn opened(alloc: Global, random: RandomState, setup: &Setup) -> Result<Simulation<AnyKind>, Fault> {
    let apps = new_apps(alloc, setup.config.kind, correct_of(setup))?;
    new_simulation(alloc, random, setup, apps)
}

/// Plays a command.
pub(crate) fn play<A: Application>(
    simulation: &mut Simulation<A>,
    command: &Command,
) -> Result<(), AllocError> {
    match simulation.play(command) {
        Ok(_) => Ok(()),
        Err(error) => Err(error),
    }
}

/// Plays commands in order.
pub(crate) fn play_all<A: Application>(
    simulation: &mut Simulation<A>,
    commands: &[Command],
) -> Result<(), AllocError> {
    for command in commands {
        play(simulation, command)?;
    }
    Ok(())
}

/// The scenario of a script.
pub(crate) fn scenario_of(alloc: Global, script: Script) -> Result<Scenario, Fault> {
    let text = text_of(alloc, script)?;
    Ok(read(alloc, AppKinds::Three, &text)?)
}

/// The simulation after a scenario was played.
fn come_of(
    alloc: Global,
    random: RandomState,
    scenario: &Scenario,
) -> Result<Simulation<AnyKind>, Fault> {
    let mut simulation = opened(alloc, random, &scenario.setup)?;
    play_all(&mut simulation, &scenario.commands)?;
    Ok(simulation)
}

/// The simulation after the text of a script was played.
pub(crate) fn played(
    alloc: Global,
    random: RandomState,
    script: Script,
) -> Result<Simulation<AnyKind>, Fault> {
    let scenario = scenario_of(alloc, script)?;
    come_of(alloc, random, &scenario)
}

/// The history of the replica with this number.
pub(crate) fn history_of<A: Application>(
    simulation: &Simulation<A>,
    replica: u8,
) -> Result<Snapshot, Fault> {
    match simulation.world().state(ReplicaId::new(replica)) {
        Some(state) => Ok(state.history()?),
        None => Err(Fault::NoHistory),
    }
}

/// The history of a replica after a script was played.
pub(crate) fn history_in(
    alloc: Global,
    random: RandomState,
    script: Script,
    replica: u8,
) -> Result<Snapshot, Fault> {
    let simulation = played(alloc, random, script)?;
    history_of(&simulation, replica)
}
