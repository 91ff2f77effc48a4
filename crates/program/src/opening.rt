//! The cluster of a scenario at its start.
ghost use Rattle.std.specs.Prelude.{◌≡◌, vec_len, IfOk, IfErr};
ghost use Rattle.scenario_texts.specs.Lawful.{IsPlan};
ghost use Rattle.scenario_texts.specs.Plans.{plan_of};
ghost use Rattle.byte_streams.specs.Faults.{IsMemoryOrAsked};
ghost use Rattle.program.specs.Simulating.{simulation_at_start};

use crate::replica::new_keys;
use adversary_net::{WorldFault, count_correct};
use app_states::{Opening, new_apps};
use byte_streams::ProgramFault;
use cluster_setup::{ClusterSeed, SimulateSettings};
use scenario_texts::Scenario;
use simulation::Simulation;
use std::alloc::Global;
use std::hash::RandomState;
use std::random::RandomSource;

/// The random keys for `count` replicas.
fn new_randoms<S: RandomSource>(
    source: &S,
    alloc: Global,
    count: usize,
) -> Result<Vec<[RandomState; 2]>, ProgramFault>
    ensures count { IfOk result (λ randoms. vec_len randoms ≡ count) }
    ensures fault { IfErr result IsMemoryOrAsked }
{
    let mut randoms = Vec::with_capacity(alloc, count)?;
    for _ in 0..count {
        randoms.push(new_keys(source)?)?;
    }
    Ok(randoms)
}

/// The cluster of a scenario at its start.
pub(crate) fn new_simulation<A: Opening, S: RandomSource>(
    source: &S,
    alloc: Global,
    settings: &SimulateSettings,
    scenario: &Scenario,
) -> Result<Simulation<A>, ProgramFault>
    requires { IsPlan A.words.kinds (plan_of scenario.now) }
    ensures opening { IfOk result (λ simulation. simulation ≡ simulation_at_start A.meaning settings.now.seed scenario.now.setup.config
        (plan_of scenario.now)) }
    ensures fault { IfErr result IsMemoryOrAsked }
{
    let setup = &scenario.setup;
    let cluster = ClusterSeed {
        config: setup.config,
        params: setup.params(),
        seed: settings.seed,
    };
    let count = count_correct(&cluster.config, &setup.liars);
    let apps = new_apps(alloc, cluster.config.kind, count)?;
    let randoms = new_randoms(source, alloc, count)?;
    match Simulation::new(alloc, &cluster, &setup.liars, apps, randoms) {
        Ok(simulation) => Ok(simulation),
        Err(WorldFault::NoMemory) => Err(ProgramFault::NoMemory),
        Err(WorldFault::TooManyLiars) => unreachable!(),
        Err(WorldFault::NoSuchReplica) => unreachable!(),
    }
}
