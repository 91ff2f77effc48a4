//! Clusters that run in threads of this process, on wall-clock time.
ghost use Rattle.std.specs.Prelude.{◌≡◌, vec_len, IfErr, IfOk};
ghost use Rattle.cluster_setup.specs.Keys.{ring_of};
ghost use Rattle.cluster_service.specs.Reporting.{AreTaken};
ghost use Rattle.cluster_service.specs.RunFaults.{IsRunFault};
ghost use Rattle.cluster_service.specs.Services.{IsRunOf, pace_of, work_plan_of};

use crate::final_histories::{FinalHistories, take_all};
use crate::replicas::{NewReplicas, new_replicas};
use abci::Application;
use app_states::Opening;
use byte_streams::{ProgramFault, Resource};
use cluster_reports::{Notice, ReportingGate, SharedStatus};
use cluster_setup::ClusterSettings;
use cluster_workers::{
    EndedRun, MachineClock, Pace, RunningCluster, Stop, WorkPlan, Worker, run_all,
};
use std::alloc::Global;
use std::marker::Model;
use std::random::RandomSource;
use std::sync::Wait;
use std::thread::Threads;
use std::time::Clock;

/// The gate of a cluster's workers, which stores how the replicas stand, and whether clients are served. It begins with what is to be known before the keys are made.
pub(crate) fn new_gate<'a, R: Wait>(
    rt: &'a R,
    settings: &ClusterSettings,
    status: &'a SharedStatus,
    serves: bool,
) -> ReportingGate<'a, R> {
    let gate = ReportingGate::new(rt, status);
    if settings.cluster.seed == [0; 32] {
        gate.tell(Notice::DefaultSeed { serves });
    }
    gate.tell(Notice::Keys(settings.cluster.config.replicas));
    gate
}

/// What each worker of a cluster with these settings is to do.
pub(crate) fn work_plan_of(settings: &ClusterSettings) -> WorkPlan
    ensures { result ≡ work_plan_of settings.now }
{
    WorkPlan {
        rounds: settings.rounds,
        creates_empty_blocks: settings.creates_empty_blocks,
    }
}

/// How long the rounds of a cluster with these settings last.
fn pace_of(settings: &ClusterSettings) -> Pace
    ensures { result ≡ pace_of settings.now }
{
    Pace {
        base_ms: settings.base_ms,
        is_steady: settings.is_steady,
    }
}

/// A cluster that is to run: its settings, its workers, the gate that stores how they stand, and what can ask them to stop. Contracts see it
/// as the run that it will have been.
pub(crate) struct PreparedRun<'a, A: Application, R: Wait> {
    pub(crate) settings: &'a ClusterSettings,
    pub(crate) cluster: &'a RunningCluster<A>,
    pub(crate) workers: Vec<Worker<A>>,
    pub(crate) gate: &'a ReportingGate<'a, R>,
    pub(crate) stop: &'a Stop,
}

impl<'a, A: Application, R: Wait> Model for PreparedRun<'a, A, R> {
    ghost use Rattle.cluster_workers.specs.RunningClusters.{EndedRunView};
    ghost use Rattle.cluster_service.specs.Services.{pace_of};

    ghost Value = { EndedRunView };

    ghost view = { λ p. record { cluster = p.cluster.now; workers = p.workers.items; pace = pace_of p.settings.now } };
}

// An own `Drop` keeps proofs short: an owner drops it by one call. See docs/WORKING.md.
impl<A: Application, R: Wait> Drop for PreparedRun<'_, A, R> {
    fn drop(self) {
        let PreparedRun {
            settings: _settings,
            cluster: _cluster,
            workers: _workers,
            gate: _gate,
            stop: _stop,
        } = self;
    }
}

impl<A: Application + Send, R: Clock + Threads + Wait + Sync> PreparedRun<'_, A, R> {
    /// Runs the workers until their rounds are over, or the cluster is asked to stop.
    pub(crate) fn run(self, rt: &R) -> Result<EndedRun<A>, ProgramFault>
        ensures ran { IfOk result (λ ran. ran ≡ self.entry) }
        ensures fault { IfErr result IsRunFault }
    {
        let PreparedRun {
            settings,
            cluster,
            workers,
            gate,
            stop,
        } = self;
        let clock = match MachineClock::start(rt, pace_of(settings)) {
            Ok(clock) => clock,
            Err(error) => return Err(ProgramFault::Refused(Resource::Clock, error)),
        };
        match run_all(rt, cluster, workers, &clock, gate, stop) {
            Some(ran) => Ok(ran),
            None => Err(ProgramFault::NoThread),
        }
    }
}

/// A cluster that has run to its end: what its replicas have, and what ran.
pub struct EndedCluster<A: Application> {
    pub histories: FinalHistories,
    pub run: EndedRun<A>,
}

/// Makes a cluster and runs it. Returns what its replicas have at the end.
fn run_through<'a, A, R>(
    rt: &R,
    alloc: Global,
    settings: &'a ClusterSettings,
    gate: &'a ReportingGate<'a, R>,
    stop: &'a Stop,
) -> Result<EndedCluster<A>, ProgramFault>
where
    A: Opening + Send,
    R: Clock + RandomSource + Threads + Wait + Sync,
    ensures each { IfOk result (λ end. vec_len end.histories.heights ≡ settings.now.cluster.config.replicas) }
    ensures taken { IfOk result (λ end. AreTaken A.meaning settings.now.cluster.config end.histories.ring 0 end.histories.histories.items
        end.histories.heights.items) }
    ensures ring { IfOk result (λ end. end.histories.ring ≡ ring_of settings.now.cluster) }
    ensures run { IfOk result (λ end. IsRunOf A.meaning settings.now end.run) }
    ensures fault { IfErr result IsRunFault }
{
    let config = &settings.cluster.config;
    let NewReplicas { states, ring } = new_replicas(rt, alloc, &settings.cluster, &settings.tx)?;
    let plan = work_plan_of(settings);
    let (cluster, workers, _) = RunningCluster::new(alloc, config, states, plan, 0)?;
    let prepared = PreparedRun {
        settings: &*settings,
        cluster: &cluster,
        workers,
        gate: &*gate,
        stop: &*stop,
    };
    let run = prepared.run(rt)?;
    gate.tell(end_of(stop, Notice::RoundsOver));
    gate.wait_for_end();
    let histories = take_all(rt, alloc, &cluster, ring)?;
    Ok(EndedCluster { histories, run })
}

/// Runs a cluster until its rounds are over, or it is asked to stop, and then takes the history of each replica, by number. How it
/// stands is stored in `status`.
pub fn run_cluster<A, R>(
    rt: &R,
    alloc: Global,
    settings: &ClusterSettings,
    status: &SharedStatus,
    stop: &Stop,
) -> Result<EndedCluster<A>, ProgramFault>
where
    A: Opening + Send,
    R: Clock + RandomSource + Threads + Wait + Sync,
    ensures each { IfOk result (λ end. vec_len end.histories.heights ≡ settings.now.cluster.config.replicas) }
    ensures taken { IfOk result (λ end. AreTaken A.meaning settings.now.cluster.config end.histories.ring 0 end.histories.histories.items
        end.histories.heights.items) }
    ensures ring { IfOk result (λ end. end.histories.ring ≡ ring_of settings.now.cluster) }
    // What was handed to threads to run is what the settings say.
    ensures run { IfOk result (λ end. IsRunOf A.meaning settings.now end.run) }
    ensures fault { IfErr result IsRunFault }
{
    let gate = new_gate(rt, settings, status, false);
    run_through(rt, alloc, settings, &gate, stop)
}

/// The notice for the end of the workers: `over`, or that the cluster was asked to stop.
pub(crate) fn end_of(stop: &Stop, over: Notice) -> Notice {
    if stop.is_asked() {
        Notice::Stopped
    } else {
        over
    }
}
