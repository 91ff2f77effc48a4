//! The threads of a cluster's workers, and what a contract knows of a run that has ended.
ghost use Rattle.std.specs.Prelude.{◌≡◌, IfSome};

use crate::gate::TurnGate;
use crate::round_clock::{Pace, RoundClock};
use crate::running_cluster::RunningCluster;
use crate::stop::Stop;
use crate::worker::Worker;
use abci::Application;
use std::marker::Model;
use std::snapshot::Snapshot;
use std::sync::Wait;
use std::thread;
use std::thread::Threads;

/// A cluster whose workers ran in threads of their own, until all had ended. Only contracts read which cluster and which workers those
/// were; [`run_all`] alone makes one.
#[derive(Drop)]
pub struct EndedRun<A: Application> {
    cluster: Snapshot<RunningCluster<A>>,
    workers: Snapshot<Vec<Worker<A>>>,
    pace: Pace,
}

impl<A: Application> Model for EndedRun<A> {
    ghost use Rattle.cluster_workers.specs.RunningClusters.{EndedRunView};

    ghost Value = { EndedRunView };

    ghost view = { λ r. record { cluster = r.cluster.value; workers = r.workers.value.items; pace = r.pace } };
}

/// Runs each worker of the cluster in a thread of its own, and returns when all have ended. If a thread can't be made, the cluster is
/// asked to stop and the result is `None`; that worker and those after it did nothing.
pub fn run_all<A, R, C, G>(
    rt: &R,
    cluster: &RunningCluster<A>,
    workers: Vec<Worker<A>>,
    clock: &C,
    gate: &G,
    stop: &Stop,
) -> Option<EndedRun<A>>
where
    A: Application + Send,
    R: Threads + Wait + Sync,
    C: RoundClock + Sync,
    G: TurnGate + Sync,
    ensures { IfSome result (λ ran. ran
        ≡ record { cluster = cluster.now; workers = workers.items; pace = C.pace clock.now }) }
{
    let ran = EndedRun {
        cluster: Snapshot::of(cluster),
        workers: Snapshot::of(&workers),
        pace: clock.pace(),
    };
    let all_ran = thread::scope(thread::scope_env(), rt, move |scope| {
        for worker in workers {
            if scope
                .spawn(move || worker.run(rt, clock, gate, stop))
                .is_err()
            {
                stop.ask();
                return false;
            }
        }
        true
    });
    if all_ran { Some(ran) } else { None }
}
