//! Audits of histories that were taken while a cluster ran, and after its rounds.
ghost use Rattle.std.specs.Prelude.{◌≡◌};

use crate::cluster_tests::{first_behind, reader_of};
use crate::history_gate::{HistoryGate, SETS, histories};
use crate::quiet_clock::QuietClock;
use crate::replicas::{four, plan, replicas};
use app_kinds::AnyKind;
use app_states::new_apps;
use cluster_workers::{NoGate, RunningCluster, Stop, Worker, run_all};
use history_audit::{AuditFault, audit};
use key_ring::KeyRing;
use ledger_model::{Config, History, ReplicaId};
use std::alloc::{AllocError, Global};
use std::hash::RandomState;
use std::sync::Wait;
use std::test::Fail;
use std::thread::Threads;

/// The rounds in which the sets of histories are taken.
const ROUNDS: u32 = 32;

/// The rounds of four phases, in which each replica decides the block of height 1.
const FIRST_ROUNDS: u32 = 16;

/// What an audit returned.
#[derive(Clone, Copy, Debug, PartialEq, Eq)]
enum Outcome {
    /// A ledger with this number of blocks.
    Ledger(usize),
    Unsent,
    /// A fault that no history of a replica that doesn't lie shows.
    Wrong,
}

/// The cluster's configuration and keys, with the random keys of hashes.
#[derive(Drop)]
struct Auditor {
    config: Config,
    ring: KeyRing,
    random: RandomState,
}

impl Auditor {
    /// What an audit of these histories returns.
    fn outcome(&self, alloc: Global, histories: &[History]) -> Result<Outcome, Fail> {
        let config = &self.config;
        let apps = new_apps::<AnyKind>(alloc, config.kind, usize::from(config.replicas))?;
        Ok(
            match audit(alloc, config, &self.ring, histories, apps, self.random) {
                Ok(ledger) => Outcome::Ledger(ledger.blocks().len()),
                Err(AuditFault::Unsent { .. }) => Outcome::Unsent,
                Err(_) => Outcome::Wrong,
            },
        )
    }

    /// The first of these sets whose histories aren't replays, if there is one.
    fn first_wrong_set(&self, alloc: Global, sets: &[Vec<History>]) -> Result<Option<usize>, Fail> {
        for (index, set) in sets.iter().enumerate() {
            if self.outcome(alloc, set)? == Outcome::Wrong {
                return Ok(Some(index));
            }
        }
        Ok(None)
    }
}

/// The greatest committed height of these replicas.
fn greatest_height<R: Wait>(rt: &R, cluster: &RunningCluster<AnyKind>, replicas: u8) -> u32
    requires { replicas ≡ cluster.now.replicas }
{
    let mut greatest = 0;
    for id in 0..replicas {
        let height = cluster.replica(ReplicaId::new(id)).lock(rt).height();
        greatest = height.max(greatest);
    }
    greatest
}

/// The keys of a cluster, as its first replica has them.
fn ring_of<R: Wait>(rt: &R, cluster: &RunningCluster<AnyKind>) -> Result<KeyRing, AllocError> {
    // The cluster has a replica: their number is read for the proof.
    let _ = cluster.len();
    cluster.replica(ReplicaId::new(0)).lock(rt).ring().copy()
}

/// Runs the cluster to the end, and returns the sets of histories that were taken meanwhile.
fn run<R: Threads + Wait + Sync>(
    rt: &R,
    alloc: Global,
    cluster: &RunningCluster<AnyKind>,
    workers: Vec<Worker<AnyKind>>,
) -> Result<Vec<Vec<History>>, Fail> {
    let clock = QuietClock::new(rt, alloc, cluster.len())?;
    let gate = HistoryGate::new(rt, alloc, cluster);
    let ran = run_all(rt, cluster, workers, &clock, &gate, &Stop::new());
    if ran.is_some() && !clock.has_note() {
        Ok(gate.sets())
    } else {
        Err(Fail::from("the cluster did not run to its end"))
    }
}

/// What an audit of the histories of the cluster returns, and what it has to return after the run.
fn outcomes_after<R: Wait>(
    rt: &R,
    alloc: Global,
    cluster: &RunningCluster<AnyKind>,
    auditor: &Auditor,
) -> Result<[Outcome; 2], Fail>
    requires { auditor.now.config.replicas ≡ cluster.now.replicas }
{
    let after = histories(rt, alloc, cluster, 0)?;
    let height = greatest_height(rt, cluster, auditor.config.replicas);
    Ok([
        auditor.outcome(alloc, &after)?,
        Outcome::Ledger(height as usize),
    ])
}

#[test]
fn histories_of_a_running_cluster_are_replays(rt: HostRuntime) -> Result<(), Fail> {
    let alloc = rt.alloc();
    let keys = four()?;
    let states = replicas(&rt, alloc, &keys)?;
    let (cluster, workers, _) = RunningCluster::new(alloc, &keys.config, states, plan(ROUNDS), 0)?;
    let auditor = Auditor {
        config: keys.config,
        ring: ring_of(&rt, &cluster)?,
        random: RandomState::new(&rt)?,
    };
    let sets = run(&rt, alloc, &cluster, workers)?;
    assert_eq!(rt; sets.len(), SETS);
    assert_eq!(rt; auditor.first_wrong_set(alloc, &sets)?, None);
    let [after, wanted] = outcomes_after(&rt, alloc, &cluster, &auditor)?;
    assert_eq!(rt; after, wanted);
    assert!(rt; after != Outcome::Ledger(0));
    Ok(())
}

#[test]
fn sixteen_rounds_commit_one_ledger(rt: HostRuntime) -> Result<(), Fail> {
    let alloc = rt.alloc();
    let keys = four()?;
    let states = replicas(&rt, alloc, &keys)?;
    let (cluster, workers, reading) = RunningCluster::new(
        alloc,
        &keys.config,
        states,
        plan(FIRST_ROUNDS),
        1,
    )?;
    let reader = reader_of(&cluster, reading)?;
    let clock = QuietClock::new(&rt, alloc, 4)?;
    let ran = run_all(&rt, &cluster, workers, &clock, &NoGate, &Stop::new());
    assert!(rt; ran.is_some() && !clock.has_note());
    assert_eq!(rt;
        first_behind(&rt, &cluster, reader, keys.config.replicas, 1),
        None
    );
    let auditor = Auditor {
        config: keys.config,
        ring: ring_of(&rt, &cluster)?,
        random: RandomState::new(&rt)?,
    };
    let [after, wanted] = outcomes_after(&rt, alloc, &cluster, &auditor)?;
    assert_eq!(rt; after, wanted);
    Ok(())
}
