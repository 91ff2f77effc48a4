//! Tests of whose state a replica's lock guards: number, configuration and keys are compared.
use crate::replicas::{four, four_with_frames, plan, replicas};
use app_kinds::AnyKind;
use cluster_setup::ClusterSeed;
use cluster_workers::RunningCluster;
use ledger_model::ReplicaId;
use std::alloc::Global;
use std::random::RandomSource;
use std::sync::Wait;
use std::test::Fail;

/// A cluster that isn't run.
fn cluster_of<R: RandomSource>(
    rt: &R,
    alloc: Global,
    keys: &ClusterSeed,
) -> Result<RunningCluster<AnyKind>, Fail> {
    let states = replicas(rt, alloc, keys)?;
    let (cluster, _, _) = RunningCluster::new(alloc, &keys.config, states, plan(1), 0)?;
    Ok(cluster)
}

/// Whether `cluster` takes the state that replica `held` of `guarding` locks for that of its replica `asked`.
fn takes_for<R: Wait>(
    rt: &R,
    cluster: &RunningCluster<AnyKind>,
    guarding: &RunningCluster<AnyKind>,
    asked: u8,
    held: u8,
) -> Option<bool> {
    if usize::from(held) >= guarding.len() {
        return None;
    }
    let state = guarding.replica(ReplicaId::new(held)).lock(rt);
    Some(cluster.is_state_of(ReplicaId::new(asked), &*state))
}

/// The first numbers asked and held, of four each, for which the answer isn't that they are the same and `is_own`.
fn first_mistaken<R: Wait>(
    rt: &R,
    cluster: &RunningCluster<AnyKind>,
    guarding: &RunningCluster<AnyKind>,
    is_own: bool,
) -> Option<(u8, u8)> {
    for asked in 0..4 {
        for held in 0..4 {
            let wanted = is_own && asked == held;
            if takes_for(rt, cluster, guarding, asked, held) != Some(wanted) {
                return Some((asked, held));
            }
        }
    }
    None
}

#[test]
fn a_state_is_that_of_its_number(rt: HostRuntime) -> Result<(), Fail> {
    let cluster = cluster_of(&rt, rt.alloc(), &four()?)?;
    assert_eq!(rt; first_mistaken(&rt, &cluster, &cluster, true), None);
    Ok(())
}

#[test]
fn a_state_of_another_configuration_is_a_strangers(rt: HostRuntime) -> Result<(), Fail> {
    let alloc = rt.alloc();
    let cluster = cluster_of(&rt, alloc, &four()?)?;
    let other = cluster_of(&rt, alloc, &four_with_frames(2)?)?;
    assert_eq!(rt; first_mistaken(&rt, &cluster, &other, false), None);
    Ok(())
}

#[test]
fn a_state_with_other_keys_is_a_strangers(rt: HostRuntime) -> Result<(), Fail> {
    let alloc = rt.alloc();
    let keys = four()?;
    let cluster = cluster_of(&rt, alloc, &keys)?;
    let others = ClusterSeed {
        config: keys.config,
        params: keys.params,
        seed: [1; 32],
    };
    let other = cluster_of(&rt, alloc, &others)?;
    assert_eq!(rt; first_mistaken(&rt, &cluster, &other, false), None);
    Ok(())
}
