//! Makes a world: its keys, its replicas, and the liars among them.
ghost use Rattle.std.specs.Prelude.{◌≡◌, [], ◌<◌, ◌≤◌, ◌-◌, ◌↔◌, false, length, map, vec_len, All, Any, IfOk, OnOk, IsErrOf, IsTrue, if◌then◌else◌};
ghost use Rattle.std.specs.List.{range_with_len};
ghost use Rattle.std.specs.Vec.Iter.{into_iter_items};
ghost use Rattle.ledger_model.specs.Applications.{run};
ghost use Rattle.cluster_setup.specs.Keys.{ring_of, secret_of, fresh_signers, unused};
ghost use Rattle.locked_replica.specs.States.{IsMember};
ghost use Rattle.adversary_net.specs.Openings.{different, is_liar, correct_without, new_party, IsSupply, MayLie};

use crate::correct::CorrectReplica;
use crate::fault::WorldFault;
use crate::party::Party;
use crate::world::World;
use abci::Application;
use cluster_setup::{ClusterKeys, ClusterSeed, all_keys};
use key_ring::{KeyRing, Signer};
use ledger_model::{Config, ReplicaId};
use std::alloc::{AllocError, Global};
use std::hash::RandomState;
use std::vec::IntoIter;

/// Whether the replica is in the list.
fn is_among(replicas: &[ReplicaId], replica: ReplicaId) -> bool
    ensures { result ≡ is_liar replicas.now replica }
{
    replicas.contains(&replica)
}

/// The number of replicas of the cluster that are not liars. [`World::new`] takes this number of applications.
pub fn count_correct(config: &Config, liars: &[ReplicaId]) -> usize
    ensures { result ≡ length (correct_without config.now liars.now) }
{
    let mut count = 0;
    for replica in 0..config.replicas {
        if !is_among(liars, ReplicaId::new(replica)) {
            count += 1;
        }
    }
    count
}

/// The number of different replicas in the list.
fn different_of(replicas: &[ReplicaId]) -> usize
    ensures { result ≡ different replicas.now }
{
    let mut count = 0;
    for at in 0..replicas.len() {
        let replica = replicas[at];
        if !is_among(&replicas[at + 1..], replica) {
            count += 1;
        }
    }
    count
}

/// Whether the list has a replica that is not in the cluster.
fn has_stranger(config: &Config, replicas: &[ReplicaId]) -> bool
    ensures { IsTrue result ↔ Any (λ r. config.now.replicas ≤ r) replicas.now }
{
    replicas
        .iter()
        .any(|replica| replica.number() >= config.replicas)
}

/// Why these replicas may not lie, if they may not.
fn check_liars(config: &Config, liars: &[ReplicaId]) -> Result<(), WorldFault>
    ensures may { OnOk result (MayLie config.now liars.now) }
    ensures too_many { IsErrOf result WorldFault.TooManyLiars ↔ (config.now.faults < different liars.now) }
    ensures no_such { IsErrOf result WorldFault.NoSuchReplica
        ↔ ((different liars.now ≤ config.now.faults) × Any (λ r. config.now.replicas ≤ r) liars.now) }
{
    if different_of(liars) > usize::from(config.faults) {
        return Err(WorldFault::TooManyLiars);
    }
    if has_stranger(config, liars) {
        return Err(WorldFault::NoSuchReplica);
    }
    Ok(())
}

/// The applications and random keys for the correct replicas that are still to be made, in the order of their numbers.
#[derive(Drop)]
struct Supply<A: Application> {
    apps: IntoIter<A>,
    randoms: IntoIter<[RandomState; 2]>,
}

/// A correct replica with the next application and the next random keys.
fn correct_replica<A: Application>(
    alloc: Global,
    config: Config,
    id: ReplicaId,
    signer: Signer,
    ring: &KeyRing,
    supply: &mut Supply<A>,
) -> Result<CorrectReplica<A>, AllocError>
    requires member { IsMember config id ring.now signer.secret }
    requires some { 0 < length (into_iter_items supply.old.apps) }
    requires supply { IsSupply A.meaning A.machine config (length (into_iter_items supply.old.apps))
        (into_iter_items supply.old.apps) (into_iter_items supply.old.randoms) }
    ensures replica { IfOk result (λ replica. replica ≡ record {
      config = config;
      id = id;
      ring = ring.now;
      secret = signer.secret;
      used = signer.used;
      entries = [];
      machine = run A.meaning
          config.kind [];
    }) }
    ensures supply_left { IsSupply A.meaning A.machine config (length (into_iter_items supply.old.apps) - 1)
        (into_iter_items supply.new.apps) (into_iter_items supply.new.randoms) }
{
    match (supply.apps.next(), supply.randoms.next()) {
        (Some(app), Some(randoms)) => {
            CorrectReplica::new(alloc, config, id, signer, ring.copy()?, app, randoms)
        }
        _ => unreachable!(),
    }
}

/// A liar, or a correct replica to which nothing has happened.
fn party_of<A: Application>(
    alloc: Global,
    cluster: &ClusterSeed,
    liars: &[ReplicaId],
    id: ReplicaId,
    signer: Signer,
    ring: &KeyRing,
    supply: &mut Supply<A>,
) -> Result<Party<CorrectReplica<A>>, AllocError>
    requires below { id < cluster.now.config.replicas }
    requires signer { signer ≡ unused (secret_of cluster.now id) }
    requires ring { ring.now ≡ ring_of cluster.now }
    requires some { is_liar liars.now id ≡ false → 0 < length (into_iter_items supply.old.apps) }
    requires supply { IsSupply A.meaning A.machine cluster.now.config (length (into_iter_items supply.old.apps))
        (into_iter_items supply.old.apps) (into_iter_items supply.old.randoms) }
    ensures party { IfOk result (λ party. party ≡ new_party A.meaning cluster.now.config ring.now (secret_of cluster.now) liars.now id) }
    ensures supply_left { IsSupply A.meaning A.machine cluster.now.config
        (length (into_iter_items supply.old.apps) - (if is_liar liars.now id then 0 else 1))
        (into_iter_items supply.new.apps) (into_iter_items supply.new.randoms) }
{
    if is_among(liars, id) {
        return Ok(Party::Liar(signer));
    }
    let replica = correct_replica(alloc, cluster.config, id, signer, ring, supply)?;
    Ok(Party::Correct(replica))
}

/// All parties, by number.
fn parties_of<A: Application>(
    alloc: Global,
    cluster: &ClusterSeed,
    liars: &[ReplicaId],
    signers: Vec<Signer>,
    ring: &KeyRing,
    mut supply: Supply<A>,
) -> Result<Vec<Party<CorrectReplica<A>>>, AllocError>
    requires signers { signers.items ≡ fresh_signers cluster.now }
    requires ring { ring.now ≡ ring_of cluster.now }
    requires supply { IsSupply A.meaning A.machine cluster.now.config (length (correct_without cluster.now.config liars.now))
        (into_iter_items supply.apps) (into_iter_items supply.randoms) }
    ensures { IfOk result (λ parties. parties.items
        ≡ map (new_party A.meaning cluster.now.config ring.now (secret_of cluster.now) liars.now) (range_with_len 0 cluster.now.config.replicas)) }
{
    let mut parties = Vec::with_capacity(alloc, signers.len())?;
    let mut signers = signers.into_iter();
    for replica in 0..cluster.config.replicas {
        let Some(signer) = signers.next() else {
            unreachable!();
        };
        let id = ReplicaId::new(replica);
        let party = party_of(alloc, cluster, liars, id, signer, ring, &mut supply)?;
        parties.push(party)?;
    }
    Ok(parties)
}

impl<A: Application> World<A> {
    ghost use Rattle.ledger_model.specs.Timelines.{AreReplicas};
    ghost use Rattle.ledger_model.specs.Worlds.{beginning};
    ghost use Rattle.adversary_net.specs.WorldViews.{world_of};
    ghost use Rattle.adversary_net.specs.Openings.{new_cluster};

    /// The world of a cluster in which `liars` lie. Each correct replica gets an application and two random keys, in
    /// ascending order of their numbers. The applications must be in their opening state, of the cluster's kind. All
    /// key pairs are computed here, once.
    ///
    /// `TooManyLiars` comes exactly if more than `t` different replicas are to lie. `NoSuchReplica` comes exactly if no
    /// more than `t` are, but one of them is not in the cluster. `NoMemory` comes if memory runs out.
    pub fn new(
        alloc: Global,
        cluster: &ClusterSeed,
        liars: &[ReplicaId],
        apps: Vec<A>,
        randoms: Vec<[RandomState; 2]>,
    ) -> Result<Self, WorldFault>
        // There is one application, and one pair of random keys, for each correct replica.
        requires apps { MayLie cluster.now.config liars.now → vec_len apps ≡ length (correct_without cluster.now.config liars.now) }
        requires randoms { MayLie cluster.now.config liars.now → vec_len randoms ≡ length (correct_without cluster.now.config liars.now) }
        requires opening { All (λ app. A.machine app ≡ run A.meaning cluster.now.config.kind []) apps.items }
        ensures new { IfOk result (λ world. world ≡ new_cluster A.meaning cluster.now.config (secret_of cluster.now) liars.now) }
        // In terms of the definitions, it is a world in which nothing has happened.
        ensures begins { IfOk result (λ world. world_of world ≡ beginning (correct_without cluster.now.config liars.now)) }
        ensures replicas { OnOk result (AreReplicas cluster.now.config (correct_without cluster.now.config liars.now)) }
        ensures too_many { IsErrOf result WorldFault.TooManyLiars ↔ (cluster.now.config.faults < different liars.now) }
        ensures no_such { IsErrOf result WorldFault.NoSuchReplica
            ↔ ((different liars.now ≤ cluster.now.config.faults) × Any (λ r. cluster.now.config.replicas ≤ r) liars.now) }
    {
        check_liars(&cluster.config, liars)?;
        let ClusterKeys { signers, ring } = all_keys(alloc, cluster)?;
        let supply = Supply {
            apps: apps.into_iter(),
            randoms: randoms.into_iter(),
        };
        Ok(World {
            config: cluster.config,
            parties: parties_of(alloc, cluster, liars, signers, &ring, supply)?,
            ring,
            order: Vec::new(alloc),
        })
    }
}
