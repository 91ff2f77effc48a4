//! A simulated cluster, and what its liars have signed.
use crate::report_index::ReportIndex;
use abci::Application;
use adversary_net::{World, WorldFault};
use bytes::Bytes;
use cluster_setup::ClusterSeed;
use ledger_model::ReplicaId;
use std::alloc::{AllocError, Global};
use std::hash::RandomState;
use std::marker::Model;

/// A simulated cluster: the world, and the frames that its liars have signed.
pub struct Simulation<A: Application> {
    pub(crate) world: World<A>,
    pub(crate) lies: Vec<Bytes>,
    /// The reports among all these frames; no contract sees it.
    pub(crate) index: ReportIndex,
}

// An own `Drop` keeps proofs short: an owner drops it by one call. See docs/WORKING.md.
impl<A: Application> Drop for Simulation<A> {
    fn drop(self) {
        let Simulation {
            world: _world,
            lies: _lies,
            index: _index,
        } = self;
    }
}

impl<A: Application> Model for Simulation<A> {
    ghost use Rattle.simulation.specs.Playing.{SimulationView};

    ghost Value = { SimulationView };

    ghost use Rattle.simulation.specs.Indexes.{IsIndexOf};

    ghost view = { λ s. record { cluster = s.world; lies = s.lies.items } };

    ghost invariant = { λ s. IsIndexOf s.index s.world s.lies.items };
}

impl<A: Application> Simulation<A> {
    ghost use Rattle.std.specs.Prelude.{◌≡◌, ◌<◌, ◌≤◌, ◌↔◌, [], vec_len, length, All, Any, IfOk, IsErrOf};
    ghost use Rattle.ledger_model.specs.Applications.{run};
    ghost use Rattle.cluster_setup.specs.Keys.{secret_of};
    ghost use Rattle.adversary_net.specs.WorldViews.{AllAccountForLeaves, AllReplay, HasRun};
    ghost use Rattle.adversary_net.specs.Headline.{IsUnforgedRun, IsOneLedger};
    ghost use Rattle.adversary_net.specs.Openings.{MayLie, new_cluster, correct_without, different};
    ghost use Rattle.simulation.specs.Playing.{correct_in};

    /// The simulation of a cluster in which these replicas lie, as [`World::new`] makes it. Nothing has happened yet.
    pub fn new(
        alloc: Global,
        cluster: &ClusterSeed,
        liars: &[ReplicaId],
        apps: Vec<A>,
        randoms: Vec<[RandomState; 2]>,
    ) -> Result<Self, WorldFault>
        requires apps { MayLie cluster.now.config liars.now → vec_len apps ≡ length (correct_without cluster.now.config liars.now) }
        requires randoms { MayLie cluster.now.config liars.now → vec_len randoms ≡ length (correct_without cluster.now.config liars.now) }
        requires opening { All (λ app. A.machine app ≡ run A.meaning cluster.now.config.kind []) apps.items }
        ensures new { IfOk result (λ simulation. simulation ≡ record
            { cluster = new_cluster A.meaning cluster.now.config (secret_of cluster.now) liars.now; lies = [] }) }
        ensures too_many { IsErrOf result WorldFault.TooManyLiars ↔ (cluster.now.config.faults < different liars.now) }
        ensures no_such { IsErrOf result WorldFault.NoSuchReplica
            ↔ ((different liars.now ≤ cluster.now.config.faults) × Any (λ r. cluster.now.config.replicas ≤ r) liars.now) }
    {
        match World::new(alloc, cluster, liars, apps, randoms) {
            Ok(world) => Ok(Simulation {
                world,
                lies: Vec::new(alloc),
                index: ReportIndex::new(alloc),
            }),
            Err(fault) => Err(fault),
        }
    }

    /// The world as it is now. Whatever was played, the world is the end of a run of the definitions from the empty
    /// world. If nothing that was accepted was forged, the run is a run of one sequential ledger.
    pub fn world(&self) -> &World<A>
        ensures world { result.now ≡ self.now.cluster }
        ensures since { HasRun A.meaning self.now.cluster }
        ensures one_ledger { IsUnforgedRun self.now.cluster → IsOneLedger A.meaning self.now.cluster }
        // Each entry of a correct replica is lawful after those before it, and what it sends is signed.
        ensures replay { AllReplay A.meaning self.now.cluster }
        // A correct replica is mute only if too few leaves were left.
        ensures account { AllAccountForLeaves self.now.cluster }
    {
        // This call shows the proof what a world guarantees about its run.
        let _ = self.world.order();
        &self.world
    }

    /// The allocator of the simulation.
    pub(crate) fn allocator(&self) -> Global {
        *self.lies.allocator()
    }

    /// The correct replicas, in ascending order of their numbers.
    #[tactic(auto, using(crate::proofs::Ranges::filter_kept, crate::proofs::Ranges::filter_left))]
    pub(crate) fn correct(&self) -> Result<Vec<ReplicaId>, AllocError>
        ensures { IfOk result (λ correct. correct.items ≡ correct_in self.now.cluster) }
    {
        let mut correct = Vec::new(self.allocator());
        for number in 0..self.world.config().replicas {
            let replica = ReplicaId::new(number);
            if self.world.state(replica).is_some() {
                correct.push(replica)?;
            }
        }
        Ok(correct)
    }
}
