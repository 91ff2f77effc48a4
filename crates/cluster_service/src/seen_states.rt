//! The states that an inquiry sees under the locks of replicas. Only contracts read them.
use abci::Application;
use cluster_workers::RunningCluster;
use ledger_model::ReplicaId;
use locked_replica::State;
use std::marker::Model;
use std::snapshot::Snapshot;

/// The states that were seen. It has no bytes that a program reads.
#[derive(Drop)]
pub(crate) struct SeenStates<A: Application> {
    /// The last one.
    last: Option<Snapshot<State<A>>>,
    /// That of the replica that took a transaction, as a wait for its block looked at that replica.
    taker: Option<Snapshot<State<A>>>,
}

impl<A: Application> Model for SeenStates<A> {
    ghost use Rattle.std.specs.Prelude.{option_map};
    ghost use Rattle.cluster_service.specs.Inquiries.{SeenView};

    ghost Value = { SeenView };

    ghost view = { λ s. record { last = option_map (λ x. x.value) s.last; taker = option_map (λ x. x.value) s.taker } };
}

impl<A: Application> SeenStates<A> {
    ghost use Rattle.std.specs.Prelude.{◌≡◌, true, false, None, Some};
    ghost use Rattle.cluster_workers.specs.RunningClusters.{IsStateOf};

    /// None so far.
    pub(crate) fn new() -> Self
        ensures { result ≡ record { last = None; taker = None } }
    {
        SeenStates {
            last: None,
            taker: None,
        }
    }

    /// Notes the state that was seen under the lock of the replica with this number, and returns whether it is that replica's.
    pub(crate) fn see(
        &mut self,
        cluster: &RunningCluster<A>,
        replica: ReplicaId,
        state: &State<A>,
    ) -> bool
        ensures last { self.new ≡ record self.old { last = Some state.now } }
        ensures own { result ≡ true → IsStateOf cluster.now replica state.now }
        ensures other { result ≡ false → IsStateOf cluster.now replica state.now → ⊥ }
    {
        self.last = Some(Snapshot::of(state));
        cluster.is_state_of(replica, state)
    }

    /// Notes a state as that of the replica that took a transaction.
    pub(crate) fn see_taker(&mut self, state: &State<A>)
        ensures { self.new ≡ record self.old { taker = Some state.now } }
    {
        self.taker = Some(Snapshot::of(state));
    }
}
