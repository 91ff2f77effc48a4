//! A running cluster: what its workers share.
ghost use Rattle.std.specs.Prelude.{◌≡◌, ℕ, ◌<◌, true, false, Some, length, slice_get, vec_len, IfOk};
ghost use Rattle.std.specs.Arc.{arc_value};
ghost use Rattle.commit_board.specs.Seats.{replicas_of, new_reader};
ghost use Rattle.cluster_workers.specs.RunningClusters.{AreDealt, AreReadersOf, AreWorkersOf, IsStateOf, first_ring};

use crate::inboxes::{Inboxes, inboxes_of};
use crate::losses::Losses;
use crate::same_cluster::{are_same, have_same_keys};
use crate::turn_taker::TurnTaker;
use crate::work_plan::WorkPlan;
use crate::worker::Worker;
use abci::Application;
use commit_board::{Board, ReaderSeat, WriterSeat};
use key_ring::KeyRing;
use ledger_model::{Config, ReplicaId, Version};
use locked_replica::{LockedReplica, State};
use std::alloc::{AllocError, Global};
use std::marker::Model;
use std::snapshot::Snapshot;
use std::sync::{Arc, Mutex};

/// The replicas of a running cluster by number, the configuration and keys that each has, the board of their heights, and how many frames
/// their inboxes lost. Threads share it by `&`.
pub struct RunningCluster<A: Application> {
    config: Config,
    ring: Arc<KeyRing>,
    replicas: Vec<Arc<LockedReplica<A>>>,
    board: Arc<Board>,
    losses: Arc<Losses>,
    /// The states with which the replicas began, which only contracts read.
    begun: Snapshot<Vec<State<A>>>,
}

// An own `Drop` keeps proofs short: an owner drops it by one call. See docs/WORKING.md.
impl<A: Application> Drop for RunningCluster<A> {
    fn drop(self) {
        let RunningCluster {
            config: _config,
            ring: _ring,
            replicas: _replicas,
            board: _board,
            losses: _losses,
            begun: _begun,
        } = self;
    }
}

impl<A: Application> Model for RunningCluster<A> {
    ghost use Rattle.std.specs.Prelude.{◌≡◌, ◌<◌, vec_len};
    ghost use Rattle.std.specs.Arc.{arc_value};
    ghost use Rattle.commit_board.specs.Seats.{replicas_of};
    ghost use Rattle.cluster_workers.specs.RunningClusters.{RunningClusterView};

    ghost Value = { RunningClusterView };

    ghost view = { λ c. record {
      replicas = vec_len c.replicas;
      board = arc_value c.board;
      config = c.config;
      ring = arc_value c.ring;
      begun = c.begun.value.items;
    } };

    ghost invariant = { λ c. (vec_len c.replicas ≡ replicas_of (arc_value c.board)) × (0 < vec_len c.replicas) };
}

/// The replicas, each behind a lock, in order.
fn lock_all<A: Application>(
    alloc: Global,
    states: Vec<State<A>>,
) -> Result<Vec<Arc<LockedReplica<A>>>, AllocError>
    ensures { IfOk result (λ replicas. vec_len replicas ≡ vec_len states) }
{
    let mut replicas = Vec::with_capacity(alloc, states.len())?;
    for state in states {
        replicas.push(Arc::new(alloc, Mutex::new(state))?)?;
    }
    Ok(replicas)
}

/// A board on which nothing is published, a writer's and a reader's seat for the worker of each replica, and `readers`
/// more readers' seats.
fn board_of(
    alloc: Global,
    config: &Config,
    readers: u32,
) -> Result<(Board, Vec<WriterSeat>, Vec<ReaderSeat>, Vec<ReaderSeat>), AllocError>
    ensures replicas { IfOk result (λ r. replicas_of r.0 ≡ config.now.replicas) }
    ensures writers { IfOk result (λ r. AreDealt r.0 0 config.now.replicas r.1.items) }
    ensures looking { IfOk result (λ r. AreReadersOf r.0 config.now.replicas r.2.items) }
    ensures reader_count { IfOk result (λ r. vec_len r.3 ≡ readers) }
    ensures readers { IfOk result (λ r. (k : ℕ) → k < readers → slice_get r.3.items k ≡ Some (new_reader r.0)) }
{
    let Some(all) = readers.checked_add(u32::from(config.replicas)) else {
        return Err(AllocError);
    };
    let (board, writing, mut reading) = Board::new(alloc, config, all)?;
    let looking = reading.split_off(readers as usize)?;
    Ok((board, writing, looking, reading))
}

/// The keys of a cluster, as its first replica has them; none if there is no replica.
fn ring_of<A: Application>(alloc: Global, states: &[State<A>]) -> Result<Arc<KeyRing>, AllocError>
    ensures { IfOk result (λ ring. arc_value ring ≡ first_ring states.now) }
{
    let ring = match states.first() {
        Some(state) => state.ring().copy()?,
        None => KeyRing::new(Vec::new(alloc)),
    };
    Ok(Arc::new(alloc, ring)?)
}

/// The replicas, each behind a lock, and the keys that they share.
fn share_all<A: Application>(
    alloc: Global,
    states: Vec<State<A>>,
) -> Result<(Vec<Arc<LockedReplica<A>>>, Arc<KeyRing>), AllocError>
    ensures replicas { IfOk result (λ r. vec_len r.0 ≡ vec_len states) }
    ensures ring { IfOk result (λ r. arc_value r.1 ≡ first_ring states.items) }
{
    let ring = ring_of(alloc, &states)?;
    Ok((lock_all(alloc, states)?, ring))
}

/// The workers of these replicas, by number. The writers' seats of the board are in the same order; each worker takes one
/// of the readers' seats. Each worker reads frames of this version, and does what the plan says. Their inboxes count the frames that they lose.
fn workers_of<A: Application>(
    alloc: Global,
    version: Version,
    board: &Arc<Board>,
    seats: Vec<WriterSeat>,
    looking: Vec<ReaderSeat>,
    replicas: &[Arc<LockedReplica<A>>],
    ring: &Arc<KeyRing>,
    losses: &Arc<Losses>,
    count: u8,
    plan: WorkPlan,
) -> Result<Vec<Worker<A>>, AllocError>
    requires seats { AreDealt (arc_value board.now) 0 count seats.items }
    requires looking { AreReadersOf (arc_value board.now) count looking.items }
    requires replicas { length replicas.now ≡ count }
    ensures { IfOk result (λ workers. AreWorkersOf (arc_value board.now) count version plan workers.items) }
{
    let Inboxes { receivers, senders } = inboxes_of(alloc, count, losses)?;
    let mut seats = seats.into_iter();
    let mut looking = looking.into_iter();
    let mut receivers = receivers.into_iter();
    let mut senders = senders.into_iter();
    let mut workers = Vec::with_capacity(alloc, usize::from(count))?;
    for number in 0..count {
        let Some(seat) = seats.next() else {
            unreachable!();
        };
        let Some(reader) = looking.next() else {
            unreachable!();
        };
        let Some(receiver) = receivers.next() else {
            unreachable!();
        };
        let Some(senders) = senders.next() else {
            unreachable!();
        };
        let replica = Arc::try_clone(&replicas[usize::from(number)])?;
        let turn_taker = TurnTaker::new(Arc::try_clone(board)?, seat, reader);
        let ring = Arc::try_clone(ring)?;
        workers.push(Worker::new(
            alloc, version, replica, turn_taker, receiver, senders, ring, plan,
        ))?;
    }
    Ok(workers)
}

impl<A: Application> RunningCluster<A> {
    /// The cluster of these replicas, which have this configuration and the keys of the first of them; a worker for each, which does
    /// what the plan says, and `readers` readers' seats of the board, besides those of the workers. The replicas must be in ascending order of their numbers, from 0 on; a
    /// worker drops its events if its replica has another number. The only error is allocation failure, which is also
    /// answered if the readers' seats, with one for each worker, are more than 2^32 - 1.
    pub fn new(
        alloc: Global,
        config: &Config,
        states: Vec<State<A>>,
        plan: WorkPlan,
        readers: u32,
    ) -> Result<(RunningCluster<A>, Vec<Worker<A>>, Vec<ReaderSeat>), AllocError>
        requires { vec_len states ≡ config.now.replicas }
        ensures replicas { IfOk result (λ r. r.0.replicas ≡ config.now.replicas) }
        ensures config { IfOk result (λ r. r.0.config ≡ config.now) }
        ensures ring { IfOk result (λ r. r.0.ring ≡ first_ring states.items) }
        // The cluster begins with these states.
        ensures begun { IfOk result (λ r. r.0.begun ≡ states.items) }
        // The worker of each replica, by number, with the cluster's board, its own inbox and those of all replicas.
        ensures workers { IfOk result (λ r. AreWorkersOf r.0.board config.now.replicas config.now.frames plan r.1.items) }
        ensures reader_count { IfOk result (λ r. vec_len r.2 ≡ readers) }
        ensures readers { IfOk result (λ r. (k : ℕ) → k < readers → slice_get r.2.items k ≡ Some (new_reader r.0.board)) }
    {
        let (board, seats, looking, reading) = board_of(alloc, config, readers)?;
        let board = Arc::new(alloc, board)?;
        let begun = Snapshot::of(&states);
        let (replicas, ring) = share_all(alloc, states)?;
        let losses = Arc::new(alloc, Losses::new(alloc, config.replicas)?)?;
        let workers = workers_of(
            alloc,
            config.frames,
            &board,
            seats,
            looking,
            &replicas,
            &ring,
            &losses,
            config.replicas,
            plan,
        )?;
        Ok((
            RunningCluster {
                config: *config,
                ring,
                replicas,
                board,
                losses,
                begun,
            },
            workers,
            reading,
        ))
    }

    /// The number of replicas.
    pub fn len(&self) -> usize
        ensures len { result ≡ self.now.replicas }
        ensures some { 0 < result }
    {
        self.replicas.len()
    }

    /// The configuration that each replica has.
    pub fn config(&self) -> &Config
        ensures { result.now ≡ self.now.config }
    {
        &self.config
    }

    /// The replica with this number. Locking it waits until no other thread has it locked.
    pub fn replica(&self, id: ReplicaId) -> &LockedReplica<A>
        requires { id < self.now.replicas }
    {
        &self.replicas[usize::from(id.number())]
    }

    /// Whether the state is that of the replica with this number. A lock doesn't tell which state it guards, so this compares the number,
    /// the configuration and the keys.
    pub fn is_state_of(&self, id: ReplicaId, state: &State<A>) -> bool
        ensures own { result ≡ true → IsStateOf self.now id state.now }
        ensures other { result ≡ false → IsStateOf self.now id state.now → ⊥ }
    {
        state.id() == id
            && are_same(state.config(), &self.config)
            && have_same_keys(state.ring(), &self.ring)
    }

    /// How many frames the full inbox of this replica has lost; 0 if there is no such replica.
    pub fn lost(&self, id: ReplicaId) -> u64 {
        self.losses.of(id)
    }

    /// The board of the committed heights.
    pub fn board(&self) -> &Board
        ensures board { result.now ≡ self.now.board }
        ensures replicas { self.now.replicas ≡ replicas_of self.now.board }
    {
        &self.board
    }
}
