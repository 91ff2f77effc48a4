//! Waits until some replica has run a block that has a transaction.
ghost use Rattle.std.specs.Prelude.{◌≡◌, ℕ, ◌<◌, ◌≤◌, ◌^◌, length, slice_get, true, IfSome};
ghost use Rattle.ledger_model.specs.Audits.{is_taken};
ghost use Rattle.ledger_model.specs.Commits.{commits_of};
ghost use Rattle.cluster_service.specs.Inquiries.{AnswersWait, IsDeliveredBySome};
ghost use Rattle.cluster_service.specs.Waiting.{FindsAbove, FindsAfter};

use crate::client_access::ClientAccess;
use crate::deliveries::{delivered_above, delivered_after};
use crate::seen_states::SeenStates;
use abci::Application;
use cluster_workers::{RunningCluster, Stop};
use commit_board::ReaderSeat;
use http_sessions::Delivery;
use ledger_model::{Height, ReplicaId};
use locked_replica::{EventView, ReplyView, State};
use std::sync::Wait;
use std::thread;
use std::time::{Clock, Duration, Instant};

/// How many milliseconds pass between two looks at the committed height.
const LOOK_MS: u64 = 20;

/// The number of looks, which take at least ninety seconds.
const MOST_LOOKS: u32 = 4500;

/// How long a wait lasts at most. A block takes four rounds for each replica, and a transaction may just miss one: with four replicas it waits
/// for up to 32 rounds. At the default pace a round takes up to 2.2 seconds until the keys of tall trees end, so CometBFT's ten seconds would
/// end most waits.
const MOST_SECS: u64 = 90;

/// The number of blocks without the transaction after which it is given to the other replicas again for the first time: a block that was begun
/// before may miss it. Each further time it takes twice as many blocks, since every copy that a pool refuses uses up an entry.
const BLOCKS_WITHOUT: u32 = 2;

/// Whether a wait that began then has lasted too long. If the clock can't be read, the number of looks ends it.
fn is_over<R: Clock>(rt: &R, start: &Option<Instant>) -> bool {
    match start {
        Some(start) => match start.elapsed(rt) {
            Ok(lasted) => lasted >= Duration::from_secs(MOST_SECS),
            Err(_) => false,
        },
        None => false,
    }
}

/// A transaction that waits for a block. The entry with this index of the replica's history submitted it.
#[derive(Drop)]
pub(crate) struct Awaited<'a> {
    pub(crate) replica: ReplicaId,
    pub(crate) tx: &'a [u8],
    pub(crate) index: u32,
}

/// What a look at a replica found.
#[derive(Drop)]
pub(crate) enum LookOutcome {
    /// A block that has the transaction: its height, and the application's code for the transaction.
    Block { height: Height, code: u32 },
    /// No such block. Blocks up to this height needn't be looked at again.
    Nothing { blocks: u32 },
    /// The state isn't the replica's.
    Stranger,
}

/// Whether the entry with this index took the transaction into the replica's pool.
fn has_taken<A: Application>(state: &State<A>, index: usize, tx: &[u8]) -> bool
    ensures { result ≡ is_taken tx.now (slice_get state.now.entries index) }
{
    let Some(entry) = state.entry(index) else {
        return false;
    };
    match (entry.event(), entry.reply()) {
        (EventView::Submit(bytes), ReplyView::Submitted(Ok(()))) => tx == bytes,
        _ => false,
    }
}

/// The number of the replica's blocks: each block above it comes after the entry with this index, which took the transaction. If there is no
/// such entry, the number is such that no height is above it.
fn blocks_so_far<A: Application>(state: &State<A>, index: usize, tx: &[u8]) -> u32
    ensures { (height : ℕ) → result < height → height < 2 ^ 32 → (is_taken tx.now (slice_get state.now.entries index) ≡ true)
        × (length (commits_of state.now.config state.now.id state.now.entries) < height) }
{
    if has_taken(state, index, tx) {
        state.height()
    } else {
        u32::MAX
    }
}

/// Looks for the transaction in the entries of the replica that took it, from the submit's on.
fn look_after<A: Application, R: Wait>(
    rt: &R,
    cluster: &RunningCluster<A>,
    seen: &mut SeenStates<A>,
    awaited: &Awaited<'_>,
) -> LookOutcome
    requires { awaited.now.replica < cluster.now.replicas }
    ensures { FindsAfter A.meaning cluster.now awaited.now.replica seen.new awaited.now.tx.now awaited.now.index result }
{
    let state = cluster.replica(awaited.replica).lock(rt);
    if !seen.see(cluster, awaited.replica, &*state) {
        return LookOutcome::Stranger;
    }
    seen.see_taker(&*state);
    match delivered_after(&*state, awaited.index as usize, awaited.tx) {
        Some((height, code)) => LookOutcome::Block { height, code },
        None => LookOutcome::Nothing {
            blocks: blocks_so_far(&*state, awaited.index as usize, awaited.tx),
        },
    }
}

/// Looks for the transaction in a replica's blocks above a height.
fn look_above<A: Application, R: Wait>(
    rt: &R,
    cluster: &RunningCluster<A>,
    seen: &mut SeenStates<A>,
    replica: ReplicaId,
    tx: &[u8],
    above: u32,
) -> LookOutcome
    requires { replica < cluster.now.replicas }
    ensures found { FindsAbove A.meaning cluster.now replica seen.new tx.now above result }
    ensures taker { seen.new.taker ≡ seen.old.taker }
{
    let state = cluster.replica(replica).lock(rt);
    if !seen.see(cluster, replica, &*state) {
        return LookOutcome::Stranger;
    }
    match delivered_above(&*state, above, tx) {
        Some((height, code)) => LookOutcome::Block { height, code },
        None => LookOutcome::Nothing {
            blocks: state.height().max(above),
        },
    }
}

/// Looks for the transaction in the blocks above a height of all replicas that the board shows to have committed more, one after the other.
/// Raises the height to the last block that was looked at. A replica whose lock guards another's state shows no block.
fn look_at_all<A: Application, R: Wait>(
    rt: &R,
    cluster: &RunningCluster<A>,
    seat: &mut ReaderSeat,
    seen: &mut SeenStates<A>,
    tx: &[u8],
    above: &mut u32,
) -> Option<(Height, u32)>
    requires { seat.old.board ≡ cluster.now.board }
    ensures board { seat.new.board ≡ seat.old.board }
    ensures found { IfSome result (λ found. IsDeliveredBySome A.meaning cluster.now seen.new.last tx.now found.0 found.1) }
    ensures above { IfSome result (λ found. above.old < found.0) }
    ensures raised { above.old ≤ above.new }
    ensures taker { seen.new.taker ≡ seen.old.taker }
{
    for number in 0..=u8::MAX {
        if usize::from(number) >= cluster.len() {
            break;
        }
        let replica = ReplicaId::new(number);
        if cluster.board().read(seat, replica) > *above {
            match look_above(rt, cluster, seen, replica, tx, *above) {
                LookOutcome::Block { height, code } => return Some((height, code)),
                LookOutcome::Nothing { blocks } => *above = blocks,
                LookOutcome::Stranger => {}
            }
        }
    }
    None
}

/// Looks once more at all entries from the submit's on, when the time is over.
fn last_look<A: Application, R: Wait>(
    rt: &R,
    cluster: &RunningCluster<A>,
    seen: &mut SeenStates<A>,
    awaited: &Awaited<'_>,
) -> Option<Delivery>
    requires { awaited.now.replica < cluster.now.replicas }
    ensures { AnswersWait A.meaning cluster.now awaited.now.replica seen.new awaited.now.tx.now awaited.now.index result }
{
    match look_after(rt, cluster, seen, awaited) {
        LookOutcome::Block { height, code } => Some(Delivery::Committed { height, code }),
        LookOutcome::Nothing { .. } => Some(Delivery::TimedOut),
        LookOutcome::Stranger => None,
    }
}

/// Waits until some replica has run a block that has the transaction, at most for ninety seconds, or until it is asked to stop. First it looks
/// at the entries of the replica that took the transaction, from the submit's on. Each block that comes after those is looked at once, at the
/// first replica that the board shows to have run it. At the end it looks at the entries once more, if no block had the transaction. No lock is
/// held in between. `None` if the lock of the replica that took the transaction guards another replica's state.
///
/// After two blocks without the transaction, and then after twice as many each time, the other replicas get it again: a pool that had a former
/// copy of it has refused this one, and drops that copy with the copy's block. What a replica alone proposes may never be decided.
pub(crate) fn wait_for<A: Application, R: Clock + Wait>(
    access: &ClientAccess<'_, A, R>,
    seat: &mut ReaderSeat,
    seen: &mut SeenStates<A>,
    stop: &Stop,
    awaited: &Awaited<'_>,
) -> Option<Delivery>
    requires board { seat.old.board ≡ access.now.cluster.now.board }
    requires replica { awaited.now.replica < access.now.cluster.now.replicas }
    ensures board { seat.new.board ≡ seat.old.board }
    ensures delivery { AnswersWait A.meaning access.now.cluster.now awaited.now.replica seen.new awaited.now.tx.now awaited.now.index result }
{
    let start = Instant::now(access.rt).ok();
    let mut above = match look_after(access.rt, access.cluster, seen, awaited) {
        LookOutcome::Block { height, code } => return Some(Delivery::Committed { height, code }),
        LookOutcome::Nothing { blocks } => blocks,
        LookOutcome::Stranger => return None,
    };
    let begun = above;
    let mut blocks_without = BLOCKS_WITHOUT;
    for _look in 0..MOST_LOOKS {
        if stop.is_asked() {
            return Some(Delivery::Stopping);
        }
        if is_over(access.rt, &start) {
            break;
        }
        match look_at_all(
            access.rt,
            access.cluster,
            seat,
            seen,
            awaited.tx,
            &mut above,
        ) {
            Some((height, code)) => return Some(Delivery::Committed { height, code }),
            None => {}
        }
        if above.saturating_sub(begun) >= blocks_without {
            access.spread_again(awaited.replica, awaited.tx, begun);
            blocks_without = blocks_without.saturating_mul(2);
        }
        let _ = thread::sleep(access.rt, Duration::from_millis(LOOK_MS));
    }
    last_look(access.rt, access.cluster, seen, awaited)
}
