//! What a replica shows of itself to HTTP. None of it is an event.
ghost use Rattle.std.specs.Prelude.{◌≡◌, ◌+◌, ◌-◌, ◌^◌, length, min, sum_by};
ghost use Rattle.key_ring.specs.Signers.{leaves_of};
ghost use Rattle.ledger_model.specs.Commits.{commits_of, pool_of};
ghost use Rattle.ledger_model.specs.Lawful.{clock_at};
ghost use Rattle.ledger_model.specs.declared.reply.Ignored.{Ignored};
ghost use Rattle.http_messages.specs.FrameCounts.{ignored_for};
ghost use Rattle.replica_core.specs.Facts.{info_reply};
ghost use Rattle.cluster_service.specs.FrameCounting.{accepted_in, ignored_in};
ghost use Rattle.cluster_service.specs.Inquiries.{IsInfo, IsPooled, IsProgress, ShowsState};

use crate::frame_counting::frame_counts;
use abci::Application;
use batch_pool::Pool;
use http_messages::ReplicaMetrics;
use http_sessions::{AppInfo, PoolSize, Progress};
use ledger_model::{Height, ReplicaId};
use locked_replica::State;

/// The metrics of a replica, under this number, with the number of frames that its inbox lost. It looks at each entry of the history to count
/// the frames in it.
pub(crate) fn metrics_of<A: Application>(
    replica: ReplicaId,
    lost: u64,
    state: &State<A>,
) -> ReplicaMetrics
    ensures replica { result.replica ≡ replica }
    ensures rounds { result.rounds ≡ clock_at state.now.entries }
    ensures height { result.height ≡ length (commits_of state.now.config state.now.id state.now.entries) }
    ensures signatures { state.now.used + result.signatures_left ≡ leaves_of state.now.secret }
    ensures pool { result.pool_transactions ≡ length (pool_of A.meaning state.now.config state.now.id state.now.entries) }
    ensures entries { result.history_entries ≡ length state.now.entries }
    ensures accepted { result.frames.accepted ≡ accepted_in state.now.entries }
    ensures ignored { (cause : Ignored) → ignored_for result.frames cause ≡ ignored_in cause state.now.entries }
    ensures lost { result.frames_lost ≡ lost }
    // The result as HTTP sees it.
    ensures shown { ShowsState A.meaning result state.now }
{
    // Used leaves are accounted for, and the key is its own: both are read for the proof.
    let _ = (state.is_mute(), state.id());
    ReplicaMetrics {
        replica,
        rounds: state.clock(),
        height: Height::new(state.height()),
        signatures_left: state.leaves_left(),
        pool_transactions: state.waiting() as u64,
        history_entries: state.len() as u64,
        frames: frame_counts(state),
        frames_lost: lost,
    }
}

/// How far a replica is.
pub(crate) fn progress_of<A: Application>(state: &State<A>) -> Progress
    ensures rounds { result.rounds ≡ clock_at state.now.entries }
    ensures height { result.height ≡ length (commits_of state.now.config state.now.id state.now.entries) }
    // The result as HTTP sees it.
    ensures shown { IsProgress A.meaning result state.now }
{
    // The history is a replay: its length is read for the proof.
    let _ = state.len();
    Progress {
        rounds: state.clock(),
        height: Height::new(state.height()),
    }
}

/// The number of bytes of the transactions in a pool, at most 2^64 - 1.
fn bytes_in(pool: &Pool) -> u64
    ensures { result ≡ min (sum_by length pool.now) (2 ^ 64 - 1) }
{
    let mut bytes = 0u64;
    for tx in pool.transactions() {
        bytes = bytes.saturating_add(tx.as_bytes().len() as u64);
    }
    bytes
}

/// How many transactions wait in a replica's pool. It looks at each of them, which are at most 1024.
pub(crate) fn pool_size<A: Application>(state: &State<A>) -> PoolSize
    ensures transactions { result.transactions ≡ length (pool_of A.meaning state.now.config state.now.id state.now.entries) }
    ensures bytes { result.bytes ≡ min (sum_by length (pool_of A.meaning state.now.config state.now.id state.now.entries)) (2 ^ 64 - 1) }
    // The result as HTTP sees it.
    ensures shown { IsPooled A.meaning result state.now }
{
    // The history is a replay: its length is read for the proof.
    let _ = state.len();
    PoolSize {
        transactions: state.waiting() as u64,
        bytes: bytes_in(state.pool()),
    }
}

/// What a replica's application says of itself.
pub(crate) fn app_info<A: Application>(state: &State<A>) -> AppInfo
    ensures kind { result.kind ≡ state.now.config.kind }
    ensures reply { record { height = result.height; hash = result.hash }
        ≡ info_reply A.meaning state.now.config.kind (commits_of state.now.config state.now.id state.now.entries) }
    // The result as HTTP sees it.
    ensures shown { IsInfo A.meaning result state.now }
{
    // The history is a replay: its length is read for the proof.
    let _ = state.len();
    let info = state.info();
    let hash = info.hash;
    AppInfo {
        kind: state.config().kind,
        height: Height::new(info.height),
        hash,
    }
}
