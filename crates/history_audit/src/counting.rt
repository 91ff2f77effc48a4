//! Whether the histories are of enough different replicas.
ghost use Rattle.std.specs.Prelude.{◌≡◌, ◌+◌, ◌==◌, length, nat_le, nat_lt, map};
ghost use Rattle.std.specs.List.{list_all, list_any};
ghost use Rattle.ledger_model.specs.declared.history.History.{History as HistoryValue};
ghost use Rattle.ledger_model.specs.Audits.{all_differ, are_of_a_quorum};

use ledger_model::{Config, History, ReplicaId};

/// Whether one of the histories is of this replica.
fn is_among(histories: &[History], replica: ReplicaId) -> bool
    ensures { result ≡ list_any (λ (m : HistoryValue). m.replica == replica) histories.now }
{
    histories.iter().any(|history| history.replica == replica)
}

/// Whether no two histories are of one replica. It ends at the first that has another after it: of replicas below N there are
/// at most N others before.
fn do_replicas_differ(histories: &[History]) -> bool
    ensures { result ≡ all_differ (map (λ (m : HistoryValue). m.replica) histories.now) }
{
    match histories.split_first() {
        None => true,
        Some((first, others)) => !is_among(others, first.replica) && do_replicas_differ(others),
    }
}

/// Whether each history is of a replica of the cluster.
fn are_members(config: &Config, histories: &[History]) -> bool
    ensures { result ≡ list_all (λ (m : HistoryValue). nat_lt m.replica config.now.replicas) histories.now }
{
    histories
        .iter()
        .all(|history| history.replica.number() < config.replicas)
}

/// Whether there are as many histories as a quorum (N-t) has replicas.
fn are_enough(config: &Config, histories: &[History]) -> bool
    ensures { result ≡ nat_le config.now.replicas (length histories.now + config.now.faults) }
{
    usize::from(config.quorum()) <= histories.len()
}

/// Whether the histories are of different replicas of the cluster, and of a quorum (N-t) at least. If not, an audit finds
/// `Count`.
pub fn are_of_a_quorum(config: &Config, histories: &[History]) -> bool
    ensures { result ≡ are_of_a_quorum config.now histories.now }
{
    are_enough(config, histories) && are_members(config, histories) && do_replicas_differ(histories)
}
