//! Why histories are not of enough different replicas.
use ledger_model::{Config, History, ReplicaId};
use std::alloc::{AllocError, Global};

/// The first replica whose history is there twice.
fn repeated(histories: &[History]) -> Option<ReplicaId> {
    let mut is_there = [false; 256];
    for history in histories {
        let place = &mut is_there[usize::from(history.replica.number())];
        if *place {
            return Some(history.replica);
        }
        *place = true;
    }
    None
}

/// The first replica that isn't one of the cluster's.
fn stranger(config: &Config, histories: &[History]) -> Option<ReplicaId> {
    histories
        .iter()
        .map(|history| history.replica)
        .find(|replica| replica.number() >= config.replicas)
}

/// What is wrong with the histories that were given.
fn given_text(alloc: Global, config: &Config, histories: &[History]) -> Result<String, AllocError> {
    let count = histories.len();
    if let Some(replica) = stranger(config, histories) {
        let number = replica.number();
        return format!(in alloc;
            "of the {count} that were given one is replica {number}'s, and the cluster has no such replica"
        );
    }
    if let Some(replica) = repeated(histories) {
        let number = replica.number();
        return format!(in alloc; "of the {count} that were given two are replica {number}'s");
    }
    format!(in alloc; "{count} were given")
}

/// How many histories an audit needs, and what is wrong with those that were given.
pub(crate) fn count_text(
    alloc: Global,
    config: &Config,
    histories: &[History],
) -> Result<String, AllocError> {
    let replicas = config.replicas;
    let needed = config.quorum();
    let given = given_text(alloc, config, histories)?;
    format!(in alloc;
        "An audit needs the histories of at least {needed} different replicas with numbers below {replicas}: {given}."
    )
}
