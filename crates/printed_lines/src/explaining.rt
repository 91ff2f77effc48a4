//! A sentence for a person about the fault that an audit found.
use crate::count_text::count_text;
use crate::entry_text::accepted_text;
use history_audit::AuditFault;
use ledger_model::{Config, Entry, History, ReplicaId, history_of};
use std::alloc::{AllocError, Global};

/// The entry of this index in the replica's history.
fn entry_of(histories: &[History], replica: ReplicaId, index: usize) -> Option<&Entry> {
    history_of(histories, replica)?
        .entries
        .as_slice()
        .get(index)
}

/// What it means that a history isn't a replay.
fn not_replay_text(alloc: Global, replica: ReplicaId, index: usize) -> Result<String, AllocError> {
    let number = replica.number();
    let what = format!(in alloc;
        "Entry {index} of replica {number}'s history has another reply than the protocol allows after the entries before it, or sends something that isn't signed with the replica's key"
    )?;
    format!(in alloc;
        "{what}: the options are not those of its cluster, the history was changed, or replica {number} breaks the rules."
    )
}

/// What it means that a signer's history doesn't send what a reader accepted.
fn unsent_text(
    alloc: Global,
    histories: &[History],
    reader: ReplicaId,
    index: usize,
    signer: ReplicaId,
) -> Result<String, AllocError> {
    let statement = accepted_text(alloc, entry_of(histories, reader, index), signer)?;
    let reader = reader.number();
    let signer = signer.number();
    let what = format!(in alloc;
        "Entry {index} of replica {reader}'s history accepts {statement} that replica {signer} signed, and replica {signer}'s history doesn't send it"
    )?;
    format!(in alloc;
        "{what}: replica {signer} signed outside its history, or its history was cut, or taken before replica {reader}'s."
    )
}

/// A sentence for a person: what the fault of these histories is, and what it means. It has no line feed.
///
/// For `Unsent` it names the statement that was accepted, with its height and phase. The only error is allocation failure.
pub fn explanation(
    alloc: Global,
    config: &Config,
    histories: &[History],
    fault: &AuditFault,
) -> Result<String, AllocError> {
    match *fault {
        AuditFault::Count => count_text(alloc, config, histories),
        AuditFault::NotReplay { replica, index } => not_replay_text(alloc, replica, index),
        AuditFault::Unsent {
            reader,
            index,
            signer,
        } => unsent_text(alloc, histories, reader, index, signer),
        AuditFault::NoMemory => format!(in alloc; "Memory ran out."),
    }
}
