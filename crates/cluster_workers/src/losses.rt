//! How many frames the full inboxes of a cluster lost.
use ledger_model::ReplicaId;
use std::alloc::{AllocError, Global};
use std::sync::atomic::{AtomicU64, Ordering};

/// A count for each inbox, by the number of its replica. Threads share it by `&`.
#[derive(Drop)]
pub(crate) struct Losses {
    counts: Vec<AtomicU64>,
}

impl Losses {
    /// Counts for this number of inboxes, which have lost no frame.
    pub(crate) fn new(alloc: Global, inboxes: u8) -> Result<Self, AllocError> {
        let mut counts = Vec::with_capacity(alloc, usize::from(inboxes))?;
        for _inbox in 0..inboxes {
            counts.push(AtomicU64::new(0))?;
        }
        Ok(Losses { counts })
    }

    /// Counts one more frame, which the inbox of this replica lost.
    pub(crate) fn add(&self, replica: ReplicaId) {
        if let Some(count) = self.counts.get(usize::from(replica.number())) {
            count.fetch_add(1, Ordering::SeqCst);
        }
    }

    /// How many frames the inbox of this replica has lost; 0 if there is no such inbox.
    pub(crate) fn of(&self, replica: ReplicaId) -> u64 {
        match self.counts.get(usize::from(replica.number())) {
            Some(count) => count.load(Ordering::SeqCst),
            None => 0,
        }
    }
}
