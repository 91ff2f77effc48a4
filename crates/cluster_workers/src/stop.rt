//! The request that a running cluster stop before its rounds are over.
use std::sync::atomic::{AtomicBool, Ordering};

/// Whether a running cluster is to stop. Threads share it.
#[derive(Drop)]
pub struct Stop {
    is_asked: AtomicBool,
}

impl Stop {
    /// A cluster that nobody has asked to stop.
    pub fn new() -> Self {
        Stop {
            is_asked: AtomicBool::new(false),
        }
    }

    /// Asks the cluster to stop. Its workers end no more rounds; they run the blocks that are decided, and then end.
    pub fn ask(&self) {
        self.is_asked.store(true, Ordering::SeqCst);
    }

    /// Whether the cluster was asked to stop.
    pub fn is_asked(&self) -> bool {
        self.is_asked.load(Ordering::SeqCst)
    }
}
