//! Four replicas whose answers a test sets.
use bytes::Bytes;
use client_sessions::Targets;
use http_messages::{FrameCounts, ReplicaMetrics};
use http_sessions::{AppInfo, Delivery, HttpTargets, PoolSize, Progress};
use ledger_model::{AppKind, ApplyFault, Batch, Height, QueryAnswer, ReplicaId, SubmitRefusal};
use std::alloc::Global;
use test_support::{BuildFault, batch};

/// The answer to a submit.
pub(crate) type Submitted = Result<Result<u32, SubmitRefusal>, ApplyFault>;

/// Replicas whose application has `abcd` under `abcd`, and which have the blocks 1 and 4096.
#[derive(Drop)]
pub(crate) struct Fake {
    alloc: Global,
    /// The answer to each submit.
    pub(crate) submitted: Submitted,
    /// What becomes of each transaction.
    pub(crate) delivery: Delivery,
    /// The committed height of each.
    pub(crate) heights: [u32; 4],
    /// The height of the answer to each query.
    pub(crate) found_height: u32,
    /// The answer to each query and block, if it is a fault.
    pub(crate) fault: Option<ApplyFault>,
    /// The replica whose lock guards another's state, if there is one.
    pub(crate) stranger: Option<ReplicaId>,
    /// The calls: a letter and the number of the replica for each.
    pub(crate) calls: Vec<u8>,
}

impl Fake {
    pub(crate) fn new(alloc: Global) -> Self {
        Fake {
            alloc,
            submitted: Ok(Ok(44)),
            delivery: Delivery::TimedOut,
            heights: [11, 10, 12, 12],
            found_height: 12,
            fault: None,
            stranger: None,
            calls: Vec::new(alloc),
        }
    }

    fn note(&mut self, letter: u8, replica: ReplicaId) {
        let _ = self.calls.push(letter);
        let _ = self.calls.push(b'0' | (replica.number() & 3));
    }

    fn note_or_fail(&mut self, letter: u8, replica: ReplicaId) -> Result<(), ApplyFault> {
        self.note(letter, replica);
        match self.fault {
            Some(fault) => Err(fault),
            None => Ok(()),
        }
    }

    fn note_unless_stranger(&mut self, letter: u8, replica: ReplicaId) -> Option<()> {
        self.note(letter, replica);
        match self.stranger {
            Some(stranger) if stranger.number() == replica.number() => None,
            _ => Some(()),
        }
    }
}

/// The block at a height.
fn block_at(alloc: Global, height: u32) -> Result<Option<Batch>, BuildFault> {
    match height {
        1 => Ok(Some(batch(alloc, &[])?)),
        4096 => Ok(Some(batch(alloc, &[b"a=1", b"name=satoshi"])?)),
        _ => Ok(None),
    }
}

impl Targets for Fake {
    ghost replicas = { λ _. 4 };

    ghost asks = { λ _ _ _. Unit {0} };

    fn count(&self) -> usize {
        4
    }

    fn submit(&mut self, replica: ReplicaId, _tx: &[u8]) -> Submitted {
        self.note(b'S', replica);
        self.submitted
    }

    fn query(&mut self, replica: ReplicaId, key: &[u8]) -> Result<QueryAnswer, ApplyFault> {
        self.note_or_fail(b'Q', replica)?;
        Ok(QueryAnswer {
            height: Height::new(self.found_height),
            value: if key == b"abcd".as_slice() {
                Some(Bytes::from_static(b"abcd"))
            } else {
                None
            },
        })
    }

    fn height(&mut self, replica: ReplicaId) -> Height {
        self.note(b'H', replica);
        Height::new(self.heights[usize::from(replica.number())])
    }

    fn block(&mut self, replica: ReplicaId, height: Height) -> Result<Option<Batch>, ApplyFault> {
        self.note_or_fail(b'B', replica)?;
        match block_at(self.alloc, height.number()) {
            Ok(found) => Ok(found),
            Err(_) => Err(ApplyFault::NoMemory),
        }
    }
}

impl HttpTargets for Fake {
    ghost inquires = { λ _ _ _. Unit {0} };

    fn metrics(&mut self, replica: ReplicaId) -> Option<ReplicaMetrics> {
        self.note_unless_stranger(b'M', replica)?;
        Some(ReplicaMetrics {
            replica,
            rounds: 345,
            height: Height::new(12),
            signatures_left: 1001,
            pool_transactions: 5,
            history_entries: 333,
            frames: FrameCounts {
                accepted: 271,
                ignored: [0, 0, 3, 0, 0, 0, 17, 0, 0, 0, 1],
            },
            frames_lost: 2,
        })
    }

    fn progress(&mut self, replica: ReplicaId) -> Option<Progress> {
        self.note_unless_stranger(b'G', replica)?;
        Some(Progress {
            rounds: 345,
            height: Height::new(12),
        })
    }

    fn pool(&mut self, replica: ReplicaId) -> Option<PoolSize> {
        self.note_unless_stranger(b'P', replica)?;
        Some(PoolSize {
            transactions: 31,
            bytes: 19_974,
        })
    }

    fn info(&mut self, replica: ReplicaId) -> Option<AppInfo> {
        self.note_unless_stranger(b'I', replica)?;
        Some(AppInfo {
            kind: AppKind::KvStore,
            height: Height::new(12),
            hash: [0; 32],
        })
    }

    fn spread(&mut self, replica: ReplicaId, _tx: &[u8]) {
        self.note(b'A', replica);
    }

    fn wait(&mut self, replica: ReplicaId, _tx: &[u8], _index: u32) -> Option<Delivery> {
        self.note_unless_stranger(b'W', replica)?;
        Some(self.delivery)
    }
}
