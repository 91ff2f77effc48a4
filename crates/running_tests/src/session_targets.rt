//! Four replicas whose answers a test sets.
use bytes::Bytes;
use client_sessions::Targets;
use ledger_model::{ApplyFault, Batch, Height, QueryAnswer, ReplicaId, SubmitRefusal, Tx};
use std::alloc::{AllocError, Global};

/// The answer to a submit.
pub(crate) type Submitted = Result<Result<u32, SubmitRefusal>, ApplyFault>;

/// Adds an entry to the replica's history, and returns its index.
fn add_entry(entries: &mut [u32; 4], replica: ReplicaId) -> u32 {
    match entries.get_mut(usize::from(replica.number())) {
        Some(count) => {
            let index = *count;
            *count = index.saturating_add(1);
            index
        }
        None => 0,
    }
}

/// Replicas at these heights, whose blocks are all `a=1`.
#[derive(Drop)]
pub(crate) struct Fake {
    alloc: Global,
    heights: [u32; 4],
    submitted: Submitted,
    /// The number of entries of each replica's history, if submits are counted.
    entries: Option<[u32; 4]>,
    fault: Option<ApplyFault>,
    asked: u32,
    /// After this number of calls each replica is at least at height 3.
    calls_below: u32,
}

impl Fake {
    pub(crate) fn new(alloc: Global, heights: [u32; 4]) -> Self {
        Fake {
            alloc,
            heights,
            submitted: Ok(Ok(0)),
            entries: None,
            fault: None,
            asked: 0,
            calls_below: u32::MAX,
        }
    }

    /// Lets each replica be at least at height 3 after the first `calls` calls.
    pub(crate) fn rise_behind(&mut self, calls: u32) {
        self.calls_below = calls;
    }

    /// Gives each submit this answer from now on.
    pub(crate) fn answer_submits(&mut self, answer: Submitted) {
        self.submitted = answer;
    }

    /// Makes each submit an entry of its replica's history from now on. All four histories are empty now.
    pub(crate) fn count_submits(&mut self) {
        self.entries = Some([0; 4]);
    }

    /// Answers queries and blocks with a fault from now on.
    pub(crate) fn fail(&mut self, fault: ApplyFault) {
        self.fault = Some(fault);
    }

    /// The number of calls.
    pub(crate) fn asked(&self) -> u32 {
        self.asked
    }

    /// Counts one call, and returns the fault that is set.
    fn count_one(&mut self) -> Result<(), ApplyFault> {
        self.asked = self.asked.saturating_add(1);
        match self.fault {
            Some(fault) => Err(fault),
            None => Ok(()),
        }
    }

    fn height_of(&self, replica: ReplicaId) -> u32 {
        let height = self
            .heights
            .get(usize::from(replica.number()))
            .copied()
            .unwrap_or(0);
        if self.asked > self.calls_below {
            height.max(3)
        } else {
            height
        }
    }
}

/// The batch of one transaction.
fn batch(alloc: Global, bytes: &[u8]) -> Result<Option<Batch>, AllocError> {
    let Ok(tx) = Tx::new(bytes.to_vec(alloc)?) else {
        return Ok(None);
    };
    Ok(Batch::new(vec![in alloc; tx]?).ok())
}

/// The value under a key: `1` under `a`, 65,529 bytes under `l`, the longest of a reply, and one more under `m`.
fn value_of(alloc: Global, key: &[u8]) -> Result<Option<Bytes>, AllocError> {
    match key {
        b"a" => Ok(Some(Bytes::from_static(b"1"))),
        b"l" => Ok(Some(Bytes::from_vec(vec![in alloc; b'v'; 65_529]?)?)),
        b"m" => Ok(Some(Bytes::from_vec(vec![in alloc; b'v'; 65_530]?)?)),
        _ => Ok(None),
    }
}

impl Targets for Fake {
    ghost replicas = { λ _. 4 };

    ghost asks = { λ _ _ _. Unit {0} };

    fn count(&self) -> usize {
        4
    }

    fn submit(&mut self, replica: ReplicaId, _tx: &[u8]) -> Submitted {
        self.count_one()?;
        match &mut self.entries {
            Some(entries) => Ok(Ok(add_entry(entries, replica))),
            None => self.submitted,
        }
    }

    fn query(&mut self, replica: ReplicaId, key: &[u8]) -> Result<QueryAnswer, ApplyFault> {
        self.count_one()?;
        let Ok(value) = value_of(self.alloc, key) else {
            return Err(ApplyFault::NoMemory);
        };
        Ok(QueryAnswer {
            height: Height::new(self.height_of(replica)),
            value,
        })
    }

    fn height(&mut self, replica: ReplicaId) -> Height {
        self.asked = self.asked.saturating_add(1);
        Height::new(self.height_of(replica))
    }

    fn block(&mut self, replica: ReplicaId, height: Height) -> Result<Option<Batch>, ApplyFault> {
        self.count_one()?;
        if height.number() == 0 || height.number() > self.height_of(replica) {
            return Ok(None);
        }
        match batch(self.alloc, b"a=1") {
            Ok(found) => Ok(found),
            Err(_) => Err(ApplyFault::NoMemory),
        }
    }
}
