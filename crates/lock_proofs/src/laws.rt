//! The laws by which the table of held locks keeps step with the replica's log.
ghost use Rattle.lock_proofs.specs.Laws.{BeginsEmpty, TakesALock, ReleasesLocks, KeepsLocks, ValuesAreHeld, FullAlike, StaysTimely, LogsAreTimely};

/// An empty log holds no lock.
pub fn begins_empty()
    ensures { BeginsEmpty }
{}

/// The first lock that is read in the lock round of its own phase goes into the table, and replaces one on the same value.
pub fn takes_a_lock()
    ensures { TakesALock }
{}

/// A lock that is read in the lock-release round of a phase releases the same locks in the log as in the table.
pub fn releases_locks()
    ensures { ReleasesLocks }
{}

/// A note that reads no lock leaves the held locks unchanged; the opening of a round is such a note.
pub fn keeps_locks()
    ensures { KeepsLocks }
{}

/// The values of the table are the values that a report lists as locked.
pub fn values_are_held()
    ensures { ValuesAreHeld }
{}

/// The table is full for a value exactly if the log holds locks on four others.
pub fn full_alike()
    ensures { FullAlike }
{}

/// A log stays timely as the replica adds notes of what it reads in the open round, of that round's phase.
pub fn stays_timely()
    ensures { StaysTimely }
{}

/// The log of a lawful history is timely at each height.
pub fn logs_are_timely()
    ensures { LogsAreTimely }
{}
