//! Worked examples: each is a fact that the definitions compute.
ghost use Rattle.ledger_laws.specs.Examples.{TwoNameOne, ThreeDiffer, TwoAgree, TwoNameAll, CutToFour, ThreeAcksDecide, LockReleased, TwoLocksHeld, ReportSpelled, FramesReadBack, BatchLimits, DigitsAndChecksums, CounterCounts, CounterChecks, PursePays, FirstEntriesReplay, OwnListingIsNoOthers, LogOfARound, LockSentOn, RoundEntriesReplay, WorldRuns};

/// The own value is proper, and so is a value that more than t others name.
pub fn two_name_one()
    ensures { TwoNameOne }
{}

/// If 2t+1 initial values are known and none of them is that of t+1 replicas, every value is proper.
pub fn three_differ()
    ensures { ThreeDiffer }
{}

/// If one initial value is that of t+1 replicas, the initial values don't make every value proper.
pub fn two_agree()
    ensures { TwoAgree }
{}

/// If more than t others report that every value is proper, every value is proper.
pub fn two_name_all()
    ensures { TwoNameAll }
{}

/// A value that only the own report lists isn't proper by name, although more than t others report that every value is proper.
pub fn own_listing_is_no_others()
    ensures { OwnListingIsNoOthers }
{}

/// At most four values are proper by name: the own one and the least three of the others.
pub fn cut_to_four()
    ensures { CutToFour }
{}

/// The owner decides if 2t+1 replicas acknowledged its lock by the time that place 3 closes.
pub fn three_acks_decide()
    ensures { ThreeAcksDecide }
{}

/// A held lock is released by a lock on another value that is read at place 4 and whose phase is from the held lock's
/// phase to the current one.
pub fn lock_released()
    ensures { LockReleased }
{}

/// A replica may hold locks on two values.
pub fn two_locks_held()
    ensures { TwoLocksHeld }
{}

/// The 23 bytes of the report of replica 0 on the batch `[a=1]`.
pub fn report_spelled()
    ensures { ReportSpelled }
{}

/// Frames are read back from their bytes. One more byte, or signers that don't ascend, and nothing is read.
pub fn frames_read_back()
    ensures { FramesReadBack }
{}

/// The longest batch of version 1 has 1041 bytes, that of version 2 has 4161. A batch of 17 transactions is not read in version 1, nor one
/// of 65 in version 2.
pub fn batch_limits()
    ensures { BatchLimits }
{}

/// Digits and checksums of LM-OTS (RFC 8554, sections 3.1.3 and 4.4).
pub fn digits_and_checksums()
    ensures { DigitsAndChecksums }
{}

/// A counter accepts the numbers from 0 on, in order.
pub fn counter_counts()
    ensures { CounterCounts }
{}

/// The codes with which a counter refuses transactions for the pool, and what the pool keeps after a block.
pub fn counter_checks()
    ensures { CounterChecks }
{}

/// A purse accepts the same transfer only once.
pub fn purse_pays()
    ensures { PursePays }
{}

/// A history of six entries is the replay of its events.
pub fn first_entries_replay()
    ensures { FirstEntriesReplay }
{}

/// What a replica proposed, opened and read at a height is in the log of that height, and in no other log.
pub fn log_of_a_round()
    ensures { LogOfARound }
{}

/// A held lock is sent on as the frame in which it was read.
pub fn lock_sent_on()
    ensures { LockSentOn }
{}

/// A round is opened with nothing to send. Bytes that are no frame, a stranger's frame and a frame of an unopened
/// height are each ignored with their cause, and so is a report for which the ring has no key.
pub fn round_entries_replay()
    ensures { RoundEntriesReplay }
{}

/// Steps of a world: a replica that doesn't exist, a liar and a frame that nobody sent are refused; a submit and a
/// liar's bytes each add an entry.
pub fn world_runs()
    ensures { WorldRuns }
{}
