//! The laws by which choices and decisions from lists agree with the replica's log.
ghost use Rattle.phase_core.specs.Laws.{FoundIsSupported, DecidedIsAcked};

/// The reports that were read in a phase find a value often enough exactly if the log supports a lock on it.
pub fn found_is_supported()
    ensures { FoundIsSupported }
{}

/// The acknowledgements that were read in a phase decide a lock that was made exactly if the log decides its value.
pub fn decided_is_acked()
    ensures { DecidedIsAcked }
{}
