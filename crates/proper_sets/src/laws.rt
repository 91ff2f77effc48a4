//! Laws of proper values that hold of every log, proved from the definitions alone.
ghost use Rattle.proper_sets.specs.Laws.{BeginsWithOwn, AbsorbsAPhase};

/// On every log only the replica's own initial value is proper as the first phase opens.
pub fn begins()
    ensures { BeginsWithOwn }
{}

/// Absorbing the reports that were read in a phase gives what the log makes proper as the next phase opens.
pub fn absorbs_a_phase()
    ensures { AbsorbsAPhase }
{}
