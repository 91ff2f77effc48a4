//! A law of the public file of a cluster, proved from the definitions alone.
ghost use Rattle.program.specs.Laws.{ReadsBack};

/// An auditor who reads the file that [`publish`](crate::publish) writes knows the cluster of its seed.
pub fn reads_back()
    ensures { ReadsBack }
{}
