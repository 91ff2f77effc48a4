//! A law of the files of clusters, proved from the definitions alone.
ghost use Rattle.cluster_files.specs.Laws.{DescribesOne};

/// A text describes at most one cluster.
pub fn describes_one()
    ensures { DescribesOne }
{}
