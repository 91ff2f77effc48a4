//! What each worker of a cluster is to do.

/// How many rounds each worker ends, and whether it opens heights for blocks without a transaction.
#[derive(Clone, Copy, Debug, Drop, PartialEq, Eq)]
pub struct WorkPlan {
    /// The number of rounds that each worker ends.
    pub rounds: u32,
    /// Whether a worker opens a height while its replica's pool is empty; if not, only once a frame about that height has come.
    pub creates_empty_blocks: bool,
}
