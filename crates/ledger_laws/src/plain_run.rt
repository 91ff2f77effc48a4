//! Histories that lock, decide and commit, so that the premises of laws are seen to be met.
ghost use Rattle.ledger_laws.specs.PlainRun.{PlainRunCommits};

/// Three correct replicas of four propose `[a=1]`; replica 1 locks it, decides and runs it in the first phase. Under every ring
/// whose keys verify the signatures of their histories, these are lawful, and what they read was made. They meet the premises of
/// [`one_lock`](crate::laws::one_lock), [`one_decision`](crate::laws::one_decision),
/// [`common_proposal`](crate::laws::common_proposal) and [`one_ledger`](crate::laws::one_ledger).
pub fn plain_run_commits()
    ensures { PlainRunCommits }
{}
