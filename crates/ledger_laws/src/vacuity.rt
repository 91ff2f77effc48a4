//! The laws are not vacuous. They exclude something: histories that no ledger explains. Their premises can be met:
//! there are histories without a fault, runs in which nothing is forged, and histories that pass an audit.
ghost use Rattle.ledger_laws.specs.Audits.{ForkIsCaught, CaughtForkExample, QuietHistoriesPass, ReportExample, LockExample};
ghost use Rattle.ledger_laws.specs.Vacuity.{NoRunWithoutLedger, NoRunThatRewrites, LedgerIsUnique, ForkHasNoLedger, ForkExample, WrongBlockHasNoLedger, WrongQueryHasNoLedger, WrongCodeHasNoLedger, TakenRefusalHasNoLedger, UnproposedBatchHasNoLedger, UnproposedBatchExample, AgreementHasLedger, FloorExample, OnlyInjectionsForge, SilentRunsForgeNothing, SilentRunsRefine};

/// If the histories of a world have no ledger, the world is not the run of a ledger.
pub fn no_run_without_ledger()
    ensures { NoRunWithoutLedger }
{}

/// If some entry of a world rewrites its ledger instead of extending it, the world is not the run of a ledger.
pub fn no_run_that_rewrites()
    ensures { NoRunThatRewrites }
{}

/// Histories have at most one ledger. So the ledger contains no batch that no correct replica committed.
pub fn ledger_is_unique()
    ensures { LedgerIsUnique }
{}

/// If two correct replicas committed different batches at one height, their histories have no ledger. In the example,
/// replicas 1 and 2 committed `[a=1]` and `[b=1]` at height 1. No run of the world in which nothing that was accepted
/// was forged ends in this state.
pub fn fork_has_no_ledger()
    ensures law { ForkHasNoLedger }
    ensures example { ForkExample }
{}

/// If a correct replica ran `[a=1]` as its first block, and the result differs from that of the application run alone,
/// the histories have no ledger.
pub fn wrong_block_has_no_ledger()
    ensures { WrongBlockHasNoLedger }
{}

/// If a correct replica that committed `[a=1]` answers a query otherwise than the application run alone, the histories
/// have no ledger.
pub fn wrong_query_has_no_ledger()
    ensures { WrongQueryHasNoLedger }
{}

/// If a correct replica that committed nothing refuses a transaction with another code than the application run alone,
/// the histories have no ledger.
pub fn wrong_code_has_no_ledger()
    ensures { WrongCodeHasNoLedger }
{}

/// If a correct replica that committed nothing takes a transaction that the application run alone refuses, the histories
/// have no ledger.
pub fn taken_refusal_has_no_ledger()
    ensures { TakenRefusalHasNoLedger }
{}

/// If a correct replica committed a batch at a height for which all correct replicas proposed another, the histories
/// have no ledger. In the example, replicas 0 to 2 proposed `[a=1]`, and replica 1 committed `[b=1]`.
pub fn unproposed_batch_has_no_ledger()
    ensures law { UnproposedBatchHasNoLedger }
    ensures example { UnproposedBatchExample }
{}

/// The ledger of replicas 1 and 2 is `[a=1]` if both proposed and committed it, with the replies of the application run alone.
pub fn agreement_has_ledger()
    ensures { AgreementHasLedger }
{}

/// A replica that committed `[a=1]` at height 1 may raise its floor to 2, and to nothing else. Then height 1 is closed,
/// and isn't opened again.
pub fn committed_height_is_given_up()
    ensures { FloorExample }
{}

/// What correct replicas send is never forged, so the premise that nothing is forged matters only for injected bytes.
pub fn only_injections_forge()
    ensures { OnlyInjectionsForge }
{}

/// If no step of a run injects bytes, nothing that was accepted was forged, whatever the signatures are. So the run is
/// a run of one sequential ledger, without a premise on forgery.
pub fn silent_runs_refine()
    ensures unforged { SilentRunsForgeNothing }
    ensures refine { SilentRunsRefine }
{}

/// An audit catches every fork. If two of its replays committed different batches at one height, some entry accepts a
/// statement that its signer's history doesn't send. In the example replicas 1 and 2 committed `[a=1]` and `[b=1]` at
/// height 1. Its histories are no replays, since their signatures are empty; the first statement that is accepted but not
/// sent is an acknowledgement of replica 0, which replica 1 accepted. A fork of replays is a test of `replica_tests`.
pub fn fork_is_caught()
    ensures law { ForkIsCaught }
    ensures example { CaughtForkExample }
{}

/// Histories can pass an audit. In the first example three replays pass. In the second, two replicas accept a report,
/// which is unsent unless its signer's history sends it. In the third, a lock that its owner sends in a lock-release
/// round doesn't count as sent.
pub fn audit_can_pass()
    ensures replays { QuietHistoriesPass }
    ensures reports { ReportExample }
    ensures locks { LockExample }
{}
