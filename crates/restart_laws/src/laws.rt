//! What holds of every run in which replicas stop and go on.
ghost use Rattle.restart_laws.specs.Restarts.{LoggedEntriesStay, RestartsAreInvisible, RestartsRefine};

/// A run in which any replicas stop between any two events, and go on from a prefix of their histories, as often as one likes, is a run in which
/// none stops. Its entries are those that the replicas have in the end: what a client was told of other entries may be lost.
pub fn restarts_are_invisible()
    ensures { RestartsAreInvisible }
{}

/// Every such run is a run of one sequential ledger, if whatever a correct replica accepts of a correct one is in that one's log by then. That
/// holds if nothing is forged, and each replica logs an entry before it sends what the entry says.
pub fn restarts_refine()
    ensures { RestartsRefine }
{}

/// What the logs have at some moment is in the histories in the end, whichever replicas stop meanwhile. So a replica that tells its clients of
/// logged entries alone never takes back what it told them.
pub fn logged_entries_stay()
    ensures { LoggedEntriesStay }
{}
